//! `check`: rows of changed inputs, with the verdict or the first fault of each.

use crate::fixtures::told;
use std::alloc::Global;
use std::test::Fail;
use std::thread::Threads;

// The base network with the base plan behind it. Rows of tests stand in texts too, ` | ` between records.
const BASE: &str = "netplan,1 | periods,1 | node,A | node,B | supply,A,1,3 | supply,B,1,-6 | \
    arc,u,A,B,2,0,10,1 | end | netplan-plan,1 | verdict,optimal | cost,3 | flow,u,1,3 | \
    price,A,1,1 | price,B,1,0 | end";

// A change of the base, the status, and the text, in each line.
const ROWS: &str = "cost,3 > cost,3 > 0 > netplan-check,1 | accepted,optimal,3 | end
price,A,1,1 > price,A,1,2 > 10 > netplan-check,1 | rejected,reduced,u,1 | end
flow,u,1,3 > flow,u,1,2 > 10 > netplan-check,1 | rejected,balance,A,1 | end
cost,3 > cost,4 > 10 > netplan-check,1 | rejected,cost | end
B,2,0,10,1 > B,1/2,0,10,1 > 10 > netplan-check,1 | rejected,balance,B,1 | end
supply,B,1,-6 > supply,B,1,-6.0 > 0 > netplan-check,1 | accepted,optimal,3 | end
price,A,1,1 > price,A,1,2/2 > 0 > netplan-check,1 | accepted,optimal,3 | end
B,2,0,10,1 > B,2,0,2,1 > 10 > netplan-check,1 | rejected,bound,u,1 | end
B,2,0,10,1 > B,2,0,inf,1 > 0 > netplan-check,1 | accepted,optimal,3 | end
supply,A,1,3 > supply,A,*,3 > 0 > netplan-check,1 | accepted,optimal,3 | end
supply,A,1,3 > supply,A,1,7 | supply,A,01,003 > 0 > netplan-check,1 | accepted,optimal,3 | end
periods,1 > periods,2 > 0 > netplan-check,1 | accepted,optimal,3 | end
arc,u,A,B,2,0,10,1 > arc,u,A,B,2,0,10,1 | hold,h,A,1,0,1,1 > 0 > netplan-check,1 | accepted,optimal,3 | end
arc,u,A,B,2,0,10,1 > arc,u,A,B,2,0,2,1 | piece,u,1,1 > 0 > netplan-check,1 | accepted,optimal,3 | end
arc,u,A,B,2,0,10,1 > arc,u,A,B,2,0,2,1 | piece,u,1,2 > 10 > netplan-check,1 | rejected,reduced,u,1 | end";

// Changes of the base that are faults of the network, with the record and the word, in each line.
const FAULTS: &str = "netplan,1 > netplan,2 > 1,Header
periods,1 > periods,0 > 2,BadPeriod
node,B > node,A > 4,Repeated
node,B > node,B,C > 4,FieldCount
supply,B,1,-6 > supply,C,1,-6 > 6,NoSuchName
supply,B,1,-6 > supply,B,2,-6 > 6,BadPeriod
supply,B,1,-6 > supply,B,1,-6. > 6,BadNumber
arc,u,A,B > arc,u,A,A > 7,SameEnds
B,2,0,10,1 > B,0,0,10,1 > 7,BadGain
B,2,0,10,1 > B,2,11,10,1 > 7,BadBounds
arc,u,A,B,2,0,10,1 > arc,u,A,B,2,0,10,1 | piece,u,1,0 > 8,NotConvex
| end | netplan-plan,1 > | end,1 | netplan-plan,1 > 8,FieldCount
| end | netplan-plan,1 > | netplan-plan,1 > 8,Unknown";

// Changes of the base that are faults of the plan text, with the record of the whole input and the word, in each line.
const PLAN_FAULTS: &str = "netplan-plan,1 > netplan-plan,2 > 9,Header
verdict,optimal > verdict,best > 10,Header
verdict,optimal > verdict,infeasible > 15,Missing
cost,3 > arc,0 > 15,Missing
cost,3 > cost,3 | cost,3 > 12,Repeated
cost,3 > cost,3 | node,C > 12,Unknown
flow,u,1,3 > flow,w,1,3 > 12,NoSuchName
flow,u,1,3 > flow,u,2,3 > 12,BadPeriod
flow,u,1,3 > flow,u,1,3 | flow,u,01,3 > 13,Repeated
price,A,1,1 > price,A,1,1.0 > 13,BadNumber
price,A,1,1 > price,A,1,1/0 > 13,BadNumber
price,B,1,0 > price,C,1,0 > 14,NoSuchName
price,B,1,0 > price,B,1 > 14,FieldCount
price,B,1,0 | end > price,B,1,0 > 15,NoEnd
price,B,1,0 | end > price,B,1,0 | end,1 > 15,FieldCount
price,B,1,0 | end > price,B,1,0 | end | end > 16,AfterEnd";

// A reservoir over two months: a tenth of what is kept is lost. Its changes are as those of the base.
const RESERVOIR: &str =
    "netplan,1 | periods,2 | node,A | supply,A,1,55 | supply,A,2,-45 | hold,keep,A,9/10,0,inf,1 | \
    drain,spill,A,0,inf,0 | end | netplan-plan,1 | verdict,optimal | cost,50 | flow,keep,1,50 | flow,spill,1,5 | \
    flow,spill,2,0 | price,A,1,0 | price,A,2,-10/9 | end";

const RESERVOIR_ROWS: &str = "cost,50 > cost,50 > 0 > netplan-check,1 | accepted,optimal,50 | end
flow,spill,2,0 | price,A,1,0 > turned,007 > 0 > netplan-check,1 | accepted,optimal,50 | end
flow,keep,1,50 > flow,keep,1,51 > 10 > netplan-check,1 | rejected,balance,A,1 | end
price,A,2,-10/9 > price,A,2,-1 > 10 > netplan-check,1 | rejected,reduced,keep,1 | end
cost,50 > cost,49 > 10 > netplan-check,1 | rejected,cost | end
flow,keep,1,50 > flow,keep,2,50 > 5 > netplan-refused,1 | fault,12,BadPeriod | end
flow,spill,2,0 > flow,spill,1,0 > 5 > netplan-refused,1 | fault,14,Repeated | end";

// Plans of the other verdicts, and a plan with its log, as inputs are.
const VERDICTS: &str =
    "netplan,1 | periods,1 | node,A | supply,A,1,-5 | end | netplan-plan,1 | verdict,infeasible | gap,5 | price,A,1,-1 | end > 0 > netplan-check,1 | accepted,infeasible,5 | end
netplan,1 | periods,1 | node,A | supply,A,1,-5 | end | netplan-plan,1 | verdict,infeasible | gap,5 | price,A,1,1 | end > 10 > netplan-check,1 | rejected,gap | end
netplan,1 | periods,1 | node,A | node,B | arc,u,A,B,2,0,inf,0 | arc,w,B,A,1,0,inf,0 | drain,z,A,0,inf,-1 | end | netplan-plan,1 | verdict,unbounded | flow,u,1,0 | flow,w,1,0 | flow,z,1,0 | ray,u,1,1 | ray,w,1,2 | ray,z,1,1 | end > 0 > netplan-check,1 | accepted,unbounded | end
netplan,1 | periods,1 | node,A | node,B | arc,u,A,B,2,0,inf,0 | arc,w,B,A,1,0,inf,0 | drain,z,A,0,inf,-1 | end | netplan-plan,1 | verdict,unbounded | ray,u,1,1 | ray,w,1,1 | ray,z,1,1 | end > 10 > netplan-check,1 | rejected,ray-balance,A,1 | end
netplan,1 | periods,1 | node,A | node,B | node,C | supply,A,*,1 | supply,B,*,1 | supply,C,*,1 | drain,a,A,0,inf,0 | drain,b,B,0,inf,0 | drain,c,C,0,inf,0 | end | netplan-plan,1 | verdict,budget | arc,1 | pivot,1,0,3,lower | end > 10 > netplan-check,1 | rejected,uncertified | end
netplan,1 | periods,1 | node,A | end | netplan-plan,1 | verdict,overflow | past,A8,C4,times,3/6,-1 | end > 10 > netplan-check,1 | rejected,uncertified | end
netplan,1 | periods,1 | node,A | end | netplan-plan,1 | verdict,overflow | past,A1,C4,times,1/2,-1 | end > 5 > netplan-refused,1 | fault,7,BadNumber | end
netplan,1 | periods,1 | end | netplan-plan,1 | verdict,optimal | end > 5 > netplan-refused,1 | fault,6,Missing | end
netplan,1 | periods,1 | node,A | supply,A,1,5 | drain,y,A,0,inf,0 | drain,z,A,0,3,-1 | end | netplan-plan,1 | verdict,optimal | cost,-3 | flow,y,1,2 | flow,z,1,3 | price,A,1,0 | turned,1 | pivot,1,0,2,lower | pivot,3,1,1,upper | end > 5 > netplan-refused,1 | fault,16,BadNumber | end
netplan,1 | periods,1 | node,A | supply,A,1,5 | drain,y,A,0,inf,0 | drain,z,A,0,3,-1 | end | netplan-plan,1 | verdict,optimal | cost,-3 | flow,y,1,2 | flow,z,1,3 | price,A,1,0 | turned,1 | pivot,1,0,2,lower | pivot,2,1,1,upper | end > 0 > netplan-check,1 | accepted,optimal,-3 | end";

// Inputs, the status, and the text, in each line: drains and feeds, and a network text that stands alone.
const INPUTS: &str =
    "netplan,1 | periods,1 | node,A | supply,A,1,4 | drain,z,A,4,4,-7 | end | netplan-plan,1 | verdict,optimal | cost,-28 | flow,z,1,4 | price,A,1,0 | end > 0 > netplan-check,1 | accepted,optimal,-28 | end
netplan,1 | periods,1 | node,A | supply,A,1,4 | drain,z,A,4,4,-7 | end | netplan-plan,1 | verdict,optimal | cost,28 | flow,z,1,4 | price,A,1,0 | end > 10 > netplan-check,1 | rejected,cost | end
netplan,1 | periods,1 | node,A | supply,A,1,-4 | feed,f,A,0,9,1/3 | end | netplan-plan,1 | verdict,optimal | cost,4/3 | flow,f,1,4 | price,A,1,-1/3 | end > 0 > netplan-check,1 | accepted,optimal,4/3 | end
netplan,1 | periods,1 | node,A | supply,A,1,-4 | feed,f,A,0,9,1/3 | end | netplan-plan,1 | verdict,optimal | cost,0 | flow,f,1,4 | price,A,1,-1/3 | end > 10 > netplan-check,1 | rejected,cost | end
netplan,1 | periods,1 | node,A | supply,A,1,-4 | feed,f,A,0,9,1/3 | end | netplan-plan,1 | verdict,optimal | cost,4/3 | flow,f,1,4 | price,A,1,1/3 | end > 10 > netplan-check,1 | rejected,reduced,f,1 | end
netplan,1 | periods,1 | node,A | drain,z,A,0,inf,1 | feed,f,A,0,inf,1 | end | netplan-plan,1 | verdict,optimal | cost,0 | flow,z,1,170141183460469231731687303715884105727 | flow,f,1,-1 | end > 4 > netplan-check,1 | past,C1,minus,170141183460469231731687303715884105727,-1 | end
netplan,1 | periods,1 | node,A | node,A | end | netplan-plan,2 | end > 5 > netplan-refused,1 | fault,4,Repeated | end
netplan,1 | periods,1 | end > 5 > netplan-refused,1 | fault,4,NoEnd | end
netplan,1 | periods,1 | node,A > 5 > netplan-refused,1 | fault,4,NoEnd | end";

// Whether `check` answers this status and this text.
fn is_answered(
    rt: &(impl Threads + Sync),
    alloc: Global,
    records: &str,
    status: &str,
    want: &str,
) -> Result<bool, Fail> {
    told(rt, alloc, "check", records)?.is(alloc, status.parse::<u8>()?, want)
}

// Whether a row of a change of the records, a status and a text holds.
fn is_row(
    rt: &(impl Threads + Sync),
    alloc: Global,
    records: &str,
    row: &str,
) -> Result<bool, Fail> {
    let mut parts = row.split(" > ");
    let old = parts.next().unwrap_or("");
    let new = parts.next().unwrap_or("");
    let status = parts.next().unwrap_or("");
    let want = parts.next().unwrap_or("");
    let input = records.replace(alloc, old, new)?;
    is_answered(rt, alloc, input.as_str(), status, want)
}

// Whether a row of an input, a status and a text holds.
fn is_input(rt: &(impl Threads + Sync), alloc: Global, row: &str) -> Result<bool, Fail> {
    let mut parts = row.split(" > ");
    let input = parts.next().unwrap_or("");
    let status = parts.next().unwrap_or("");
    is_answered(rt, alloc, input, status, parts.next().unwrap_or(""))
}

// Whether a row of a change of the base and a fault holds.
fn is_fault(rt: &(impl Threads + Sync), alloc: Global, row: &str) -> Result<bool, Fail> {
    let mut parts = row.split(" > ");
    let old = parts.next().unwrap_or("");
    let new = parts.next().unwrap_or("");
    let fault = parts.next().unwrap_or("");
    let input = BASE.replace(alloc, old, new)?;
    let want = format!(in alloc; "netplan-refused,1 | fault,{fault} | end")?;
    is_answered(rt, alloc, input.as_str(), "5", want.as_str())
}

#[test]
fn answers_rows(rt: HostRuntime) -> Result<(), Fail> {
    for row in ROWS.lines() {
        assert!(rt; is_row(&rt, rt.alloc(), BASE, row)?, "{row}");
    }
    for row in RESERVOIR_ROWS.lines() {
        assert!(rt; is_row(&rt, rt.alloc(), RESERVOIR, row)?, "{row}");
    }
    Ok(())
}

#[test]
fn answers_inputs(rt: HostRuntime) -> Result<(), Fail> {
    for row in INPUTS.lines() {
        assert!(rt; is_input(&rt, rt.alloc(), row)?, "{row}");
    }
    for row in VERDICTS.lines() {
        assert!(rt; is_input(&rt, rt.alloc(), row)?, "{row}");
    }
    Ok(())
}

#[test]
fn tells_first_faults(rt: HostRuntime) -> Result<(), Fail> {
    for row in FAULTS.lines() {
        assert!(rt; is_fault(&rt, rt.alloc(), row)?, "{row}");
    }
    for row in PLAN_FAULTS.lines() {
        assert!(rt; is_fault(&rt, rt.alloc(), row)?, "{row}");
    }
    let empty = "netplan-refused,1 | fault,1,NoEnd | end";
    assert!(rt; is_answered(&rt, rt.alloc(), "", "5", empty)?);
    Ok(())
}

#[test]
fn accepts_the_empty_network(rt: HostRuntime) -> Result<(), Fail> {
    let input = "netplan,1 | periods,1 | end | netplan-plan,1 | verdict,optimal | cost,0 | end";
    let want = "netplan-check,1 | accepted,optimal,0 | end";
    assert!(rt; is_answered(&rt, rt.alloc(), input, "0", want)?);
    Ok(())
}

// 171 arcs bring the greatest amount into B, times the greatest gain: 170 of these products are below 2^127.
fn many_products(alloc: Global) -> Result<String, Fail> {
    let mut input = String::new(alloc);
    input.push_str("netplan,1 | periods,1 | node,B | node,A")?;
    for i in 0..171 {
        let arc = format!(in alloc; " | arc,u{i},A,B,999999999999999999,0,inf,0")?;
        input.push_str(arc.as_str())?;
    }
    input.push_str(" | end | netplan-plan,1 | verdict,optimal | cost,0")?;
    for i in 0..171 {
        let flow = format!(in alloc; " | flow,u{i},1,999999999999999999")?;
        input.push_str(flow.as_str())?;
    }
    input.push_str(" | end")?;
    Ok(input)
}

#[test]
fn tells_what_overflows(rt: HostRuntime) -> Result<(), Fail> {
    let input = many_products(rt.alloc())?;
    let want =
        "netplan-check,1 | past,C1,minus,-169999999999999999660000000000000000170,999999999999999998000000000000000001 | end";
    assert!(rt; is_answered(&rt, rt.alloc(), input.as_str(), "4", want)?);
    Ok(())
}
