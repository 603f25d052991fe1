//! `solve`: the plan of each kind of ending, by one worker and by several.

use crate::fixtures::told;
use std::alloc::Global;
use std::str;
use std::test::Fail;
use std::thread::Threads;

// Words, an input, the status, and the text, in each line: no node, a reservoir, a node that wants what nothing brings, a cycle that gains,
// one that loses, a cycle that is a piece (with its log too), a fixed arc, a flip, an overflow, a budget of 1, and a supply that is repeated.
const ROWS: &str =
    "solve > netplan,1 | periods,1 | end > 0 > netplan-plan,1 | verdict,optimal | cost,0 | end
solve > netplan,1 | periods,2 | node,A | supply,A,1,55 | supply,A,2,-45 | hold,keep,A,9/10,0,inf,1 | drain,spill,A,0,inf,0 | end > 0 > netplan-plan,1 | verdict,optimal | cost,50 | flow,keep,1,50 | flow,spill,1,5 | flow,spill,2,0 | price,A,1,0 | price,A,2,-10/9 | end
solve > netplan,1 | periods,1 | node,A | supply,A,1,-5 | end > 1 > netplan-plan,1 | verdict,infeasible | gap,5 | price,A,1,-1 | end
solve > netplan,1 | periods,1 | node,A | node,B | arc,u,A,B,2,0,inf,0 | arc,w,B,A,1,0,inf,0 | drain,z,A,0,inf,-1 | end > 2 > netplan-plan,1 | verdict,unbounded | flow,u,1,0 | flow,w,1,0 | flow,z,1,0 | ray,u,1,1 | ray,w,1,2 | ray,z,1,1 | end
solve --log > netplan,1 | periods,1 | node,A | node,B | arc,u,A,B,1/2,0,inf,1 | arc,w,B,A,1/2,0,inf,1 | end > 0 > netplan-plan,1 | verdict,optimal | cost,0 | flow,u,1,0 | flow,w,1,0 | price,A,1,0 | price,B,1,0 | turned,0 | end
solve > netplan,1 | periods,1 | node,A | node,B | supply,A,1,-1 | arc,u,A,B,2,0,inf,1 | arc,w,B,A,1,0,inf,1 | end > 0 > netplan-plan,1 | verdict,optimal | cost,3 | flow,u,1,1 | flow,w,1,2 | price,A,1,-3 | price,B,1,-2 | end
solve --log > netplan,1 | periods,1 | node,A | node,B | supply,A,1,-1 | arc,u,A,B,2,0,inf,1 | arc,w,B,A,1,0,inf,1 | end > 0 > netplan-plan,1 | verdict,optimal | cost,3 | flow,u,1,1 | flow,w,1,2 | price,A,1,-3 | price,B,1,-2 | turned,2 | pivot,1,1,3,lower | pivot,2,0,2,lower | end
solve > netplan,1 | periods,1 | node,A | supply,A,1,4 | drain,z,A,4,4,-7 | end > 0 > netplan-plan,1 | verdict,optimal | cost,-28 | flow,z,1,4 | price,A,1,0 | end
solve --log > netplan,1 | periods,1 | node,A | supply,A,1,5 | drain,y,A,0,inf,0 | drain,z,A,0,3,-1 | end > 0 > netplan-plan,1 | verdict,optimal | cost,-3 | flow,y,1,2 | flow,z,1,3 | price,A,1,0 | turned,1 | pivot,1,0,2,lower | pivot,2,1,1,upper | end
solve --workers 1 > netplan,1 | periods,1 | node,A | node,B | node,C | node,D | supply,D,1,-1 | arc,ab,A,B,1/1000000000000000000,0,inf,0 | arc,bc,B,C,1/1000000000000000000,0,inf,0 | arc,cd,C,D,1/1000000000000000000,0,inf,0 | feed,f,A,0,inf,1 | end > 4 > netplan-plan,1 | verdict,overflow | past,A7,2,times,1/1000000000000000000,-1/1000000000000000000000000000000000000 | pivot,1,0,4,lower | pivot,2,1,5,lower | end
solve --budget 1 > netplan,1 | periods,1 | node,A | node,B | node,C | supply,A,*,1 | supply,B,*,1 | supply,C,*,1 | drain,a,A,0,inf,0 | drain,b,B,0,inf,0 | drain,c,C,0,inf,0 | end > 3 > netplan-plan,1 | verdict,budget | arc,1 | pivot,1,0,3,lower | end
solve --log --budget 0000001 --workers 16 > netplan,1 | periods,1 | node,A | node,B | node,C | supply,A,*,1 | supply,B,*,1 | supply,C,*,1 | drain,a,A,0,inf,0 | drain,b,B,0,inf,0 | drain,c,C,0,inf,0 | end > 3 > netplan-plan,1 | verdict,budget | arc,1 | pivot,1,0,3,lower | end
solve > netplan,1 | periods,2 | node,A | supply,A,*,3 | supply,A,2,-1 | drain,z,A,0,inf,1 | feed,f,A,0,inf,2 | end > 0 > netplan-plan,1 | verdict,optimal | cost,5 | flow,z,1,3 | flow,f,1,0 | flow,z,2,0 | flow,f,2,1 | price,A,1,1 | price,A,2,-2 | end
solve > netplan,1 | periods,1 | node,A | node,A | end > 5 > netplan-refused,1 | fault,4,Repeated | end
solve > netplan,1 | periods,1 | node,A | end | netplan-plan,1 > 5 > netplan-refused,1 | fault,5,AfterEnd | end";

// An input, and two texts, in each line: of the potentials only their difference is determined, so either node may have 0. A band that costs more, a
// band that costs the same, and a breakeven cycle.
const TIES: &str =
    "netplan,1 | periods,1 | node,A | node,B | supply,A,1,12 | supply,B,1,-12 | arc,u,A,B,1,0,10,1 | piece,u,5,3 | end > netplan-plan,1 | verdict,optimal | cost,16 | flow,u,1,12 | price,A,1,3 | price,B,1,0 | end > netplan-plan,1 | verdict,optimal | cost,16 | flow,u,1,12 | price,A,1,0 | price,B,1,-3 | end
netplan,1 | periods,1 | node,A | node,B | supply,A,1,12 | supply,B,1,-12 | arc,u,A,B,1,0,10,1 | piece,u,5,1 | end > netplan-plan,1 | verdict,optimal | cost,12 | flow,u,1,12 | price,A,1,1 | price,B,1,0 | end > netplan-plan,1 | verdict,optimal | cost,12 | flow,u,1,12 | price,A,1,0 | price,B,1,-1 | end
netplan,1 | periods,1 | node,A | node,B | supply,A,1,3 | supply,B,1,-6 | arc,u,A,B,2,0,inf,1 | arc,w,B,A,1/2,0,inf,1 | end > netplan-plan,1 | verdict,optimal | cost,3 | flow,u,1,3 | flow,w,1,0 | price,A,1,1 | price,B,1,0 | end > netplan-plan,1 | verdict,optimal | cost,3 | flow,u,1,3 | flow,w,1,0 | price,A,1,0 | price,B,1,-1/2 | end";

// A lake over a year: it fills in the first half, and a part is lost each month.
const YEAR: &str =
    "netplan,1 | periods,12 | node,Lake | supply,Lake,*,-60 | supply,Lake,1,100 | supply,Lake,2,100 | \
    supply,Lake,3,100 | supply,Lake,4,100 | supply,Lake,5,100 | supply,Lake,6,100 | hold,store,Lake,97/100,0,200,0 | \
    drain,spill,Lake,0,inf,0 | feed,buy,Lake,0,inf,10 | end";

// Lines that stand in the text of its plan.
const YEAR_LINES: &str = "verdict,optimal
cost,86177909/50000
flow,store,6,200
flow,buy,10,26177909/500000
flow,buy,11,60
flow,buy,12,60";

// Whether these words answer this status and this text.
fn is_answered(
    rt: &(impl Threads + Sync),
    alloc: Global,
    words: &str,
    records: &str,
    status: &str,
    want: &str,
) -> Result<bool, Fail> {
    told(rt, alloc, words, records)?.is(alloc, status.parse::<u8>()?, want)
}

// Whether a row of words, an input, a status and a text holds; with 1, 4 and 16 workers where the words do not say how many.
fn is_row(rt: &(impl Threads + Sync), alloc: Global, row: &str) -> Result<bool, Fail> {
    let mut parts = row.split(" > ");
    let words = parts.next().unwrap_or("");
    let input = parts.next().unwrap_or("");
    let status = parts.next().unwrap_or("");
    let text = parts.next().unwrap_or("");
    let own = is_answered(rt, alloc, words, input, status, text)?;
    if !own || words.contains("--workers") {
        return Ok(own);
    }
    let alone = format!(in alloc; "{words} --workers 1")?;
    let many = format!(in alloc; "{words} --workers 16")?;
    Ok(
        is_answered(rt, alloc, alone.as_str(), input, status, text)?
            && is_answered(rt, alloc, many.as_str(), input, status, text)?,
    )
}

// Whether a row of an input and two texts holds, of which one is to be written.
fn is_tie(rt: &(impl Threads + Sync), alloc: Global, row: &str) -> Result<bool, Fail> {
    let mut parts = row.split(" > ");
    let told = told(rt, alloc, "solve", parts.next().unwrap_or(""))?;
    let first = parts.next().unwrap_or("");
    let second = parts.next().unwrap_or("");
    Ok(told.is(alloc, 0, first)? || told.is(alloc, 0, second)?)
}

#[test]
fn solves_rows(rt: HostRuntime) -> Result<(), Fail> {
    for row in ROWS.lines() {
        assert!(rt; is_row(&rt, rt.alloc(), row)?, "{row}");
    }
    for row in TIES.lines() {
        assert!(rt; is_tie(&rt, rt.alloc(), row)?, "{row}");
    }
    Ok(())
}

// Whether each line that is wanted stands in the text.
fn has_lines(text: &str, wanted: &str) -> bool {
    for line in wanted.lines() {
        if !text.lines().any(|own| own == line) {
            return false;
        }
    }
    true
}

#[test]
fn solves_a_year(rt: HostRuntime) -> Result<(), Fail> {
    for words in ["solve --workers 1", "solve", "solve --workers 16"] {
        let told = told(&rt, rt.alloc(), words, YEAR)?;
        assert_eq!(rt; told.status, 0);
        assert!(rt;
            has_lines(str::from_utf8(&told.text)?, YEAR_LINES),
            "{words}"
        );
    }
    Ok(())
}
