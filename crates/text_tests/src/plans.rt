//! Tests of plan texts: the first fault of each, the plan of one without, and what is written of it.

use certificates::{PlanRefused, plan_text, read_plan};
use np_frac::{Frac, Memory, read_frac};
use np_model::{Bands, Flow, FlowKind, Flows, Fracs, Name, Names, Plan, Scheme, Upper, Verdict};
use std::alloc::Global;
use std::test::Fail;
use std::vec;

// A name of one letter.
fn name(alloc: Global, letter: u8) -> Result<Name, Memory> {
    let mut items = Vec::new(alloc);
    items.push(letter)?;
    Ok(Name { items })
}

// A flow with such a name, from 0 to 1 in each period, where a unit costs 1.
fn flow(alloc: Global, letter: u8, kind: FlowKind) -> Result<Flow, Memory> {
    Ok(Flow {
        name: name(alloc, letter)?,
        kind,
        lower: Frac::whole(0),
        upper: Upper::Finite(Frac::whole(1)),
        cost: Frac::whole(1),
        bands: Bands {
            items: Vec::new(alloc),
        },
    })
}

// A network of two nodes A and B: a link u from A to B, a hold h at A, and a drain d at B. Over two periods its staged arcs
// are u, h and d in period 1, u and d in period 2.
fn network(alloc: Global, periods: u32) -> Result<Scheme, Fail> {
    let mut nodes = Vec::new(alloc);
    nodes.push(name(alloc, b'A')?)?;
    nodes.push(name(alloc, b'B')?)?;
    let gain = Frac::whole(1);
    let mut flows = Vec::new(alloc);
    flows.push(flow(
        alloc,
        b'u',
        FlowKind::Link {
            from: 0,
            to: 1,
            gain,
        },
    )?)?;
    flows.push(flow(alloc, b'h', FlowKind::Hold { node: 0, gain })?)?;
    flows.push(flow(alloc, b'd', FlowKind::Drain { node: 1 })?)?;
    let supply = vec![in alloc; Frac::whole(0); periods as usize * 2]?;
    let made = Scheme::new(
        alloc,
        periods,
        Names { items: nodes },
        Fracs { items: supply },
        Flows { items: flows },
    )?;
    Ok(made.ok_or("not a valid scheme")?)
}

// Texts stand in tests with `|` for the end of a record.

// What a row gives is the number of the first record with a fault, its word, and the records of the plan text.
const FAULTS: &str = "1 NoEnd 
1 Header netplan,1
1 Header netplan-plan
1 Header netplan-plan,1,
1 Header netplan-plan,2|verdict,best
2 NoEnd netplan-plan,1
2 Header netplan-plan,1|end
2 Header netplan-plan,1|verdict
2 Header netplan-plan,1|verdict,best
2 Header netplan-plan,1|verdict,optimal,1
3 NoEnd netplan-plan,1|verdict,unbounded
4 NoEnd netplan-plan,1|verdict,optimal|cost,0
3 Unknown netplan-plan,1|verdict,optimal|verdict,optimal
3 Unknown netplan-plan,1|verdict,optimal|node,A
4 Unknown netplan-plan,1|verdict,optimal|cost,0|\"\"|end,1
3 FieldCount netplan-plan,1|verdict,optimal|cost
3 FieldCount netplan-plan,1|verdict,optimal|flow,w,0
4 FieldCount netplan-plan,1|verdict,optimal|cost,0|pivot,2,x
4 FieldCount netplan-plan,1|verdict,budget|cost,0|end,1|end
3 NoSuchName netplan-plan,1|verdict,optimal|flow,A,0,x
3 NoSuchName netplan-plan,1|verdict,optimal|price,u,1,1
4 NoSuchName netplan-plan,1|verdict,optimal|cost,0|ray,x,9,1|end
3 BadPeriod netplan-plan,1|verdict,optimal|flow,u,0,x
3 BadPeriod netplan-plan,1|verdict,optimal|flow,u,3,1
3 BadPeriod netplan-plan,1|verdict,optimal|flow,h,2,1
3 BadPeriod netplan-plan,1|verdict,optimal|ray,h,2,1
3 BadPeriod netplan-plan,1|verdict,optimal|price,A,*,1
4 BadPeriod netplan-plan,1|verdict,optimal|cost,0|price,A,0000000001,1
3 BadNumber netplan-plan,1|verdict,optimal|cost,1.5
3 BadNumber netplan-plan,1|verdict,optimal|gap,1/0
3 BadNumber netplan-plan,1|verdict,optimal|cost,170141183460469231731687303715884105728
3 BadNumber netplan-plan,1|verdict,optimal|arc,-1
3 BadNumber netplan-plan,1|verdict,optimal|arc,1000000000
3 BadNumber netplan-plan,1|verdict,optimal|turned,1/1
3 BadNumber netplan-plan,1|verdict,optimal|flow,u,1,inf
3 BadNumber netplan-plan,1|verdict,optimal|past,A9,0,plus,1,1
3 BadNumber netplan-plan,1|verdict,optimal|past,A1,turn,plus,1,1
3 BadNumber netplan-plan,1|verdict,optimal|past,A4,turn,plus,1,1
3 BadNumber netplan-plan,1|verdict,optimal|past,A8,0,plus,1,1
3 BadNumber netplan-plan,1|verdict,optimal|past,A2,C0,plus,1,1
3 BadNumber netplan-plan,1|verdict,optimal|past,A8,C7,plus,1,1
3 BadNumber netplan-plan,1|verdict,optimal|past,A1,0,add,1,1
3 BadNumber netplan-plan,1|verdict,optimal|past,A1,0,plus,1,x
3 BadNumber netplan-plan,1|verdict,optimal|pivot,2,0,2,lower
3 BadNumber netplan-plan,1|verdict,optimal|pivot,0,0,2,lower
3 BadNumber netplan-plan,1|verdict,optimal|pivot,1,0,2,basic
4 BadNumber netplan-plan,1|verdict,optimal|pivot,1,0,2,lower|pivot,1,0,2,lower
4 BadNumber netplan-plan,1|verdict,optimal|pivot,1,0,2,lower|pivot,3,1,1,upper|end
4 Repeated netplan-plan,1|verdict,optimal|flow,u,1,0|flow,u,01,1
4 Repeated netplan-plan,1|verdict,infeasible|ray,h,1,0|ray,h,1,0
5 Repeated netplan-plan,1|verdict,infeasible|gap,1|price,B,2,0|price,B,2,1/2|end
4 Repeated netplan-plan,1|verdict,budget|cost,0|cost,0
4 Repeated netplan-plan,1|verdict,budget|gap,0|gap,0
4 Repeated netplan-plan,1|verdict,budget|arc,0|arc,0
4 Repeated netplan-plan,1|verdict,budget|turned,0|turned,0
4 Repeated netplan-plan,1|verdict,budget|past,A1,0,plus,1,1|past,A1,0,plus,1,1
3 Missing netplan-plan,1|verdict,optimal|end
4 Missing netplan-plan,1|verdict,optimal|gap,1|end
4 Missing netplan-plan,1|verdict,infeasible|cost,1|end|end
3 Missing netplan-plan,1|verdict,budget|end
3 Missing netplan-plan,1|verdict,overflow|end
4 AfterEnd netplan-plan,1|verdict,unbounded|end|end
4 AfterEnd netplan-plan,1|verdict,unbounded|end|flow,u,1,1
5 AfterEnd netplan-plan,1|verdict,optimal|cost,0|end|x";

// What a row gives is as in FAULTS, over one period: a hold has none to lead into.
const HOLDS: &str = "3 BadPeriod netplan-plan,1|verdict,optimal|flow,h,1,0
3 BadPeriod netplan-plan,1|verdict,unbounded|ray,h,1,0|end";

// Adds these records to a text.
fn add_records(text: &mut Vec<u8>, records: &str) -> Result<(), Fail> {
    for byte in records.as_bytes() {
        text.push(if *byte == b'|' { b'\n' } else { *byte })?;
    }
    Ok(())
}

// These parts of a text, one after the other.
fn text_of(alloc: Global, first: &str, second: &str) -> Result<Vec<u8>, Fail> {
    let mut text = Vec::new(alloc);
    add_records(&mut text, first)?;
    add_records(&mut text, second)?;
    Ok(text)
}

// The plan of a text without a fault, over two periods.
fn whole(alloc: Global, records: &str) -> Result<Plan, Fail> {
    let text = text_of(alloc, records, "")?;
    if 100_000 < text.len() {
        return Err(Fail::from("long"));
    }
    let scheme = network(alloc, 2)?;
    match read_plan(alloc, &text, 0, &scheme) {
        Ok(plan) => Ok(plan),
        Err(_) => Err(Fail::from("refused")),
    }
}

// The number and the word of the first fault of a plan text.
fn fault(alloc: Global, scheme: &Scheme, records: &str) -> Result<(u32, &'static [u8]), Fail> {
    let text = text_of(alloc, records, "")?;
    if 100_000 < text.len() {
        return Err(Fail::from("long"));
    }
    match read_plan(alloc, &text, 0, scheme) {
        Ok(_) => Err(Fail::from("a plan")),
        Err(PlanRefused::Memory) => Err(Fail::from("memory")),
        Err(PlanRefused::Fault { place, code }) => Ok((place, code.word())),
    }
}

// Fails at a row that does not tell the first fault of its records.
fn are_told(alloc: Global, rows: &'static str, scheme: &Scheme) -> Result<(), Fail> {
    for row in rows.lines() {
        let (place, rest) = row.split_once(' ').ok_or("no place")?;
        let (word, records) = rest.split_once(' ').ok_or("no word")?;
        let got = fault(alloc, scheme, records)?;
        if got.0 != place.parse::<u32>()? || got.1 != word.as_bytes() {
            return Err(Fail::from(row));
        }
    }
    Ok(())
}

#[test]
fn first_faults(rt: HostRuntime) -> Result<(), Fail> {
    are_told(rt.alloc(), FAULTS, &network(rt.alloc(), 2)?)
}

#[test]
fn holds_of_one_period(rt: HostRuntime) -> Result<(), Fail> {
    are_told(rt.alloc(), HOLDS, &network(rt.alloc(), 1)?)
}

// Whether these are the fractions, by their texts.
fn are(fracs: &Fracs, texts: &str) -> Result<bool, Fail> {
    let mut place = 0;
    for text in texts.split(' ') {
        let value = read_frac(text.as_bytes()).ok_or("no fraction")?;
        if fracs.as_slice().get(place) != Some(&value) {
            return Ok(false);
        }
        place += 1;
    }
    Ok(fracs.as_slice().len() == place)
}

// Records stand in any order, an amount that is not given is 0, and what the verdict does not use is not looked at.
#[test]
fn optimal(rt: HostRuntime) -> Result<(), Fail> {
    let plan = whole(
        rt.alloc(),
        "netplan-plan,1|verdict,optimal|price,B,2,-4/6|flow,d,2,5|pivot,1,0,3,lower|flow,u,01,1/2|cost,-7/1|gap,1|ray,u,1,1|\
        turned,001|past,A8,C6,over,1,2|arc,7|flow,h,1,170141183460469231731687303715884105727|pivot,2,1,1,upper|end",
    )?;
    assert!(rt; plan.verdict == Verdict::Optimal);
    assert!(rt; plan.amount == read_frac(b"-7"));
    assert!(rt;
        are(
            &plan.flows,
            "1/2 170141183460469231731687303715884105727 0 0 5"
        )?
    );
    assert!(rt; are(&plan.prices, "0 0 0 -2/3")?);
    Ok(())
}

// A row has the records of a plan, what its text has before the log, and its log.
const TEXTS: &str = "\
netplan-plan,1|verdict,optimal|price,B,2,-4/6|flow,d,2,5|pivot,1,0,3,lower|flow,u,01,1/2|cost,-7/1|gap,1|turned,001|ray,u,1,1|\
past,A8,C6,over,1,2|arc,7|pivot,2,1,1,upper|end;\
netplan-plan,1|verdict,optimal|cost,-7|flow,u,1,1/2|flow,h,1,0|flow,d,1,0|flow,u,2,0|flow,d,2,5|\
price,A,1,0|price,B,1,0|price,A,2,0|price,B,2,-2/3|;turned,1|pivot,1,0,3,lower|pivot,2,1,1,upper|
netplan-plan,1|verdict,infeasible|price,A,1,-1|cost,1|gap,5|pivot,1,7,007,upper|flow,u,1,1|end;\
netplan-plan,1|verdict,infeasible|gap,5|price,A,1,-1|price,B,1,0|price,A,2,0|price,B,2,0|;pivot,1,7,7,upper|
netplan-plan,1|verdict,unbounded|ray,u,2,1|turned,0|ray,d,2,1|flow,u,1,3|price,A,1,1|end;\
netplan-plan,1|verdict,unbounded|flow,u,1,3|flow,h,1,0|flow,d,1,0|flow,u,2,0|flow,d,2,0|\
ray,u,1,0|ray,h,1,0|ray,d,1,0|ray,u,2,1|ray,d,2,1|;turned,0|
netplan-plan,1|verdict,budget|pivot,1,999999999,3,lower|arc,000000001|cost,1|end;\
netplan-plan,1|verdict,budget|arc,1|;pivot,1,999999999,3,lower|
netplan-plan,1|verdict,overflow|arc,1|past,A8,C6,minus,2/4,-3|end;\
netplan-plan,1|verdict,overflow|past,A8,C6,minus,1/2,-3|;
netplan-plan,1|verdict,overflow|turned,5|past,A7,turn,over,0,0|end;\
netplan-plan,1|verdict,overflow|past,A7,turn,over,0,0|;turned,5|
netplan-plan,1|verdict,overflow|past,A1,03,times,1,-1/9|end;\
netplan-plan,1|verdict,overflow|past,A1,3,times,1,-1/9|;
netplan-plan,1|verdict,overflow|past,A5,4,plus,1,1|end;\
netplan-plan,1|verdict,overflow|past,A5,4,plus,1,1|;
netplan-plan,1|verdict,overflow|past,A8,C0,minus,1/2,-6/2|end;\
netplan-plan,1|verdict,overflow|past,A8,C0,minus,1/2,-3|;
netplan-plan,1|verdict,overflow|past,A6,999999999,minus,2/4,-3|end;\
netplan-plan,1|verdict,overflow|past,A6,999999999,minus,1/2,-3|;";

// The text of the plan of this one.
fn text_again(alloc: Global, scheme: &Scheme, text: &[u8], log: bool) -> Result<Vec<u8>, Fail> {
    if 100_000 < text.len() {
        return Err(Fail::from("long"));
    }
    match read_plan(alloc, text, 0, scheme) {
        Ok(plan) => Ok(plan_text(alloc, scheme, &plan, log)?),
        Err(_) => Err(Fail::from("refused")),
    }
}

// Whether this is what is written of the plan of a text, without its log and with it.
fn is_written(
    alloc: Global,
    scheme: &Scheme,
    text: &[u8],
    plain: &[u8],
    logged: &[u8],
) -> Result<bool, Fail> {
    if text_again(alloc, scheme, text, false)?.as_slice() != plain {
        return Ok(false);
    }
    Ok(text_again(alloc, scheme, text, true)?.as_slice() == logged)
}

// Whether this is also what is written of the plan that is read from it again.
fn stays_written(
    alloc: Global,
    scheme: &Scheme,
    given: &[u8],
    plain: &[u8],
    log: &str,
) -> Result<bool, Fail> {
    let mut logged = Vec::from_slice(alloc, plain.strip_suffix(b"end\n").ok_or("no end")?)?;
    add_records(&mut logged, log)?;
    add_records(&mut logged, "end|")?;
    let logged = logged.as_slice();
    Ok(
        is_written(alloc, scheme, given, plain, logged)?
            && is_written(alloc, scheme, logged, plain, logged)?,
    )
}

// Whether a row holds.
fn holds(alloc: Global, scheme: &Scheme, row: &str) -> Result<bool, Fail> {
    let (records, rest) = row.split_once(';').ok_or("no text")?;
    let (before, log) = rest.split_once(';').ok_or("no log")?;
    let given = text_of(alloc, records, "")?;
    let plain = text_of(alloc, before, "end|")?;
    stays_written(alloc, scheme, &given, &plain, log)
}

// What is written of a plan, and of the plan that is read from that again.
#[test]
fn texts_of_plans(rt: HostRuntime) -> Result<(), Fail> {
    let scheme = network(rt.alloc(), 2)?;
    for row in TEXTS.lines() {
        if !holds(rt.alloc(), &scheme, row)? {
            return Err(Fail::from(row));
        }
    }
    Ok(())
}
