//! Tests of the checker.

ghost use Rattle.std.specs.Prelude.{IfOk};
ghost use Rattle.np_model.specs.Scheme.Fits.{PlanFits};

use cert_checker::{CheckRefusal, Checked, Clause, check, summed_cost, summed_gap};
use np_frac::{Frac, read_amount};
use np_model::{
    Band, Bands, CheckRow, Entries, Flow, FlowKind, Flows, Fracs, Log, Name, Names, Plan, Scheme,
    Upper, Verdict,
};
use std::alloc::Global;
use std::process::Abort;
use std::test::Fail;

// A supply, a plan and what is said of it, in each line; the supply goes into the scheme of the table. A scheme has its periods,
// how many nodes, their supplies, and its flows with their bands. A plan has its verdict and amount, its flows, its prices and
// its ray. Nodes and flows go by number. A reservoir is filled with 55 and asked for 45; a tenth of what is kept is lost.
const RESERVOIR: &str = "2 ; 1 ; S ; hold 0 9/10 0 inf 1 ; drain 0 0 inf 0";

const RESERVOIR_ROWS: &str = "55 -45 > optimal 50 ; 50 5 0 ; 0 -10/9 > optimal 50
55 -45 > optimal 50 ; 51 5 0 ; 0 -10/9 > reject balance 0 1
55 -45 > optimal 50 ; 50 5 1 ; 0 -10/9 > reject balance 0 2
55 -45 > optimal 50 ; 50 5 0 ; 0 -1 > reject reduced 0 1
55 -45 > optimal 49 ; 50 5 0 ; 0 -10/9 > reject cost
55 -45 > budget > reject uncertified";

// A feed whose units cost 1 up to 2, 3 up to 4 and 5 up to 6.
const BANDS: &str = "1 ; 1 ; S ; feed 0 0 2 1 2 3 2 5";

const BANDS_ROWS: &str = "-1 > optimal 1 ; 1 ; -1 > optimal 1
-1 > optimal 1 ; 1 ; -2 > reject reduced 0 1
-2 > optimal 2 ; 2 ; -2 > optimal 2
-2 > optimal 2 ; 2 ; -4 > reject reduced 0 1
-2 > optimal 2 ; 2 ; 0 > reject reduced 0 1
-3 > optimal 5 ; 3 ; -3 > optimal 5
-3 > optimal 5 ; 3 ; -4 > reject reduced 0 1
-3 > optimal 5 ; 3 ; -2 > reject reduced 0 1
-3 > optimal 3 ; 3 ; -3 > reject cost
-4 > optimal 8 ; 4 ; -4 > optimal 8
-4 > optimal 8 ; 4 ; -2 > reject reduced 0 1
-4 > optimal 8 ; 4 ; -6 > reject reduced 0 1
-6 > optimal 18 ; 6 ; -9 > optimal 18
-6 > optimal 18 ; 6 ; -4 > reject reduced 0 1
-7 > optimal 23 ; 7 ; -5 > reject bound 0 1
-7 > infeasible 1 ;  ; -1 > infeasible 1
-7 > infeasible 2 ;  ; -1 > reject gap";

const ALONE: &str = "1 ; 1 ; S";

const ALONE_ROWS: &str = "-5 > infeasible 5 ;  ; -1 > infeasible 5
-5 > infeasible 4 ;  ; -1 > reject gap
-5 > infeasible 5 ;  ; 1 > reject gap";

// What is asked for can be fed without end: prices that show it at the real cost show nothing at cost 0.
const FED: &str = "1 ; 1 ; S ; feed 0 0 inf 3";

const FED_ROWS: &str = "-5 > infeasible 5 ;  ; -1 > reject upper 0 1
-5 > optimal 15 ; 5 ; -3 > optimal 15";

// A cycle that gains, with a drain that pays.
const CYCLE: &str = "1 ; 2 ; S ; link 0 1 2 0 inf 0 ; link 1 0 1 0 inf 0 ; drain 0 0 inf -1";

const CYCLE_ROWS: &str = "0 0 > unbounded ; 0 0 0 ;  ; 1 2 1 > unbounded
0 0 > unbounded ; 0 0 0 ;  ; 1 1 1 > reject ray-balance 0 1
0 0 > unbounded ; 0 0 0 ;  ; -1 2 1 > reject ray-sign 0 1
0 0 > unbounded ; 0 0 0 ;  ; 0 0 0 > reject ray-cost
1 0 > unbounded ; 0 0 0 ;  ; 1 2 1 > reject balance 0 1";

// The same where the way back has an end.
const ENDED: &str = "1 ; 2 ; S ; link 0 1 2 0 inf 0 ; link 1 0 1 0 10 0 ; drain 0 0 inf -1";

const ENDED_ROWS: &str = "0 0 > unbounded ; 0 0 0 ;  ; 1 2 1 > reject ray-upper 1 1";

// The third supply has no common denominator of 128 bits with the first two.
const OVERFLOWS: &str = "1 ; 3 ; S";

const OVERFLOWS_ROWS: &str =
    "1/9999999999999999999 1/9999999999999999998 1/9999999999999999997 > infeasible 1 ;  ; 1 1 1 > past C5";

// A scheme, a plan and what its sums come to, whatever it claims.
const SUMS: &str =
    "2 ; 1 ; 55 -45 ; hold 0 9/10 0 inf 1 ; drain 0 0 inf 0 > optimal 0 ; 50 5 0 ; 0 -10/9 > optimal 50
2 ; 1 ; 55 -45 ; hold 0 9/10 0 inf 1 ; drain 0 0 inf 0 > optimal 0 ; 51 5 0 ; 0 -10/9 > reject balance 0 1
1 ; 1 ; -4 ; feed 0 0 2 1 2 3 2 5 > optimal 0 ; 4 ; -4 > optimal 8
1 ; 1 ; -4 ; feed 0 0 2 1 2 3 2 5 > optimal 0 ; 4 ; -2 > reject reduced 0 1
1 ; 1 ; -5 > infeasible 0 ;  ; -1 > infeasible 5
1 ; 1 ; -5 > infeasible 0 ;  ; 1 > reject gap
1 ; 1 ; -5 ; feed 0 0 inf 3 > infeasible 0 ;  ; -1 > reject upper 0 1
1 ; 3 ; 1/9999999999999999999 1/9999999999999999998 1/9999999999999999997 > infeasible 0 ;  ; 1 1 1 > past C5";

fn number(text: &str) -> Result<Frac, Fail> {
    Ok(read_amount(text.as_bytes()).ok_or("not an amount")?)
}

fn numbers(alloc: Global, text: &str) -> Result<Fracs, Fail> {
    let mut items = Vec::new(alloc);
    for word in text.split_whitespace() {
        items.push(number(word)?)?;
    }
    Ok(Fracs { items })
}

fn bound(text: &str) -> Result<Upper, Fail> {
    if text == "inf" {
        return Ok(Upper::Infinite);
    }
    Ok(Upper::Finite(number(text)?))
}

fn letter(alloc: Global, place: usize) -> Result<Name, Fail> {
    let mut items = Vec::new(alloc);
    items.push(b'a' + place.min(20) as u8)?;
    Ok(Name { items })
}

fn flow(alloc: Global, place: usize, text: &str) -> Result<Flow, Fail> {
    let mut words = text.split_whitespace();
    let form = words.next().unwrap_or("");
    let node = words.next().unwrap_or("").parse::<u32>()?;
    let kind = if form == "link" {
        let to = words.next().unwrap_or("").parse::<u32>()?;
        let gain = number(words.next().unwrap_or(""))?;
        FlowKind::Link {
            from: node,
            to,
            gain,
        }
    } else if form == "hold" {
        let gain = number(words.next().unwrap_or(""))?;
        FlowKind::Hold { node, gain }
    } else if form == "drain" {
        FlowKind::Drain { node }
    } else {
        FlowKind::Feed { node }
    };
    let lower = number(words.next().unwrap_or(""))?;
    let upper = bound(words.next().unwrap_or(""))?;
    let cost = number(words.next().unwrap_or(""))?;
    let mut items = Vec::new(alloc);
    for _ in 0..3 {
        let Some(width) = words.next() else { break };
        let slope = number(words.next().unwrap_or(""))?;
        items.push(Band {
            width: bound(width)?,
            slope,
        })?;
    }
    Ok(Flow {
        name: letter(alloc, place)?,
        kind,
        lower,
        upper,
        cost,
        bands: Bands { items },
    })
}

fn scheme(alloc: Global, text: &str) -> Result<Scheme, Fail> {
    let mut parts = text.split(';');
    let periods = parts.next().unwrap_or("").trim().parse::<u32>()?;
    let count = parts.next().unwrap_or("").trim().parse::<u8>()?;
    let supply = numbers(alloc, parts.next().unwrap_or(""))?;
    let mut nodes = Vec::new(alloc);
    for place in 0..count {
        nodes.push(letter(alloc, place as usize)?)?;
    }
    let mut flows = Vec::new(alloc);
    for part in parts {
        let next = flow(alloc, flows.len(), part)?;
        flows.push(next)?;
    }
    let made = Scheme::new(
        alloc,
        periods,
        Names { items: nodes },
        supply,
        Flows { items: flows },
    )?;
    Ok(made.ok_or("not a valid scheme")?)
}

fn verdict(text: &str) -> Verdict {
    if text == "optimal" {
        Verdict::Optimal
    } else if text == "infeasible" {
        Verdict::Infeasible
    } else if text == "unbounded" {
        Verdict::Unbounded
    } else {
        Verdict::Budget
    }
}

fn no_log(alloc: Global) -> Log {
    Log {
        turned: None,
        entries: Entries {
            items: Vec::new(alloc),
        },
    }
}

fn plan(alloc: Global, scheme: &Scheme, text: &str) -> Result<Plan, Fail>
    ensures { IfOk result (PlanFits scheme.now) }
{
    let mut parts = text.split(';');
    let mut head = parts.next().unwrap_or("").split_whitespace();
    let verdict = verdict(head.next().unwrap_or(""));
    let amount = read_amount(head.next().unwrap_or("").as_bytes());
    let flows = numbers(alloc, parts.next().unwrap_or(""))?;
    let prices = numbers(alloc, parts.next().unwrap_or(""))?;
    let ray = numbers(alloc, parts.next().unwrap_or(""))?;
    let plan = Plan {
        verdict,
        amount,
        flows,
        prices,
        ray,
        arc: Some(0),
        overflow: None,
        log: no_log(alloc),
    };
    if !plan.fits(scheme) {
        return Err(Fail::from("a plan that does not fit"));
    }
    Ok(plan)
}

fn clause(text: &str) -> Clause {
    match text {
        "balance" => Clause::Balance,
        "bound" => Clause::Bound,
        "reduced" => Clause::Reduced,
        "cost" => Clause::Cost,
        "upper" => Clause::Upper,
        "gap" => Clause::Gap,
        "ray-sign" => Clause::RaySign,
        "ray-upper" => Clause::RayUpper,
        "ray-balance" => Clause::RayBalance,
        "ray-cost" => Clause::RayCost,
        _ => Clause::Uncertified,
    }
}

// The refusal that the words say: a clause, and perhaps a name and a period.
fn refusal(text: &str) -> Result<CheckRefusal, Fail> {
    let mut words = text.split_whitespace();
    let clause = clause(words.next().unwrap_or(""));
    let Some(name) = words.next() else {
        return Ok(CheckRefusal::Reject {
            clause,
            name: None,
            period: 0,
        });
    };
    let name = Some(name.parse::<u32>()?);
    let period = words.next().unwrap_or("").parse::<u32>()?;
    Ok(CheckRefusal::Reject {
        clause,
        name,
        period,
    })
}

// The verdict that the words say, with its amount.
fn accepted(first: &str, amount: &str) -> Result<Checked, Fail> {
    if first == "unbounded" {
        return Ok(Checked::Unbounded);
    }
    let amount = number(amount)?;
    Ok(if first == "optimal" {
        Checked::Optimal(amount)
    } else {
        Checked::Infeasible(amount)
    })
}

// Whether an operation of the fifth row overflowed.
fn is_past(got: Result<Checked, CheckRefusal>) -> bool {
    matches!(
        got,
        Err(CheckRefusal::Past {
            row: CheckRow::C5,
            ..
        })
    )
}

// Whether this is what the words say.
fn is_said(got: Result<Checked, CheckRefusal>, text: &str) -> Result<bool, Fail> {
    let (first, rest) = text.split_once(' ').unwrap_or((text, ""));
    if first == "past" {
        return Ok(is_past(got));
    }
    if first == "reject" {
        return Ok(got == Err(refusal(rest)?));
    }
    Ok(got == Ok(accepted(first, rest)?))
}

fn expect(rt: &impl Abort, alloc: Global, base: &str, rows: &str) -> Result<(), Fail> {
    for row in rows.lines() {
        let mut parts = row.split(" > ");
        let text = base.replace(alloc, "S", parts.next().unwrap_or(""))?;
        let scheme = scheme(alloc, text.as_str())?;
        let plan = plan(alloc, &scheme, parts.next().unwrap_or(""))?;
        let got = check(alloc, &scheme, &plan);
        assert!(rt; is_said(got, parts.next().unwrap_or(""))?, "{row}");
    }
    Ok(())
}

#[test]
fn walks_periods_and_holds(rt: HostRuntime) -> Result<(), Fail> {
    expect(&rt, rt.alloc(), RESERVOIR, RESERVOIR_ROWS)
}

#[test]
fn walks_bands(rt: HostRuntime) -> Result<(), Fail> {
    expect(&rt, rt.alloc(), BANDS, BANDS_ROWS)
}

#[test]
fn knows_that_there_is_no_plan(rt: HostRuntime) -> Result<(), Fail> {
    expect(&rt, rt.alloc(), ALONE, ALONE_ROWS)?;
    expect(&rt, rt.alloc(), FED, FED_ROWS)
}

#[test]
fn knows_that_there_is_no_least_plan(rt: HostRuntime) -> Result<(), Fail> {
    expect(&rt, rt.alloc(), CYCLE, CYCLE_ROWS)?;
    expect(&rt, rt.alloc(), ENDED, ENDED_ROWS)
}

#[test]
fn tells_what_overflows(rt: HostRuntime) -> Result<(), Fail> {
    expect(&rt, rt.alloc(), OVERFLOWS, OVERFLOWS_ROWS)
}

// What the sums of a plan come to.
fn summed(alloc: Global, scheme: &Scheme, plan: &Plan) -> Result<Checked, CheckRefusal>
    requires { PlanFits scheme.now plan.now }
{
    match plan.verdict {
        Verdict::Optimal => {
            let cost = summed_cost(alloc, scheme, plan.flows.as_slice(), plan.prices.as_slice())?;
            Ok(Checked::Optimal(cost))
        }
        Verdict::Infeasible => {
            let gap = summed_gap(alloc, scheme, plan.prices.as_slice())?;
            Ok(Checked::Infeasible(gap))
        }
        _ => Err(CheckRefusal::Memory),
    }
}

#[test]
fn sums_whatever_is_claimed(rt: HostRuntime) -> Result<(), Fail> {
    let alloc = rt.alloc();
    for row in SUMS.lines() {
        let mut parts = row.split(" > ");
        let scheme = scheme(alloc, parts.next().unwrap_or(""))?;
        let plan = plan(alloc, &scheme, parts.next().unwrap_or(""))?;
        let got = summed(alloc, &scheme, &plan);
        assert!(rt; is_said(got, parts.next().unwrap_or(""))?, "{row}");
    }
    Ok(())
}
