//! Operations whose exact results do not fit 128 bits: a network or a plan for each row of arithmetic, which overflows there and nowhere before.
//!
//! The texts were worked in plain Python. Two places have no row: at the turn A3 never overflows, since the products round a cycle do not depend on
//! the costs and were made when the cycle came into the basis; and `check` makes no operation of C0.

use crate::fixtures::told;
use std::test::Fail;

// Inputs of `solve` with one worker, and the text, in each line: A1 twice, A2 by each of its operations, A3, A4, A5, A6, A7, A7 at the turn, and A8 by
// each row of the checker.
const SOLVED: &str =
    "netplan,1 | periods,1 | node,A | node,B | supply,B,1,1/999999999999999999 | arc,u,A,B,1/100000000000000000,1/100000000000000000,inf,0 | end > netplan-plan,1 | verdict,overflow | past,A1,1,plus,1/999999999999999999,1/10000000000000000000000000000000000 | end
netplan,1 | periods,1 | node,A | supply,A,1,1/999999999999999999 | feed,f,A,1/999999999999999998,inf,0 | drain,z,A,1/999999999999999997,inf,0 | end > netplan-plan,1 | verdict,overflow | past,A1,0,minus,1999999999999999997/999999999999999997000000000000000002,1/999999999999999997 | end
netplan,1 | periods,1 | node,A | node,B | feed,f,A,0,inf,1/1000000000000000000 | arc,u,B,A,999999999999999999,0,inf,-1/999999999999999998 | end > netplan-plan,1 | verdict,overflow | past,A2,0,plus,1/1000000000000000000,1/999999999999999997000000000000000002 | turned,0 | pivot,1,1,2,upper | end
netplan,1 | periods,1 | node,A | node,B | drain,z,A,0,inf,1/999999999999999997 | arc,u,B,A,1/999999999999999998,0,inf,-999999999999999998/999999999999999999 | end > netplan-plan,1 | verdict,overflow | past,A2,0,minus,1/999999999999999997,999999999999999996000000000000000004/999999999999999999 | turned,0 | pivot,1,1,2,upper | end
netplan,1 | periods,1 | node,A | node,B | arc,u,A,B,1/999999999999999998,0,2,2 | arc,v,A,B,1/1000000000,0,inf,0 | arc,w,B,A,2,0,inf,-1/999999999999999999 | end > netplan-plan,1 | verdict,overflow | past,A2,0,times,1/999999999999999998,-500000000/499999998999999999500000001 | turned,0 | pivot,1,2,3,upper | pivot,2,1,4,lower | end
netplan,1 | periods,1 | node,A | node,B | node,C | node,D | supply,C,1,-1 | arc,u,D,B,10000000000000,0,inf,1 | arc,v,A,C,10000000000000,0,inf,0 | arc,w,C,D,10000000000000,0,1,0 | arc,x,B,A,1/1000000000000000,0,inf,-1 | end > netplan-plan,1 | verdict,overflow | past,A3,2,over,1/100000000000000000000000000,10000000000000 | pivot,1,1,4,lower | pivot,2,3,5,lower | pivot,3,0,7,lower | end
netplan,1 | periods,1 | node,A | node,B | node,C | node,D | supply,D,1,-1 | arc,u,D,B,10000000000000,0,inf,0 | arc,v,B,A,10000000000000,0,inf,0 | arc,w,C,D,10000000000000,0,1,-1 | arc,x,A,C,1/1000000000000000000,0,inf,0 | end > netplan-plan,1 | verdict,overflow | past,A3,0,times,10000000000000,100000000000000000000000000 | pivot,1,2,6,lower | pivot,2,3,4,lower | pivot,3,1,5,lower | end
netplan,1 | periods,1 | node,A | node,B | supply,A,1,2 | supply,B,1,-2 | arc,u,A,B,999999999999999998,0,inf,-1 | arc,v,A,B,1/1000000000000000000,1/999999999999999998,inf,0 | arc,w,A,B,1000000000,0,999999999999999999,-3 | end > netplan-plan,1 | verdict,overflow | past,A4,2,times,-999999999999999998000000000000000000,-999999999999999999999999999/999999999999999997999999999999999999 | turned,2 | pivot,1,1,3,lower | pivot,2,0,4,lower | end
netplan,1 | periods,1 | node,A | node,B | supply,B,1,1/999999999999999999 | arc,u,B,A,2,1/999999999999999998,inf,-3 | arc,v,A,B,999999999999999998,0,inf,0 | end > netplan-plan,1 | verdict,overflow | past,A5,1,over,1/999999999999999997000000000000000002,999999999999999998 | end
netplan,1 | periods,1 | node,A | node,B | supply,B,1,1/999999999999999997 | arc,u,B,A,1/1000000000000000000,0,1/999999999999999997,3 | drain,z,A,-999999999999999999,inf,2 | end > netplan-plan,1 | verdict,overflow | past,A5,0,minus,1/999999999999999997000000000000000000,-999999999999999999 | turned,2 | pivot,1,1,2,lower | pivot,2,0,0,upper | end
netplan,1 | periods,1 | node,A | node,B | arc,u,A,B,1/1000000000000000000,0,1/999999999999999997,0 | arc,v,B,A,1/1000000000,999999999999999999,inf,1/2 | end > netplan-plan,1 | verdict,overflow | past,A6,0,plus,999999999999999999,-1/999999999999999997000000000000000000 | end
netplan,1 | periods,1 | node,A | node,B | supply,A,1,1/999999999999999998 | arc,u,A,B,1/999999999999999999,1/1000000000000000000,999999999999999998/999999999999999999,-2 | end > netplan-plan,1 | verdict,overflow | past,A6,0,times,1/499999999999999999000000000000000000,1/999999999999999999 | end
netplan,1 | periods,1 | node,A | node,B | arc,u,A,B,1/999999999999999998,0,1/9999999999999999999,-999999999999999999 | arc,v,B,A,1/999999999999999998,0,inf,1/999999999999999999 | end > netplan-plan,1 | verdict,overflow | past,A7,1,minus,999999999999999997000000000000000002,1/999999999999999999 | turned,0 | pivot,1,0,2,lower | end
netplan,1 | periods,1 | node,A | node,B | arc,u,B,A,2,0,inf,1/999999999999999997 | arc,v,A,B,1000000000,0,inf,-1/1000000000000000000 | end > netplan-plan,1 | verdict,overflow | past,A7,0,over,999999999000000000000000003/999999999999999997000000000000000000,-1999999999 | turned,0 | pivot,1,1,2,lower | end
netplan,1 | periods,1 | node,A | node,B | arc,u,B,A,1/1000000000,0,inf,-999999999999999999 | arc,v,A,B,1/999999999999999998,0,inf,-2 | end > netplan-plan,1 | verdict,overflow | past,A7,1,plus,-999999999999999999,-2999999999999999995/999999999999999997999999999 | turned,0 | pivot,1,0,2,upper | end
netplan,1 | periods,1 | node,A | node,B | supply,A,1,2 | arc,u,A,B,1/1000000000,1/999999999999999999,inf,1/1000000000000000000 | arc,v,B,A,1/1000000000000000000,0,inf,0 | end > netplan-plan,1 | verdict,overflow | past,A7,turn,minus,1000000000/999999999999999999999999999,1/1000000000000000000 | turned,2 | pivot,1,0,2,lower | pivot,2,1,3,lower | end
netplan,1 | periods,1 | node,A | node,B | supply,B,1,-1 | arc,u,A,B,999999999999999998,0,inf,-1/999999999999999998 | feed,f,A,0,1,1/1000000000000000000 | end > netplan-plan,1 | verdict,overflow | past,A7,turn,over,1/499999999999999999000000000000000000,999999999999999998 | turned,2 | pivot,1,0,2,lower | pivot,2,1,3,lower | end
netplan,1 | periods,1 | node,A | drain,z,A,0,1/999999999999999999,-9 | piece,z,1/999999999999999998,-8 | piece,z,1/999999999999999997,-7 | feed,f,A,0,1/999999999999999999,0 | feed,g,A,0,1/999999999999999998,0 | feed,h,A,0,1/999999999999999997,0 | end > netplan-plan,1 | verdict,overflow | past,A8,C0,plus,1999999999999999997/999999999999999997000000000000000002,1/999999999999999997 | turned,0 | pivot,1,0,6,lower | pivot,2,3,3,upper | pivot,3,4,0,upper | pivot,4,1,1,upper | pivot,5,2,4,upper | pivot,6,5,5,upper | end
netplan,1 | periods,1 | node,A | node,B | supply,A,1,-999999999999999999 | supply,B,1,-1/999999999999999997 | arc,u,A,B,3,0,inf,0 | arc,v,B,A,999999999999999998,0,inf,0 | drain,z,B,0,inf,1/1000000000000000000 | end > netplan-plan,1 | verdict,overflow | past,A8,C1,times,999999999999999998,2999999999999999988000000000000000010/2999999999999999984000000000000000021 | turned,2 | pivot,1,0,4,lower | pivot,2,1,3,lower | end
netplan,1 | periods,1 | node,A | drain,z,A,0,1/999999999999999999,0 | piece,z,1/999999999999999998,0 | piece,z,1/999999999999999997,0 | end > netplan-plan,1 | verdict,overflow | past,A8,C2,plus,1999999999999999997/999999999999999997000000000000000002,1/999999999999999997 | turned,0 | end
netplan,1 | periods,1 | node,A | node,B | supply,A,1,-1/999999999999999999 | arc,u,A,B,1/2,0,inf,999999999999999998/999999999999999999 | arc,v,B,A,999999999999999998,0,1/999999999999999998,999999999999999999 | end > netplan-plan,1 | verdict,overflow | past,A8,C3,times,999999999999999998,-999999999999999999999999999999999997/999999999999999995000000000000000004 | turned,2 | pivot,1,1,3,lower | pivot,2,0,2,lower | end
netplan,1 | periods,1 | node,A | supply,A,1,3 | drain,a,A,1,1,1/999999999999999999 | drain,b,A,1,1,1/999999999999999998 | drain,c,A,1,1,1/999999999999999997 | end > netplan-plan,1 | verdict,overflow | past,A8,C4,plus,1999999999999999997/999999999999999997000000000000000002,1/999999999999999997 | turned,0 | end
netplan,1 | periods,1 | node,A | node,B | supply,A,1,999999999999999999 | arc,u,A,B,1/999999999999999999,0,1/999999999999999997,1 | end > netplan-plan,1 | verdict,overflow | past,A8,C5,plus,999999999999999999,-999999999999999998/999999999999999996000000000000000003 | pivot,1,0,0,upper | end
netplan,1 | periods,1 | node,A | node,B | node,C | node,D | node,E | feed,a,A,0,inf,1/999999999999999999 | arc,b,B,C,1,0,inf,1/999999999999999998 | arc,c,D,E,1,0,inf,1/999999999999999997 | arc,d,A,B,1,0,inf,-1/999999999999999999 | arc,e,C,D,1,0,inf,-1/999999999999999998 | drain,f,E,0,inf,-2/999999999999999997 | end > netplan-plan,1 | verdict,overflow | past,A8,C6,plus,1999999999999999997/999999999999999997000000000000000002,1/999999999999999997 | turned,0 | pivot,1,3,6,lower | pivot,2,4,8,lower | pivot,3,5,10,lower | pivot,4,2,9,lower | pivot,5,1,7,lower | end";

// Inputs of `check`, and the text, in each line: C1 to C6.
const CHECKED: &str =
    "netplan,1 | periods,1 | node,A | drain,z,A,0,inf,1 | feed,f,A,0,inf,1 | end | netplan-plan,1 | verdict,optimal | cost,0 | flow,z,1,170141183460469231731687303715884105727 | flow,f,1,-1 | end > netplan-check,1 | past,C1,minus,170141183460469231731687303715884105727,-1 | end
netplan,1 | periods,1 | node,A | drain,z,A,0,1/999999999999999999,0 | piece,z,1/999999999999999998,0 | piece,z,1/999999999999999997,0 | end | netplan-plan,1 | verdict,optimal | cost,0 | end > netplan-check,1 | past,C2,plus,1999999999999999997/999999999999999997000000000000000002,1/999999999999999997 | end
netplan,1 | periods,1 | node,A | node,B | arc,u,A,B,3,0,inf,0 | end | netplan-plan,1 | verdict,optimal | cost,0 | price,B,1,170141183460469231731687303715884105727 | end > netplan-check,1 | past,C3,times,3,170141183460469231731687303715884105727 | end
netplan,1 | periods,1 | node,A | drain,z,A,0,inf,2 | feed,f,A,0,inf,-2 | end | netplan-plan,1 | verdict,optimal | cost,0 | flow,z,1,170141183460469231731687303715884105727 | flow,f,1,170141183460469231731687303715884105727 | price,A,1,2 | end > netplan-check,1 | past,C4,times,2,170141183460469231731687303715884105727 | end
netplan,1 | periods,1 | node,A | supply,A,1,2 | end | netplan-plan,1 | verdict,infeasible | gap,1 | price,A,1,170141183460469231731687303715884105727 | end > netplan-check,1 | past,C5,times,170141183460469231731687303715884105727,2 | end
netplan,1 | periods,1 | node,A | drain,z,A,0,inf,-2 | feed,f,A,0,inf,0 | end | netplan-plan,1 | verdict,unbounded | ray,z,1,170141183460469231731687303715884105727 | ray,f,1,170141183460469231731687303715884105727 | end > netplan-check,1 | past,C6,times,-2,170141183460469231731687303715884105727 | end";

#[test]
fn tells_the_row_of_a_run(rt: HostRuntime) -> Result<(), Fail> {
    for row in SOLVED.lines() {
        let mut parts = row.split(" > ");
        let told = told(
            &rt,
            rt.alloc(),
            "solve --workers 1",
            parts.next().unwrap_or(""),
        )?;
        assert!(rt;
            told.is(rt.alloc(), 4, parts.next().unwrap_or(""))?,
            "{row}"
        );
    }
    Ok(())
}

#[test]
fn tells_the_row_of_a_walk(rt: HostRuntime) -> Result<(), Fail> {
    for row in CHECKED.lines() {
        let mut parts = row.split(" > ");
        let told = told(&rt, rt.alloc(), "check", parts.next().unwrap_or(""))?;
        assert!(rt;
            told.is(rt.alloc(), 4, parts.next().unwrap_or(""))?,
            "{row}"
        );
    }
    Ok(())
}
