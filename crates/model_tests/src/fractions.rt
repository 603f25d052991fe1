//! Tests of fractions: how one is made, exact results, and what does not fit.

use np_frac::{Frac, Op, Past};
use std::cmp::Ordering;
use std::test::Fail;

const MOST: i128 = i128::MAX;

fn frac(num: i128, den: i128) -> Result<Frac, Fail> {
    Ok(Frac::new(num, den).ok_or("not a fraction")?)
}

/// The quotient, where the divisor is not 0 and it fits.
fn quotient(left: Frac, right: Frac) -> Option<Frac> {
    if right.num() == 0 {
        return None;
    }
    left.over(right).ok()
}

#[test]
fn made(rt: HostRuntime) -> Result<(), Fail> {
    assert!(rt; Frac::new(4, -2).is_none());
    assert!(rt; Frac::new(1, 0).is_none());
    assert!(rt; Frac::new(i128::MIN, 1).is_none());
    assert!(rt; Frac::new(-MOST, MOST) == Some(Frac::whole(-1)));
    assert!(rt; frac(0, 7)? == Frac::whole(0));
    let reduced = frac(-6, 4)?;
    assert!(rt; reduced.num() == -3 && reduced.den() == 2);
    assert!(rt; reduced.is_same(frac(-9, 6)?));
    assert!(rt; reduced.negated() == frac(3, 2)?);
    Ok(())
}

#[test]
fn exact_results(rt: HostRuntime) -> Result<(), Fail> {
    let (half, third) = (frac(1, 2)?, frac(1, 3)?);
    assert!(rt; half.plus(third) == Ok(frac(5, 6)?));
    assert!(rt; half.minus(third) == Ok(frac(1, 6)?));
    assert!(rt; half.times(third) == Ok(frac(1, 6)?));
    assert!(rt; quotient(half, third.negated()) == Some(frac(-3, 2)?));
    assert!(rt; quotient(half, Frac::whole(0)).is_none());
    assert!(rt; Frac::whole(7).plus(Frac::whole(-9)) == Ok(Frac::whole(-2)));
    assert!(rt; Frac::whole(7).times(Frac::whole(-9)) == Ok(Frac::whole(-63)));
    assert!(rt; third.is_below(half) && !half.is_below(third));
    Ok(())
}

#[test]
fn edges(rt: HostRuntime) -> Result<(), Fail> {
    let (most, one, half) = (frac(MOST, 1)?, Frac::whole(1), frac(1, 2)?);
    let past = Past {
        op: Op::Plus,
        left: most,
        right: one,
    };
    assert!(rt; most.plus(one) == Err(past));
    assert!(rt; most.minus(one) == Ok(frac(MOST - 1, 1)?));
    // The sum of the numerators overflows before it is reduced.
    let half_most = frac(MOST, 2)?;
    assert!(rt; half_most.plus(half_most).is_err());
    // The product fits once it is cancelled across.
    assert!(rt; most.times(half) == Ok(half_most));
    assert!(rt; half_most.times(frac(2, MOST)?) == Ok(one));
    assert!(rt; most.times(Frac::whole(2)).is_err());
    assert!(rt; quotient(half_most, most) == Some(half));
    assert!(rt; quotient(most, half).is_none());
    // The cross products need 254 bits.
    let (low, high) = (frac(MOST, MOST - 1)?, frac(MOST - 1, MOST - 2)?);
    assert!(rt; low.compare(high) == Ordering::Less);
    assert!(rt; low.negated().compare(high.negated()) == Ordering::Greater);
    assert!(rt; low.compare(low) == Ordering::Equal);
    Ok(())
}
