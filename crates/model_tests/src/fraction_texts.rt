//! Tests of the texts of fractions and of amounts.

use np_frac::{Frac, read_amount, read_frac, write_frac};
use std::alloc::Global;
use std::test::Fail;

// A text of a fraction, and the one that is printed.
const FRACTIONS: &str = "-0 0
007/21 1/3
-6/4 -3/2
-12 -12
4/2 2
1/100000000000000000000000000000000000000 1/100000000000000000000000000000000000000
170141183460469231731687303715884105727 170141183460469231731687303715884105727
-170141183460469231731687303715884105727/00000000000000000000000000000000000006 -170141183460469231731687303715884105727/6";

// What is printed of a fraction behind two bytes.
fn printed(alloc: Global, value: Frac) -> Result<Vec<u8>, Fail> {
    let mut out = Vec::from_slice(alloc, b"x ")?;
    match write_frac(value, &mut out) {
        Ok(()) => Ok(out),
        Err(_) => Err(Fail::from("memory")),
    }
}

fn fraction(text: &str) -> Option<Frac> {
    read_frac(text.as_bytes())
}

#[test]
fn read_and_written(rt: HostRuntime) -> Result<(), Fail> {
    for row in FRACTIONS.lines() {
        let (text, want) = row.split_once(' ').ok_or("no row")?;
        let value = fraction(text).ok_or("not a fraction")?;
        let mut whole = Vec::from_slice(rt.alloc(), b"x ")?;
        whole.extend_from_slice(want.as_bytes())?;
        assert!(rt; printed(rt.alloc(), value)? == whole, "{row}");
        assert!(rt; fraction(want) == Some(value), "{row}");
    }
    Ok(())
}

// No fractions, with a '|' between two.
const NO_FRACTIONS: &str =
    "|-|+1|--1|1/|/2|1/0|1/-2|1.5|1 |1/2/3|170141183460469231731687303715884105728|\
1/170141183460469231731687303715884105728|0000000000000000000000000000000000000001";

#[test]
fn no_fractions(rt: HostRuntime) -> Result<(), Fail> {
    for text in NO_FRACTIONS.split('|') {
        assert!(rt; fraction(text).is_none(), "{text}");
    }
    Ok(())
}

// The text of an amount, and its numerator and denominator.
const AMOUNTS: &str = "12.50 25 2
-0 0 1
7/21 1 3
-0.000000001 -1 1000000000
000000000000000012 12 1
999999999999999999 999999999999999999 1
-1/9999999999999999999 -1 9999999999999999999
123456789012345678.123456789 123456789012345678123456789 1000000000";

fn amount(text: &str) -> Option<Frac> {
    read_amount(text.as_bytes())
}

// The fraction of a numerator and a denominator.
fn ratio(text: &str) -> Result<Option<Frac>, Fail> {
    let (num, den) = text.split_once(' ').ok_or("no ratio")?;
    Ok(Frac::new(num.parse::<i128>()?, den.parse::<i128>()?))
}

#[test]
fn amounts(rt: HostRuntime) -> Result<(), Fail> {
    for row in AMOUNTS.lines() {
        let (text, parts) = row.split_once(' ').ok_or("no row")?;
        let value = amount(text).ok_or("not an amount")?;
        assert!(rt; ratio(parts)? == Some(value), "{row}");
    }
    Ok(())
}

// No amounts, with a '|' between two.
const NO_AMOUNTS: &str =
    "|-|1.|.5|+1|1/0|1/|1.2/3|1.0000000000|0000000000000000001|1/00000000000000000001|1e3";

#[test]
fn no_amounts(rt: HostRuntime) -> Result<(), Fail> {
    for text in NO_AMOUNTS.split('|') {
        assert!(rt; amount(text).is_none(), "{text}");
    }
    Ok(())
}
