//! The fractions of plan texts, and the printed form.

ghost use Rattle.std.specs.Prelude.{◌≡◌, ◌≤◌, ◌<◌, ◌^◌, ◌++◌, OnOk, OnErr, IfSome};
ghost use Rattle.std.specs.Option.{SomeIff};
ghost use Rattle.np_frac.specs.Fits.{Fits};
ghost use Rattle.np_frac.specs.Text.{minus_sign, printed, IsFraction, fraction_of, IsFractionEnd, fraction_lower as lower_of};

use crate::digits::{read_part, split_at_mark, with_sign, without_minus};
use crate::frac::Frac;
use crate::memory::Memory;
use itoa::Buffer;

/// Room for a printed form: two numbers of at most 40 bytes, as `itoa` prints them, and the stroke between them.
const LONGEST: usize = 81;

/// The sign before the digits of a text: `-` where the value is below 0, and nothing else.
pub fn minus_sign(value: Frac) -> &'static [u8]
    ensures { result.now ≡ minus_sign value.num }
{
    if value.num() < 0 { b"-" } else { b"" }
}

/// Appends the printed form: the numerator of the lowest terms, with `-` where it is below 0, and `/` and the
/// denominator where that is not 1. After [`Memory`] the text is as it was.
///
/// Each part is at most 2^127 - 1 in size, so [`read_frac`] reads the printed form back (`laws::printed_forms`).
pub fn write_frac(value: Frac, out: &mut Vec<u8>) -> Result<(), Memory>
    ensures ok { OnOk result (out.new.items ≡ out.old.items ++ printed value) }
    ensures fits { OnOk result (Fits value) }
    ensures err { OnErr result (out.new.items ≡ out.old.items) }
{
    // All the memory is taken first, so that a refusal comes before the first byte.
    out.reserve(LONGEST)?;
    let mut buffer = Buffer::new();
    out.extend_from_slice(buffer.format(value.num()).as_bytes())
        .unwrap();
    if value.den() != 1 {
        out.extend_from_slice(b"/").unwrap();
        out.extend_from_slice(buffer.format(value.den()).as_bytes())
            .unwrap();
    }
    Ok(())
}

/// The lower part of a fraction, from what stands behind its upper part: 1 where nothing does.
fn fraction_lower(end: &[u8]) -> Option<u128>
    ensures value { SomeIff result (IsFractionEnd end.now) (lower_of end.now) }
    ensures some { IfSome result (λ lower. 0 < lower) }
    ensures fits { IfSome result (λ lower. lower < 2 ^ 127) }
{
    let Some((mark, digits)) = end.split_first() else {
        return Some(1);
    };
    if *mark != b'/' {
        return None;
    }
    match read_part(digits) {
        Some(lower) if lower != 0 => Some(lower),
        _ => None,
    }
}

/// The value of the text of a fraction: an optional `-`, 1 to 39 digits, and then nothing, or `/` and 1 to 39 digits.
/// Each part is at most 2^127 - 1 and the lower one is not 0; they need not be in lowest terms, and may have leading
/// zeros. `None` for all other bytes.
pub fn read_frac(bytes: &[u8]) -> Option<Frac>
    ensures { SomeIff result (IsFraction bytes.now) (fraction_of bytes.now) }
{
    let (upper, end) = split_at_mark(without_minus(bytes));
    let upper = read_part(upper)?;
    let lower = fraction_lower(end)?;
    Some(Frac::from_parts(with_sign(bytes, upper), lower))
}
