//! The texts of amounts.

ghost use Rattle.std.specs.Prelude.{◌≡◌, ◌<◌, ◌^◌, ◌++◌, true, OnOk, OnErr};
ghost use Rattle.np_frac.specs.Amount.{is_amount, is_short, is_decimal};
ghost use Rattle.net_csv.specs.AmountText.{billionths, decimal_form, amount_text};

use itoa::Buffer;
use np_frac::{Frac, Memory, minus_sign, write_frac};

const BILLION: u128 = 1_000_000_000;

// Room for a decimal form: the sign, the point, and two numbers of at most 40 bytes, as `itoa` prints them.
const LONGEST: usize = 82;

// Whether the printed form has at most 18 digits above its stroke and at most 19 below it.
fn is_short(value: Frac) -> bool
    ensures { result ≡ is_short value }
{
    value.num().unsigned_abs() < 1_000_000_000_000_000_000
        && value.den() < 10_000_000_000_000_000_000
}

// The size in billionths.
fn billionths(value: Frac) -> u128
    requires { is_decimal value ≡ true }
    ensures value { result ≡ billionths value }
    ensures few { result < 10 ^ 27 }
{
    value.num().unsigned_abs() * (BILLION / value.den().unsigned_abs())
}

// Appends the decimal form. After `Memory` the text is as it was.
fn write_decimals(value: Frac, out: &mut Vec<u8>) -> Result<(), Memory>
    requires { is_decimal value ≡ true }
    ensures ok { OnOk result (out.new.items ≡ out.old.items ++ decimal_form value) }
    ensures err { OnErr result (out.new.items ≡ out.old.items) }
{
    out.reserve(LONGEST)?;
    let size = billionths(value);
    let mut buffer = Buffer::new();
    out.extend_from_slice(minus_sign(value)).unwrap();
    out.extend_from_slice(buffer.format(size / BILLION).as_bytes())
        .unwrap();
    out.extend_from_slice(b".").unwrap();
    let ten = buffer.format(BILLION + size % BILLION).as_bytes();
    out.extend_from_slice(&ten[1..]).unwrap();
    Ok(())
}

/// Appends the text of an amount: its printed form where that is the text of an amount, and else its whole part, a
/// point and nine digits. After [`Memory`] the text is as it was.
pub(crate) fn write_amount(value: Frac, out: &mut Vec<u8>) -> Result<(), Memory>
    requires { is_amount value ≡ true }
    ensures ok { OnOk result (out.new.items ≡ out.old.items ++ amount_text value) }
    ensures err { OnErr result (out.new.items ≡ out.old.items) }
{
    if is_short(value) {
        return write_frac(value, out);
    }
    write_decimals(value, out)
}
