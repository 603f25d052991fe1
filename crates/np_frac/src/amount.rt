//! The amounts of network texts.

ghost use Rattle.std.specs.Prelude.{◌≡◌, ◌<◌, ◌^◌, IfSome, IsTrue};
ghost use Rattle.std.specs.Option.{SomeIff};
ghost use Rattle.np_frac.specs.Amount.{IsAmount, amount_of, IsAmountEnd, amount_upper, amount_lower, is_amount};

use crate::digits::{read_number, split_at_mark, with_sign, without_minus};
use crate::frac::Frac;

// What the size of a short amount's numerator is below.
const SHORT_NUM: u128 = 1_000_000_000_000_000_000;

// What a short amount's denominator is below.
const SHORT_DEN: u128 = 10_000_000_000_000_000_000;

// What a decimal's denominator divides.
const BILLION: u128 = 1_000_000_000;

/// The upper and the lower number of an amount, from its whole number and what stands behind that.
fn amount_parts(whole: u64, end: &[u8]) -> Option<(u128, u128)>
    requires { whole < 10 ^ 18 }
    ensures value { SomeIff result (IsAmountEnd end.now) (amount_upper whole end.now, amount_lower end.now) }
    ensures upper_fits { IfSome result (λ parts. parts.0 < 2 ^ 127) }
    ensures lower_fits { IfSome result (λ parts. parts.1 < 2 ^ 127) }
    ensures some { IfSome result (λ parts. 0 < parts.1) }
{
    let Some((mark, digits)) = end.split_first() else {
        return Some((u128::from(whole), 1));
    };
    if *mark == b'.' {
        let decimals = read_number(digits, 9)?;
        let scale = 10u64.pow(digits.len() as u32);
        let upper = u128::from(whole) * u128::from(scale) + u128::from(decimals);
        return Some((upper, u128::from(scale)));
    }
    match read_number(digits, 19) {
        Some(lower) if lower != 0 => Some((u128::from(whole), u128::from(lower))),
        _ => None,
    }
}

/// The value of the text of an amount: an optional `-`, 1 to 18 digits, and then nothing, or `.` and 1 to 9 digits, or
/// `/` and 1 to 19 digits that are not all zero. Leading zeros are allowed. `None` for all other bytes.
pub fn read_amount(bytes: &[u8]) -> Option<Frac>
    ensures value { SomeIff result (IsAmount bytes.now) (amount_of bytes.now) }
    ensures amount { IfSome result (λ f. IsTrue (is_amount f)) }
{
    let (whole, end) = split_at_mark(without_minus(bytes));
    let (upper, lower) = amount_parts(read_number(whole, 18)?, end)?;
    Some(Frac::from_parts(with_sign(bytes, upper), lower))
}

impl Frac {
    /// Whether it is the value of some amount: in lowest terms the numerator has at most 18 digits and the denominator at
    /// most 19, or it is a whole number of billionths below 10^18 in size.
    #[tactic(auto, unfolding(crate::specs::Amount::is_amount))]
    pub fn is_amount(self) -> bool
        ensures { result ≡ is_amount self }
    {
        let (size, den) = (self.num().unsigned_abs(), self.den() as u128);
        if size < SHORT_NUM && den < SHORT_DEN {
            return true;
        }
        BILLION % den == 0 && size < SHORT_NUM * den
    }
}
