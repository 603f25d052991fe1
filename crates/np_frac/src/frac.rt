//! Fractions in lowest terms, and the exact operations on them.

ghost use Rattle.std.specs.Prelude.{◌≡◌, ◌≢◌, ◌*◌, ◌*ℤ◌, ◌≤ℤ◌, ◌↔◌, ◌⊎◌, IsNone, IfSome, IsTrue, pos, neg_ℤ, ◌<◌, ◌^◌, unsigned_abs};
ghost use Rattle.np_frac.specs.Ratio.{IsLowest, over_some, whole, negated, inverse, is_below, ◌+ᵣ◌, ◌*ᵣ◌};
ghost use Rattle.np_frac.specs.Fits.{Fit, Fits};
ghost use Rattle.np_frac.specs.Steps.Found.{IsFound, IsSumFound};
ghost use Rattle.np_frac.specs.Order.{ratio_cmp, ratio_eq};

use crate::divisor::{gcd, quotient, reduced, reduced_by_shared};
use crate::wide::{
    compare_products, compare_short_products, lower_within, product_within, sum_within,
};
use std::cmp::Ordering;
use std::marker::Model;

/// A fraction in lowest terms. The numerator is at most 2^127 - 1 in size, the denominator is at least 1 and at most
/// 2^127 - 1. In clauses a `Frac` is its ratio, and two are equal exactly where their ratios are.
#[derive(Clone, Copy, Debug, PartialEq, Eq)]
pub struct Frac {
    num: i128,
    den: u128,
    ghost lowest: { IsLowest num den },
}

impl Model for Frac {
    ghost use Rattle.np_frac.specs.Ratio.{Ratio, ratio_code};
    ghost use Rattle.np_frac.specs.Fits.{Fit};

    ghost Value = { Ratio };

    ghost coded = { ratio_code };

    ghost view = { λ f. record { num = f.num; den = f.den; lowest = f.lowest } };

    ghost invariant = { λ f. Fit f.num f.den };

    ghost inverse = { λ r. record { num = r.num; den = r.den; lowest = r.lowest } };
}

/// An operation on two fractions.
#[derive(Clone, Copy, Debug, PartialEq, Eq)]
pub enum Op {
    Plus,
    Minus,
    Times,
    Over,
}

impl Op {
    ghost use Rattle.np_frac.specs.Words.{op_word};

    /// Its word, as it is printed.
    #[tactic(auto, unfolding(crate::specs::Words::op_word))]
    pub fn word(self) -> &'static [u8]
        ensures { result.now ≡ op_word self }
    {
        match self {
            Op::Plus => b"plus",
            Op::Minus => b"minus",
            Op::Times => b"times",
            Op::Over => b"over",
        }
    }
}

/// An operation whose exact result does not fit, with its operands as they were given.
#[derive(Clone, Copy, Debug, PartialEq, Eq)]
pub struct Past {
    pub op: Op,
    pub left: Frac,
    pub right: Frac,
}

impl Frac {
    ghost use Rattle.np_frac.specs.Exact.{plus_of, minus_of, times_of, over_of};

    /// `num / den` in lowest terms. `None` exactly where `den` is not above 0 or `num` is the least `i128`.
    pub fn new(num: i128, den: i128) -> Option<Frac>
        ensures none { IsNone result ↔ ((den ≤ℤ pos 0) ⊎ (num ≡ i128.MIN)) }
        ensures value { IfSome result (λ f. f.num *ℤ den ≡ num *ℤ pos f.den) }
    {
        if den <= 0 || num == i128::MIN {
            return None;
        }
        Some(Frac::from_parts(num, den as u128))
    }

    /// `num / den`, which need not be in lowest terms.
    pub(crate) fn from_parts(num: i128, den: u128) -> Frac
        requires some { 0 < den }
        requires size { unsigned_abs num < 2 ^ 127 }
        requires fits { den < 2 ^ 127 }
        ensures value { result ≡ over_some num den }
        ensures cross { result.num *ℤ pos den ≡ num *ℤ pos result.den }
    {
        let (num, den) = reduced(num, den);
        Frac { num, den }
    }

    /// A whole number.
    pub fn whole(value: i64) -> Frac
        ensures { result ≡ whole value }
    {
        Frac {
            num: value as i128,
            den: 1,
        }
    }

    /// The numerator in lowest terms, which has the sign. Like the denominator it is at most 2^127 - 1 in size.
    pub fn num(self) -> i128
        ensures value { result ≡ self.num }
        ensures fits { Fits self }
    {
        self.num
    }

    /// The denominator in lowest terms, at least 1.
    pub fn den(self) -> i128
        ensures { result ≡ pos self.den }
    {
        self.den as i128
    }

    /// The opposite, which always fits.
    pub fn negated(self) -> Frac
        ensures { result ≡ negated self }
    {
        Frac {
            num: -self.num,
            den: self.den,
        }
    }

    /// A whole number of up to 127 bits.
    fn integer(num: i128) -> Frac
        requires { unsigned_abs num < 2 ^ 127 }
        ensures { result ≡ whole num }
    {
        Frac { num, den: 1 }
    }

    /// The product of whole numbers, which takes no divisor.
    fn whole_product(left: i128, right: i128) -> Option<Frac>
        ensures { IsFound result (whole left *ᵣ whole right) }
    {
        match product_within(left, right) {
            Some(num) => Some(Frac::integer(num)),
            None => None,
        }
    }

    /// The sum of whole numbers, which takes no divisor.
    fn whole_sum(left: i128, right: i128) -> Option<Frac>
        requires left_fits { unsigned_abs left < 2 ^ 127 }
        requires right_fits { unsigned_abs right < 2 ^ 127 }
        ensures { IsSumFound result (whole left) (whole right) }
    {
        match sum_within(left, right) {
            Some(num) => Some(Frac::integer(num)),
            None => None,
        }
    }

    /// The product, and `None` where it does not fit. Cancelled across first, since a product of parts may overflow where
    /// its lowest terms do not.
    fn product_of(self, other: Frac) -> Option<Frac>
        ensures { IsFound result (self *ᵣ other) }
    {
        if self.den == 1 && other.den == 1 {
            return Frac::whole_product(self.num, other.num);
        }
        let (left, lower_right) = reduced(self.num, other.den);
        let (right, lower_left) = reduced(other.num, self.den);
        let num = product_within(left, right)?;
        let den = lower_within(lower_left, lower_right)?;
        Some(Frac { num, den })
    }

    /// The sum, and `None` where the least common denominator, either numerator over it, or their sum does not fit.
    fn sum_of(self, other: Frac) -> Option<Frac>
        ensures { IsSumFound result self other }
    {
        if self.den == 1 && other.den == 1 {
            return Frac::whole_sum(self.num, other.num);
        }
        let shared = gcd(self.den, other.den);
        let left_by = quotient(other.den, shared);
        let right_by = quotient(self.den, shared);
        let common = lower_within(self.den, left_by)?;
        let left = product_within(self.num, left_by as i128)?;
        let right = product_within(other.num, right_by as i128)?;
        let sum = sum_within(left, right)?;
        if shared == 1 {
            // Over coprime denominators the sum is in lowest terms.
            return Some(Frac {
                num: sum,
                den: common,
            });
        }
        // What the sum has in common with the denominator, it has in common with what the denominators share.
        let (num, den) = reduced_by_shared(sum, common, shared);
        Some(Frac { num, den })
    }

    /// The exact product. [`Past`] exactly where its lowest terms do not fit.
    pub fn times(self, other: Frac) -> Result<Frac, Past>
        ensures { result ≡ times_of self other }
    {
        self.product_of(other).ok_or(Past {
            op: Op::Times,
            left: self,
            right: other,
        })
    }

    /// The exact sum. [`Past`] exactly where the least common denominator, either numerator over it, or the sum of these
    /// numerators does not fit.
    pub fn plus(self, other: Frac) -> Result<Frac, Past>
        ensures { result ≡ plus_of self other }
    {
        self.sum_of(other).ok_or(Past {
            op: Op::Plus,
            left: self,
            right: other,
        })
    }

    /// The exact difference. [`Past`] exactly where the least common denominator, either numerator over it, or the
    /// difference of these numerators does not fit.
    pub fn minus(self, other: Frac) -> Result<Frac, Past>
        ensures { result ≡ minus_of self other }
    {
        self.sum_of(other.negated()).ok_or(Past {
            op: Op::Minus,
            left: self,
            right: other,
        })
    }

    /// One over a fraction that is not 0.
    fn inverted(self) -> Frac
        requires { self.num ≢ pos 0 }
        ensures { result.num *ℤ self.num ≡ pos (result.den * self.den) }
    {
        let num = self.den as i128;
        let den = self.num.unsigned_abs();
        if self.num < 0 {
            return Frac { num: -num, den };
        }
        Frac { num, den }
    }

    /// The exact quotient by a fraction that is not 0. [`Past`] exactly where its lowest terms do not fit.
    pub fn over(self, other: Frac) -> Result<Frac, Past>
        requires { other.num ≢ pos 0 }
        ensures { result ≡ over_of self other }
    {
        self.product_of(other.inverted()).ok_or(Past {
            op: Op::Over,
            left: self,
            right: other,
        })
    }

    /// Whether it is below the other, exactly for any two fractions.
    pub fn is_below(self, other: Frac) -> bool
        ensures { result ≡ is_below self other }
    {
        self < other
    }

    /// Whether it is equal to the other.
    pub fn is_same(self, other: Frac) -> bool
        ensures test { result ≡ ratio_eq self other }
        ensures same { IsTrue result ↔ (self ≡ other) }
    {
        self == other
    }

    /// The parts, where each has 64 bits.
    fn short_parts(self) -> Option<(i64, i64)>
        ensures num { IfSome result (λ parts. parts.0 ≡ self.num) }
        ensures den { IfSome result (λ parts. parts.1 ≡ pos self.den) }
    {
        match (i64::try_from(self.num), i64::try_from(self.den)) {
            (Ok(num), Ok(den)) => Some((num, den)),
            _ => None,
        }
    }

    /// The exact order of any two fractions, by the sizes of their cross products.
    fn compare_long(self, other: Frac) -> Ordering
        ensures { result ≡ ratio_cmp self other }
    {
        let (left, right) = (self.num.unsigned_abs(), other.num.unsigned_abs());
        match (self.num < 0, other.num < 0) {
            (false, false) => compare_products(left, other.den, right, self.den),
            (false, true) => Ordering::Greater,
            (true, false) => Ordering::Less,
            (true, true) => compare_products(right, self.den, left, other.den),
        }
    }

    /// The exact order of any two fractions, though their cross products need 254 bits.
    pub fn compare(self, other: Frac) -> Ordering
        ensures { result ≡ ratio_cmp self other }
    {
        match (self.short_parts(), other.short_parts()) {
            (Some(left), Some(right)) => {
                compare_short_products(left.0, right.1, right.0, left.1)
            }
            _ => self.compare_long(other),
        }
    }
}

impl Ord for Frac {
    ghost use Rattle.std.specs.Prelude.{refl};
    ghost use Rattle.np_frac.specs.Order.{ratio_cmp, ratio_cmp_total, ratio_matches};

    ghost cmp = { ratio_cmp };

    ghost total = { ratio_cmp_total };

    ghost matches_partial_cmp = { λ x y. refl };

    ghost matches_eq = { ratio_matches };

    fn cmp(&self, other: &Frac) -> Ordering {
        self.compare(*other)
    }
}

impl PartialOrd for Frac {
    ghost use Rattle.std.specs.Cmp.{po};
    ghost use Rattle.std.specs.Ordering.{as_partial_cmp};
    ghost use Rattle.np_frac.specs.Order.{ratio_cmp, ratio_cmp_total, ratio_matches};

    ghost partial_cmp = { as_partial_cmp ratio_cmp };

    ghost laws = { po ratio_cmp_total ratio_matches };

    fn partial_cmp(&self, other: &Frac) -> Option<Ordering> {
        Some(self.compare(*other))
    }
}
