//! The laws of ratios: a commutative field with a total order, sums of lists, what the exact operations answer, and
//! what the texts write.
//! Each function does nothing, and its clauses are the laws.

ghost use Rattle.std.specs.Prelude.{◌≡◌, ◌≢◌, ℕ, ◌*◌, ◌<◌, ◌^◌, pos, ℤ, unsigned_abs, ◌+ℤ◌, ◌*ℤ◌, ◌≤ℤ◌, ◌<ℤ◌, ◌↔◌, ◌⊎◌, Bool, false, IsTrue, List, ◌∷◌, ◌++◌, set, slice_get, filter, All, Some, Ok};
ghost use Rattle.np_frac.specs.Ratio.{Ratio, zero_ratio, one_ratio, whole, negated, inverse, is_below, total, product, ◌+ᵣ◌, ◌-ᵣ◌, ◌*ᵣ◌, ◌≤ᵣ◌, ◌<ᵣ◌};
ghost use Rattle.np_frac.specs.Lcm.{IsLcm, lcm};
ghost use Rattle.np_frac.specs.Fits.{Fits, fits};
ghost use Rattle.np_frac.specs.Text.{printed, IsNumber, is_number, IsFraction, is_fraction_text, fraction_of};
ghost use Rattle.np_frac.specs.Amount.{IsAmount, is_amount_text, amount_of, is_amount, HasAmountText};
ghost use Rattle.np_frac.specs.Exact.{plus_of, minus_of, times_of, over_of};

/// Two ratios are equal where their cross products are.
pub fn equality()
    ensures { (a b : Ratio) → (a ≡ b) ↔ (a.num *ℤ pos b.den ≡ b.num *ℤ pos a.den) }
{}

/// Sums go by cross products, in any order and grouping, with 0 and opposites.
pub fn sums()
    ensures cross { (a b r : Ratio) → (r ≡ a +ᵣ b) ↔ (r.num *ℤ pos (a.den * b.den) ≡ (a.num *ℤ pos b.den +ℤ b.num *ℤ pos a.den) *ℤ pos r.den) }
    ensures commutes { (a b : Ratio) → a +ᵣ b ≡ b +ᵣ a }
    ensures associates { (a b c : Ratio) → (a +ᵣ b) +ᵣ c ≡ a +ᵣ (b +ᵣ c) }
    ensures zero { (a : Ratio) → a +ᵣ zero_ratio ≡ a }
    ensures opposite { (a : Ratio) → a +ᵣ negated a ≡ zero_ratio }
{}

/// Products go by cross products, in any order and grouping, and spread over sums.
pub fn products()
    ensures cross { (a b r : Ratio) → (r ≡ a *ᵣ b) ↔ (r.num *ℤ pos (a.den * b.den) ≡ (a.num *ℤ b.num) *ℤ pos r.den) }
    ensures commutes { (a b : Ratio) → a *ᵣ b ≡ b *ᵣ a }
    ensures associates { (a b c : Ratio) → (a *ᵣ b) *ᵣ c ≡ a *ᵣ (b *ᵣ c) }
    ensures distributes { (a b c : Ratio) → a *ᵣ (b +ᵣ c) ≡ a *ᵣ b +ᵣ a *ᵣ c }
    ensures one { (a : Ratio) → a *ᵣ one_ratio ≡ a }
    ensures zero { (a : Ratio) → a *ᵣ zero_ratio ≡ zero_ratio }
    ensures negated { (a b : Ratio) → negated a *ᵣ b ≡ negated (a *ᵣ b) }
{}

/// A ratio that is not 0 has an inverse, and a quotient times the divisor is the dividend.
pub fn quotients()
    ensures apart { one_ratio ≢ zero_ratio }
    ensures inverse { (a : Ratio) → a ≢ zero_ratio → a *ᵣ inverse a ≡ one_ratio }
    ensures quotient { (a b : Ratio) → b ≢ zero_ratio → (a *ᵣ inverse b) *ᵣ b ≡ a }
{}

/// The order goes by cross products and is total.
pub fn order()
    ensures cross { (a b : Ratio) → (a ≤ᵣ b) ↔ ((a.num *ℤ pos b.den) ≤ℤ (b.num *ℤ pos a.den)) }
    ensures below_cross { (a b : Ratio) → (a <ᵣ b) ↔ ((a.num *ℤ pos b.den) <ℤ (b.num *ℤ pos a.den)) }
    ensures tested { (a b : Ratio) → IsTrue (is_below a b) ↔ (a <ᵣ b) }
    ensures reflexive { (a : Ratio) → a ≤ᵣ a }
    ensures transitive { (a b c : Ratio) → a ≤ᵣ b → b ≤ᵣ c → a ≤ᵣ c }
    ensures antisymmetric { (a b : Ratio) → a ≤ᵣ b → b ≤ᵣ a → a ≡ b }
    ensures total { (a b : Ratio) → (a <ᵣ b) ⊎ (b ≤ᵣ a) }
    ensures weaker { (a b : Ratio) → a <ᵣ b → a ≤ᵣ b }
    ensures exclusive { (a b : Ratio) → a <ᵣ b → ¬ (b ≤ᵣ a) }
{}

/// Sums keep the order, and so do products with a ratio that is not negative.
pub fn order_of_results()
    ensures sum { (a b c d : Ratio) → a ≤ᵣ b → c ≤ᵣ d → a +ᵣ c ≤ᵣ b +ᵣ d }
    ensures product { (a b c : Ratio) → zero_ratio ≤ᵣ c → a ≤ᵣ b → c *ᵣ a ≤ᵣ c *ᵣ b }
    ensures turned { (a b c : Ratio) → c ≤ᵣ zero_ratio → a ≤ᵣ b → c *ᵣ b ≤ᵣ c *ᵣ a }
    ensures above { (a b : Ratio) → zero_ratio <ᵣ a → zero_ratio <ᵣ b → zero_ratio <ᵣ a *ᵣ b }
    ensures inverse_above { (a : Ratio) → zero_ratio <ᵣ a → zero_ratio <ᵣ inverse a }
{}

/// A sum along a list is split at its terms, takes a factor in, and keeps equality and order.
pub fn sums_of_lists<A>()
    ensures zero { (xs : List A) → total (λ x. zero_ratio) xs ≡ zero_ratio }
    ensures split { (f g : A → Ratio) (xs : List A) → total (λ x. f x +ᵣ g x) xs ≡ total f xs +ᵣ total g xs }
    ensures factor { (f : A → Ratio) (c : Ratio) (xs : List A) → c *ᵣ total f xs ≡ total (λ x. c *ᵣ f x) xs }
    ensures same { (f g : A → Ratio) (xs : List A) → All (λ x. f x ≡ g x) xs → total f xs ≡ total g xs }
    ensures at_most { (f g : A → Ratio) (xs : List A) → All (λ x. f x ≤ᵣ g x) xs → total f xs ≤ᵣ total g xs }
    ensures joined { (f : A → Ratio) (xs ys : List A) → total f (xs ++ ys) ≡ total f xs +ᵣ total f ys }

    // Where the terms that are left out are 0, a part has the sum of the whole.
    ensures part { (f : A → Ratio) (keep : A → Bool) (xs : List A) → All (λ x. keep x ≡ false → f x ≡ zero_ratio) xs → total f (filter keep xs) ≡ total f xs }

    // One place changed takes its term out and puts the new one in.
    ensures changed { (f : A → Ratio) (xs : List A) (i : ℕ) (x y : A) → slice_get xs i ≡ Some x → total f (set xs i y) +ᵣ f x ≡ total f xs +ᵣ f y }
{}

/// A product along a list is taken from either end, and that of joined lists is the product of theirs.
pub fn products_of_lists<A>()
    ensures more { (f : A → Ratio) (x : A) (xs : List A) → product f (x ∷ xs) ≡ f x *ᵣ product f xs }
    ensures joined { (f : A → Ratio) (xs ys : List A) → product f (xs ++ ys) ≡ product f xs *ᵣ product f ys }
{}

/// A double sum may be taken in either order. So the potentials at the ends of all arcs, times the amounts of the
/// arcs, are the potentials times the balances: `k` is the coefficient of an arc at a node.
pub fn double_sums<A, N>()
    ensures swap { (f : A → N → Ratio) (xs : List A) (ys : List N) → total (λ x. total (λ y. f x y) ys) xs ≡ total (λ y. total (λ x. f x y) xs) ys }
    ensures exchange { (q : A → Ratio) (k : A → N → Ratio) (p : N → Ratio) (xs : List A) (nodes : List N) → total (λ x. total (λ n. k x n *ᵣ p n) nodes *ᵣ q x) xs ≡ total (λ n. p n *ᵣ total (λ x. k x n *ᵣ q x) xs) nodes }
{}

/// `lcm` is the least common multiple.
pub fn least_common_multiple()
    ensures { (b d : ℕ) → 0 < b → 0 < d → IsLcm b d (lcm b d) }
{}

/// What the exact operations answer is the exact ratio, and it fits.
pub fn exact_answers()
    ensures plus { (a b r : Ratio) → plus_of a b ≡ Ok r → r ≡ a +ᵣ b }
    ensures minus { (a b r : Ratio) → minus_of a b ≡ Ok r → r ≡ a -ᵣ b }
    ensures times { (a b r : Ratio) → times_of a b ≡ Ok r → r ≡ a *ᵣ b }
    ensures over { (a b r : Ratio) → over_of a b ≡ Ok r → r ≡ a *ᵣ inverse b }
    ensures plus_fits { (a b r : Ratio) → plus_of a b ≡ Ok r → Fits r }
    ensures minus_fits { (a b r : Ratio) → minus_of a b ≡ Ok r → Fits r }
    ensures times_fits { (a b r : Ratio) → times_of a b ≡ Ok r → Fits r }
    ensures over_fits { (a b r : Ratio) → over_of a b ≡ Ok r → Fits r }
    ensures fits { (r : Ratio) → IsTrue (fits r) ↔ Fits r }
{}

/// The printed form of a fraction is the text of a fraction, and reading it gives the fraction back.
pub fn printed_forms()
    ensures fraction { (r : Ratio) → Fits r → IsFraction (printed r) }
    ensures value { (r : Ratio) → Fits r → fraction_of (printed r) ≡ r }
{}

/// The tests of texts hold of exactly these texts: numbers of at most so many digits, amounts, and fractions.
pub fn tested_texts()
    ensures number { (most : ℕ) (bs : List ℕ) → IsTrue (is_number most bs) ↔ IsNumber most bs }
    ensures amount { (bs : List ℕ) → IsTrue (is_amount_text bs) ↔ IsAmount bs }
    ensures fraction { (bs : List ℕ) → IsTrue (is_fraction_text bs) ↔ IsFraction bs }
{}

/// The ratios that network texts write are exactly those that `is_amount` tests for, and the whole numbers of at most
/// 18 digits are among them.
pub fn amounts()
    ensures value { (bs : List ℕ) → IsAmount bs → IsTrue (is_amount (amount_of bs)) }
    ensures text { (r : Ratio) → IsTrue (is_amount r) → HasAmountText r }
    ensures whole { (z : ℤ) → unsigned_abs z < 10 ^ 18 → IsTrue (is_amount (whole z)) }
{}
