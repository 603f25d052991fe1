//! Laws of network texts, each as the clause of a function that does nothing.

ghost use Rattle.std.specs.Prelude.{◌≡◌, ◌≢◌, ◌≤◌, ◌<◌, ◌^◌, ◌++◌, [], ℕ, List, All, Ok, length};
ghost use Rattle.np_model.specs.declared.scheme.Scheme.{Scheme};
ghost use Rattle.net_csv.specs.declared.refused.Tail.{Tail};
ghost use Rattle.net_csv.specs.declared.refused.Tail.TheVariants as tail;
ghost use Rattle.net_csv.specs.Grammar.{IsSchemeOf, StandsForAScheme, read_records};
ghost use Rattle.np_records.specs.Records.{records_of};
ghost use Rattle.np_records.specs.Texts.{records_text};
ghost use Rattle.net_csv.specs.Writing.{rows_of};

/// The records that are written for a scheme are read up to their last one, and they are the records of that scheme.
pub fn written_schemes_are_read()
    // Nothing stands behind them.
    ensures whole { (tail : Tail) (scheme : Scheme) → read_records tail (rows_of scheme) ≡ Ok (length (rows_of scheme)) }
    ensures same { (scheme : Scheme) → IsSchemeOf (rows_of scheme) scheme }

    // With the records of a plan, or any others, behind them.
    ensures followed { (scheme : Scheme) (after : List (List (List ℕ)))
        → (read_records tail.Plan (rows_of scheme ++ after) ≡ Ok (length (rows_of scheme)))
        × IsSchemeOf (rows_of scheme ++ after) scheme }

    // Their bytes are read as these records, with any others behind them that have a field each.
    ensures bytes { (scheme : Scheme) (after : List (List (List ℕ))) → All (λ fields. fields ≢ []) after
        → records_of (records_text (rows_of scheme ++ after)) ≡ rows_of scheme ++ after }
{}

/// A text without a fault stands for a scheme: of fewer than 2^32 records, each that is wrong for a scheme has a fault.
pub fn texts_stand_for_schemes()
    ensures { (tail : Tail) (rows : List (List (List ℕ))) (count : ℕ)
        → length rows < 2 ^ 32 → read_records tail rows ≡ Ok count → StandsForAScheme rows }
{}

/// Records are those of at most one scheme.
pub fn one_scheme()
    ensures { (rows : List (List (List ℕ))) (first second : Scheme) → IsSchemeOf rows first → IsSchemeOf rows second → first ≡ second }
{}

/// The records that were read are among those of the text.
pub fn records_are_there()
    ensures { (tail : Tail) (rows : List (List (List ℕ))) (count : ℕ) → read_records tail rows ≡ Ok count → count ≤ length rows }
{}
