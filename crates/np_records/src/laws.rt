//! Laws of records, texts and names, each as the clause of a function that does nothing.

ghost use Rattle.std.specs.Prelude.{◌≡◌, ◌≢◌, ◌+◌, ◌*◌, ◌<◌, ◌≤◌, ◌++◌, ◌∷◌, [], ℕ, List, All, None, IsSome, false, get_or, length, map, option_map, slice_get};
ghost use Rattle.std.specs.List.{IsDistinct};
ghost use Rattle.std.specs.Option.{option_or};
ghost use Rattle.std.specs.Str.{bytes_eq};
ghost use Rattle.csv.specs.Reading.{strip_bom};
ghost use Rattle.csv.specs.Writing.{read_back};
ghost use Rattle.np_records.specs.Names.{place_of, place_in};
ghost use Rattle.np_records.specs.Records.{records_of};
ghost use Rattle.np_records.specs.Texts.{records_text};

/// A text has at most half as many records as bytes, rounded up.
pub fn records_are_few()
    ensures { (bytes : List ℕ) → 2 * length (records_of bytes) ≤ length bytes + 1 }
{}

/// Records that were written are read again.
pub fn written_records_are_read()
    // Any records whose text does not begin with a byte order mark. A record of no fields is read
    // as one empty field, and each other record as it is.
    ensures unmarked { (rows : List (List (List ℕ)))
        → strip_bom (records_text rows) ≡ records_text rows
        → records_of (records_text rows) ≡ map read_back rows }

    // Such are any records whose first field begins with an ASCII byte.
    ensures headed { (byte : ℕ) (name : List ℕ) (fields : List (List ℕ)) (rows : List (List (List ℕ)))
        → byte < 128
        → records_of (records_text (((byte ∷ name) ∷ fields) ∷ rows))
        ≡ ((byte ∷ name) ∷ fields) ∷ map read_back rows }

    // Records with a field each are read as they are.
    ensures whole { (rows : List (List (List ℕ)))
        → All (λ fields. fields ≢ []) rows → map read_back rows ≡ rows }
{}

/// The place of a name is the first at which it stands.
pub fn places_are_first()
    ensures found { (names : List (List ℕ)) (name : List ℕ) (place : ℕ)
        → place_of names name ≡ Some place → slice_get names place ≡ Some name }

    // A name that stands at some place is found, there or before.
    ensures first { (names : List (List ℕ)) (name : List ℕ) (place : ℕ)
        → slice_get names place ≡ Some name
        → (least : ℕ) × (place_of names name ≡ Some least) × (least ≤ place) }

    ensures within { (names : List (List ℕ)) (name : List ℕ)
        → IsSome (place_of names name) → place_in names name < length names }

    // In a longer list a name keeps its place, and a new name has its place among those added.
    ensures appended { (before after : List (List ℕ)) (name : List ℕ)
        → place_of (before ++ after) name ≡ option_or (place_of before name)
        (option_map (λ place. length before + place) (place_of after name)) }
{}

/// Among names of which no two are the same each stands at its own place.
pub fn distinct_names_have_their_places()
    ensures own { (names : List (List ℕ)) (place : ℕ) → IsDistinct bytes_eq names
        → place < length names → place_of names (get_or names place []) ≡ Some place }

    // At places that differ stand names that differ.
    ensures apart { (names : List (List ℕ)) (place other : ℕ) → IsDistinct bytes_eq names
        → place < length names → other < length names → place ≢ other
        → bytes_eq (get_or names place []) (get_or names other []) ≡ false }

    // They stay so where a name is added that was not there.
    ensures added { (names : List (List ℕ)) (name : List ℕ) → IsDistinct bytes_eq names
        → place_of names name ≡ None → IsDistinct bytes_eq (names ++ name ∷ []) }
{}
