//! The parts of the texts of numbers: sign, mark and digits.

ghost use Rattle.std.specs.Prelude.{◌≡◌, ◌≢◌, ◌<◌, ◌≤◌, ◌^◌, ◌⊎◌, length, slice_index, MatchOption};
ghost use Rattle.std.specs.List.{position};
ghost use Rattle.std.specs.Option.{SomeIff};
ghost use Rattle.std.specs.Str.Parse.{starts_with_minus};
ghost use Rattle.np_frac.specs.Text.{is_mark, unsigned_part, signed, before_mark, from_mark, IsNumber, IsPart, number};

/// Whether the text has a leading `-`.
pub fn is_negative(bytes: &[u8]) -> bool
    ensures { result ≡ starts_with_minus bytes.now }
{
    bytes.first() == Some(&b'-')
}

/// The text without its leading `-`.
pub fn without_minus(bytes: &[u8]) -> &[u8]
    ensures { result.now ≡ unsigned_part bytes.now }
{
    if is_negative(bytes) {
        &bytes[1..]
    } else {
        bytes
    }
}

/// The number of this size, with the sign of the text.
pub fn with_sign(bytes: &[u8], size: u128) -> i128
    requires { size < 2 ^ 127 }
    ensures { result ≡ signed bytes.now size }
{
    if is_negative(bytes) {
        -(size as i128)
    } else {
        size as i128
    }
}

fn mark_position(unsigned: &[u8]) -> Option<usize>
    ensures { result ≡ position is_mark unsigned.now }
{
    unsigned
        .iter()
        .position(|byte| *byte == b'.' || *byte == b'/')
}

/// The text up to its first `.` or `/`, and from there on.
pub fn split_at_mark(unsigned: &[u8]) -> (&[u8], &[u8])
    ensures before { result.0.now ≡ before_mark unsigned.now }
    ensures from { result.1.now ≡ from_mark unsigned.now }
{
    let place = mark_position(unsigned).unwrap_or(unsigned.len());
    unsigned.split_at(place)
}

/// The text of at most `most` bytes, without a leading `+`, which `parse` would skip.
fn plain_text(digits: &[u8], most: usize) -> Option<&str>
    ensures { MatchOption result (¬ (IsNumber most digits.now)) (λ text. (text.now ≡ digits.now) × (length digits.now ≤ most) × (length digits.now ≡ 0 ⊎ slice_index digits.now 0 ≢ 43)) }
{
    if digits.len() > most || digits.starts_with(b"+") {
        return None;
    }
    match str::from_utf8(digits) {
        Ok(text) => Some(text),
        Err(_) => None,
    }
}

/// The number that 1 to `most` digits write.
pub fn read_number(digits: &[u8], most: usize) -> Option<u64>
    requires { most ≤ 19 }
    ensures { SomeIff result (IsNumber most digits.now) (number digits.now) }
{
    match u64::from_str_radix(plain_text(digits, most)?, 10) {
        Ok(value) => Some(value),
        Err(_) => None,
    }
}

/// The number that 1 to 39 digits write, where it is at most 2^127 - 1.
pub fn read_part(digits: &[u8]) -> Option<u128>
    ensures { SomeIff result (IsPart digits.now) (number digits.now) }
{
    match u128::from_str_radix(plain_text(digits, 39)?, 10) {
        Ok(value) if value < 1 << 127 => Some(value),
        _ => None,
    }
}
