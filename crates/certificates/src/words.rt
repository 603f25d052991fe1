//! The words of plan texts.

ghost use Rattle.std.specs.Prelude.{◌≡◌};
ghost use Rattle.certificates.specs.Words.{verdict_of, mark_of, op_of, row_of, check_row_of};

use np_frac::Op;
use np_model::{CheckRow, Mark, Row, Verdict};

/// The verdict with this word.
#[tactic(auto, unfolding(np_model::specs::Scheme::Verdicts::verdict_word))]
pub(crate) fn verdict_of(bytes: &[u8]) -> Option<Verdict>
    ensures { result ≡ verdict_of bytes.now }
{
    if bytes == b"optimal".as_slice() {
        Some(Verdict::Optimal)
    } else if bytes == b"infeasible".as_slice() {
        Some(Verdict::Infeasible)
    } else if bytes == b"unbounded".as_slice() {
        Some(Verdict::Unbounded)
    } else if bytes == b"budget".as_slice() {
        Some(Verdict::Budget)
    } else if bytes == b"overflow".as_slice() {
        Some(Verdict::Overflow)
    } else {
        None
    }
}

/// The bound with this word at which an arc comes to rest.
#[tactic(auto, unfolding(np_model::specs::Scheme::Verdicts::mark_word))]
pub(crate) fn mark_of(bytes: &[u8]) -> Option<Mark>
    ensures { result ≡ mark_of bytes.now }
{
    if bytes == b"lower".as_slice() {
        Some(Mark::Lower)
    } else if bytes == b"upper".as_slice() {
        Some(Mark::Upper)
    } else {
        None
    }
}

/// The operation with this word.
#[tactic(auto, unfolding(np_frac::specs::Words::op_word))]
pub(crate) fn op_of(bytes: &[u8]) -> Option<Op>
    ensures { result ≡ op_of bytes.now }
{
    if bytes == b"plus".as_slice() {
        Some(Op::Plus)
    } else if bytes == b"minus".as_slice() {
        Some(Op::Minus)
    } else if bytes == b"times".as_slice() {
        Some(Op::Times)
    } else if bytes == b"over".as_slice() {
        Some(Op::Over)
    } else {
        None
    }
}

/// The row of the solver's arithmetic with this name.
#[tactic(auto, unfolding(np_model::specs::Scheme::Verdicts::row_word))]
pub(crate) fn row_of(bytes: &[u8]) -> Option<Row>
    ensures { result ≡ row_of bytes.now }
{
    if bytes == b"A1".as_slice() {
        Some(Row::A1)
    } else if bytes == b"A2".as_slice() {
        Some(Row::A2)
    } else if bytes == b"A3".as_slice() {
        Some(Row::A3)
    } else if bytes == b"A4".as_slice() {
        Some(Row::A4)
    } else if bytes == b"A5".as_slice() {
        Some(Row::A5)
    } else if bytes == b"A6".as_slice() {
        Some(Row::A6)
    } else if bytes == b"A7".as_slice() {
        Some(Row::A7)
    } else if bytes == b"A8".as_slice() {
        Some(Row::A8)
    } else {
        None
    }
}

/// The row of the checker's arithmetic with this name.
#[tactic(auto, unfolding(np_model::specs::Scheme::Verdicts::check_row_word))]
pub(crate) fn check_row_of(bytes: &[u8]) -> Option<CheckRow>
    ensures { result ≡ check_row_of bytes.now }
{
    if bytes == b"C0".as_slice() {
        Some(CheckRow::C0)
    } else if bytes == b"C1".as_slice() {
        Some(CheckRow::C1)
    } else if bytes == b"C2".as_slice() {
        Some(CheckRow::C2)
    } else if bytes == b"C3".as_slice() {
        Some(CheckRow::C3)
    } else if bytes == b"C4".as_slice() {
        Some(CheckRow::C4)
    } else if bytes == b"C5".as_slice() {
        Some(CheckRow::C5)
    } else if bytes == b"C6".as_slice() {
        Some(CheckRow::C6)
    } else {
        None
    }
}
