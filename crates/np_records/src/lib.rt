//! The records of a text, texts of records, and tables of names.
//!
//! A record is a list of fields, and a field is a list of bytes. Texts are read as the crate `csv`
//! reads them with no header row: fields stand between commas, a field may stand in quotes, in
//! which a quote is doubled, and LF, CR or both end a record. Records may have different numbers of
//! fields, white space belongs to its field, a blank line is no record, and a byte order mark at
//! the very start of a text belongs to no field.
#![tactic(auto)]

mod fields;
pub mod laws;
mod names;
mod reading;
mod writing;

pub use csv::ByteRecord;
pub use fields::{is_kind, period, whole};
pub use names::NameTable;
pub use reading::{Records, field};
pub use writing::Text;
