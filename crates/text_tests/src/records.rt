//! Tests of records, of texts of them, and of tables of names.

use csv::ByteRecord;
use np_frac::{Frac, Memory};
use np_records::{NameTable, Records, Text, field};
use std::alloc::Global;
use std::test::Fail;

// The records of a text in a form to compare: fields end in '|', and records in '/'.
fn shown(alloc: Global, text: &[u8]) -> Result<Vec<u8>, Fail> {
    let mut shown = Vec::new(alloc);
    let mut left = Records::new(alloc, text);
    let mut row = ByteRecord::new(alloc);
    'rows: loop {
        match left.read(&mut row) {
            Ok(true) => {}
            Ok(false) => return Ok(shown),
            Err(_) => return Err(Fail::from("memory")),
        }
        for place in 0..row.len() {
            shown.extend_from_slice(field(&row, place))?;
            shown.push(b'|')?;
        }
        shown.push(b'/')?;
    }
}

// A text and its records, a ';' between them and a '~' behind them.
const TEXTS: &str = ";~\
\n\r\n\r;~\
a,b\nc\n;a|b|/c|/~\
a\rb\r\nc\n\nd;a|/b|/c|/d|/~\
a,b,\n;a|b||/~\
,;||/~\
\"\"\n;|/~\
\"a,\"\"b\"\"\r\nc\",d\n;a,\"b\"\r\nc|d|/~\
\u{20}a , b \n; a | b |/~\
\u{FEFF}a\n;a|/~\
\u{FEFF}\u{FEFF}a\n;\u{FEFF}a|/~\
a\n\u{FEFF}b\n;a|/\u{FEFF}b|/";

#[test]
fn reads_records(rt: HostRuntime) -> Result<(), Fail> {
    for row in TEXTS.split('~') {
        let (text, want) = row.split_once(';').ok_or("no row")?;
        let got = shown(rt.alloc(), text.as_bytes())?;
        assert!(rt; got.as_slice() == want.as_bytes(), "at {text:?}: {got:?}");
    }
    Ok(())
}

// Whether a record was read.
fn reads(left: &mut Records, row: &mut ByteRecord) -> Option<bool> {
    left.read(row).ok()
}

#[test]
fn reads_one_by_one(rt: HostRuntime) -> Result<(), Fail> {
    let alloc = rt.alloc();
    let mut left = Records::new(alloc, b"a,b\nc\n");
    let mut row = ByteRecord::new(alloc);
    assert!(rt; reads(&mut left, &mut row) == Some(true));
    assert_eq!(rt; row.len(), 2);
    assert!(rt; field(&row, 1) == b"b".as_slice());
    assert!(rt; field(&row, 2) == b"".as_slice());
    assert!(rt; reads(&mut left, &mut row) == Some(true));
    assert!(rt; field(&row, 0) == b"c".as_slice());
    assert!(rt; reads(&mut left, &mut row) == Some(false));
    assert!(rt; reads(&mut left, &mut row) == Some(false));
    Ok(())
}

// Writes the record of these fields.
fn write_record(text: &mut Text, fields: &[&[u8]]) -> Result<(), Memory> {
    for field in fields {
        text.word(field)?;
    }
    text.end()
}

// The text of three records: one of many fields, one of one that is empty, and one of none.
fn three_records(alloc: Global) -> Result<Vec<u8>, Memory> {
    let mut text = Text::new(alloc);
    let fields: [&[u8]; 6] = [b"a b", b"c,d", b"e\"f", b"g\nh", b"\r", b""];
    write_record(&mut text, &fields)?;
    write_record(&mut text, &[b"".as_slice()])?;
    write_record(&mut text, &[])?;
    Ok(text.into_bytes()?)
}

// The quotes are those that RFC 4180 asks for, in its sections 2.5 to 2.7, and those that keep an
// empty record from being a blank line.
#[test]
fn writes_records(rt: HostRuntime) -> Result<(), Fail> {
    let bytes = three_records(rt.alloc())?;
    let want = b"a b,\"c,d\",\"e\"\"f\",\"g\nh\",\"\r\",\n\"\"\n\"\"\n";
    assert!(rt; bytes.as_slice() == want.as_slice(), "{bytes:?}");
    Ok(())
}

// The text of a record with each kind of field, of one with none, and of one that is left open.
fn each_kind(alloc: Global) -> Result<Vec<u8>, Memory> {
    let mut text = Text::new(alloc);
    text.word(b"c,d")?;
    text.number(18_446_744_073_709_551_615)?;
    text.fraction(Frac::whole(-7))?;
    text.end()?;
    text.end()?;
    text.word(b"open")?;
    Ok(text.into_bytes()?)
}

// Each kind of field, and the open record left out at the end.
#[test]
fn writes_fields(rt: HostRuntime) -> Result<(), Fail> {
    let bytes = each_kind(rt.alloc())?;
    let want = b"\"c,d\",18446744073709551615,-7\n\"\"\n";
    assert!(rt; bytes.as_slice() == want.as_slice(), "{bytes:?}");
    Ok(())
}

// A table of four names.
fn four_names(alloc: Global) -> Result<NameTable, Memory> {
    let mut names = NameTable::new(alloc);
    for name in [b"tin".as_slice(), b"ore", b"tin", b"", b"or"] {
        if names.index_of(name).is_none() {
            names.push(alloc, name)?;
        }
    }
    Ok(names)
}

#[test]
fn numbers_names(rt: HostRuntime) -> Result<(), Fail> {
    assert!(rt; NameTable::new(rt.alloc()).is_empty());
    let names = four_names(rt.alloc())?;
    assert_eq!(rt; names.len(), 4);
    assert!(rt; !names.is_empty());
    assert_eq!(rt; names.index_of(b"or"), Some(3));
    assert_eq!(rt; names.index_of(b"orb"), None);
    assert!(rt; names.len() == 4 && names.name_at(1) == b"ore".as_slice());
    Ok(())
}
