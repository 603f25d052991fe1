//! Tests of network texts: the first fault of each, and what is written of the scheme of one without.

use net_csv::{Refused, Tail, read_scheme, scheme_text};
use np_frac::read_amount;
use np_model::{FlowKind, Scheme, Upper};
use std::alloc::Global;
use std::test::Fail;

// Texts stand in tests with `|` for the end of a record. What a row gives is the number of the first record with a fault,
// its word, and the records.
const FAULTS: &str = "1 NoEnd 
1 Header netplan,2
1 Header netplan
2 NoEnd netplan,1
2 Header netplan,1|node,A
2 FieldCount netplan,1|periods,1,1
2 BadPeriod netplan,1|periods,0
2 BadPeriod netplan,1|periods,20001
2 BadPeriod netplan,1|periods,0000000001
4 NoEnd netplan,1|periods,1|node,A
4 Unknown netplan,1|periods,1|node,A|en
4 Unknown netplan,1|periods,1|node,A|en,1,2,3
3 Unknown netplan,1|periods,1| 
3 Unknown netplan,1|periods,1|\"\"
4 FieldCount netplan,1|periods,1|node,A|end,1
5 AfterEnd netplan,1|periods,1|node,A|end|end
3 FieldCount netplan,1|periods,1|node
3 BadName netplan,1|periods,1|node,A B
3 BadName netplan,1|periods,1|node,
4 Repeated netplan,1|periods,1|node,A|node,A
4 NoSuchName netplan,1|periods,1|node,A|supply,B,1,1
4 NoSuchName netplan,1|periods,1|node,A|supply,A B,0,x
4 BadPeriod netplan,1|periods,1|node,A|supply,A,2,x
4 BadNumber netplan,1|periods,1|node,A|supply,A,1,1e3
4 SameEnds netplan,1|periods,1|node,A|arc,u,A,A,1,0,1,1
4 SameEnds netplan,1|periods,1|node,A|arc,u,A,A,1,2,1,1
5 BadNumber netplan,1|periods,1|node,A|node,B|arc,u,A,B,x,0,1,1
5 BadGain netplan,1|periods,1|node,A|node,B|arc,u,A,B,0,x,1,1
5 BadNumber netplan,1|periods,1|node,A|node,B|arc,u,A,B,1,x,1,1
4 BadGain netplan,1|periods,1|node,A|hold,h,A,-1,0,1,1
4 BadBounds netplan,1|periods,1|node,A|feed,f,A,2,1,1
5 Repeated netplan,1|periods,1|node,A|drain,z,A,0,1,1|drain,z,A,0,1,1
5 NotConvex netplan,1|periods,1|node,A|drain,z,A,0,10,3|piece,z,5,2|end
6 PieceAfterInfinite netplan,1|periods,1|node,A|drain,z,A,0,10,1|piece,z,inf,2|piece,z,1,3
5 PieceAfterInfinite netplan,1|periods,1|node,A|drain,z,A,0,inf,1|piece,z,0,0
5 BadBounds netplan,1|periods,1|node,A|drain,z,A,0,10,1|piece,z,0,0
4 NoSuchName netplan,1|periods,1|node,A|piece,z,1,1
4 TooMany netplan,1|periods,20000|node,A|node,B
9 TooMany netplan,1|periods,20000|node,A|drain,a,A,0,inf,0|drain,b,A,0,inf,0|drain,c,A,0,inf,0|drain,d,A,0,inf,0|drain,e,A,0,inf,0|drain,f,A,0,inf,0|end";

// The records of a text.
fn text_of(alloc: Global, records: &str) -> Result<Vec<u8>, Fail> {
    let mut text = Vec::new(alloc);
    for record in records.split('|') {
        text.extend_from_slice(record.as_bytes())?;
        text.push(b'\n')?;
    }
    Ok(text)
}

// The text that is written for the scheme of a text.
fn again(alloc: Global, text: &[u8]) -> Result<Vec<u8>, Fail> {
    if 100_000 < text.len() {
        return Err(Fail::from("long"));
    }
    match read_scheme(alloc, text, Tail::Nothing) {
        Ok(read) => match scheme_text(alloc, &read.0) {
            Ok(written) => Ok(written),
            Err(_) => Err(Fail::from("memory")),
        },
        Err(_) => Err(Fail::from("refused")),
    }
}

// The number and the word of the first fault; 0 where there is none.
fn fault(alloc: Global, text: &[u8], tail: Tail) -> Result<(u32, &'static [u8]), Fail> {
    if 100_000_000 < text.len() {
        return Err(Fail::from("long"));
    }
    match read_scheme(alloc, text, tail) {
        Ok(_) => Ok((0, b"none")),
        Err(Refused::Fault { place, code }) => Ok((place, code.word())),
        Err(Refused::Memory) => Err(Fail::from("memory")),
    }
}

#[test]
fn first_faults(rt: HostRuntime) -> Result<(), Fail> {
    for row in FAULTS.lines() {
        let (place, rest) = row.split_once(' ').ok_or("no place")?;
        let (word, records) = rest.split_once(' ').ok_or("no word")?;
        let text = text_of(rt.alloc(), records)?;
        let got = fault(rt.alloc(), &text, Tail::Nothing)?;
        assert_eq!(rt; got.0, place.parse::<u32>()?, "{row}");
        assert!(rt; got.1 == word.as_bytes(), "{row}");
    }
    Ok(())
}

#[test]
fn long_names(rt: HostRuntime) -> Result<(), Fail> {
    let alloc = rt.alloc();
    for size in 64..66 {
        let mut text = text_of(alloc, "netplan,1|periods,1")?;
        text.extend_from_slice(b"node,")?;
        let name = vec![in alloc; b'a'; size]?;
        text.extend_from_slice(&name)?;
        text.extend_from_slice(b"\nend\n")?;
        let want = if size == 64 { 0 } else { 3 };
        assert_eq!(rt; fault(alloc, &text, Tail::Nothing)?.0, want);
    }
    Ok(())
}

#[test]
fn many_empty_lines(rt: HostRuntime) -> Result<(), Fail> {
    let lines = vec![in rt.alloc(); b'\n'; 16_777_216]?;
    let got = fault(rt.alloc(), &lines, Tail::Nothing)?;
    assert!(rt; got == (1, b"NoEnd".as_slice()));
    Ok(())
}

#[test]
fn no_bytes_and_no_last_line_end(rt: HostRuntime) -> Result<(), Fail> {
    for tail in [Tail::Nothing, Tail::Plan] {
        let got = fault(rt.alloc(), b"", tail)?;
        assert!(rt; got == (1, b"NoEnd".as_slice()));
        let got = fault(rt.alloc(), b"netplan,1\nperiods,1\nend", tail)?;
        assert!(rt; got == (0, b"none".as_slice()));
    }
    Ok(())
}

#[test]
fn what_stands_behind(rt: HostRuntime) -> Result<(), Fail> {
    let alloc = rt.alloc();
    let text = b"netplan,1\nperiods,1\nend\nnetplan-plan,1\nend\n";
    match read_scheme(alloc, text, Tail::Plan) {
        Ok(read) => assert_eq!(rt; read.1, 3),
        Err(_) => return Err(Fail::from("refused")),
    }
    assert_eq!(rt; fault(alloc, text, Tail::Nothing)?.0, 4);
    Ok(())
}

// A text of every kind of record, with quoted names, fractions, lowers below 0 and infinite uppers.
const EVERY: &str =
    "netplan,1|periods,2|node,\"a,b\"|node,\"c\"\"d\"|supply,\"a,b\",1,-1/3|supply,\"a,b\",2,-1/3|\
    supply,\"c\"\"d\",2,1/2|arc,x,\"c\"\"d\",\"a,b\",1/2,-1,inf,0|hold,h,\"c\"\"d\",1,0,1,1|drain,d,\"c\"\"d\",0,1,1|\
    feed,f,\"c\"\"d\",-7/2,1,1|piece,f,2,1|piece,f,inf,123456789012345678.123456789|end";

#[test]
fn written_back(rt: HostRuntime) -> Result<(), Fail> {
    let alloc = rt.alloc();
    let first =
        "netplan,1|periods,1|node,A|node,B|supply,A,1,3|supply,B,1,-6|arc,u,A,B,2,0,10,1|end";
    for records in [first, EVERY] {
        let text = text_of(alloc, records)?;
        assert!(rt; again(alloc, &text)? == text, "{records}");
    }
    Ok(())
}

// Line ends, empty lines and quotes make no difference, nor a mark at the very start.
#[test]
fn same_texts(rt: HostRuntime) -> Result<(), Fail> {
    let alloc = rt.alloc();
    let want = text_of(alloc, "netplan,1|periods,1|node,A|drain,z,A,0,inf,0|end")?;
    let texts: [&[u8]; 7] = [
        b"netplan,1\nperiods,1\nnode,A\ndrain,z,A,0,inf,0\nend",
        b"netplan,1\r\nperiods,1\r\nnode,A\r\ndrain,z,A,0,inf,0\r\nend\r\n",
        b"netplan,1\rperiods,1\rnode,A\rdrain,z,A,0,inf,0\rend\r",
        b"\nnetplan,1\n\n\nperiods,1\nnode,A\ndrain,z,A,0,inf,0\r\n\nend\n\n",
        b"\"netplan\",\"1\"\nperiods,\"1\"\nnode,\"A\"\ndrain,z,A,\"0\",inf,0\n\"end\"\n",
        b"\xEF\xBB\xBFnetplan,1\nperiods,1\nnode,A\ndrain,z,A,0,inf,0\nend\n",
        b"netplan,1\nperiods,000000001\nnode,A\ndrain,z,A,-0,inf,0.000\nend\n",
    ];
    for text in texts {
        assert!(rt; again(alloc, text)? == want, "{text:?}");
    }
    Ok(())
}

// The last supply that covers a place counts, whether it is for one period or for all.
#[test]
fn last_supplies(rt: HostRuntime) -> Result<(), Fail> {
    let alloc = rt.alloc();
    let text = text_of(
        alloc,
        "netplan,1|periods,3|node,A|node,B|supply,A,2,5|supply,A,*,1|supply,A,3,7|supply,A,003,8|supply,B,*,2|supply,B,*,4|supply,B,1,0|end",
    )?;
    let want = text_of(
        alloc,
        "netplan,1|periods,3|node,A|node,B|supply,A,1,1|supply,A,2,1|supply,B,2,4|supply,A,3,8|supply,B,3,4|end",
    )?;
    assert!(rt; again(alloc, &text)? == want);
    Ok(())
}

// Whether this is the scheme of EVERY.
fn is_every(scheme: &Scheme) -> bool {
    let (supply, flows) = (scheme.supply.as_slice(), scheme.flows.as_slice());
    if scheme.periods != 2 || supply.len() != 4 || flows.len() != 4 {
        return false;
    }
    read_amount(b"-1/3") == Some(supply[2])
        && flows[0].upper == Upper::Infinite
        && flows[2].kind == FlowKind::Drain { node: 1 }
        && read_amount(b"-3.5") == Some(flows[3].lower)
        && flows[3].bands.as_slice().len() == 2
}

#[test]
fn scheme_of_a_text(rt: HostRuntime) -> Result<(), Fail> {
    let alloc = rt.alloc();
    let text = text_of(alloc, EVERY)?;
    if 1000 < text.len() {
        return Err(Fail::from("long"));
    }
    let Ok(read) = read_scheme(alloc, &text, Tail::Nothing) else {
        return Err(Fail::from("refused"));
    };
    assert!(rt; read.1 == 14 && is_every(&read.0));
    Ok(())
}

// A text as it is given and as it is written, of an amount.
const AMOUNTS: &str = "0 0
12.50 25/2
-7/21 -1/3
1/9999999999999999999 1/9999999999999999999
0.000000001 1/1000000000
123456789012345678.123456789 123456789012345678.123456789
-999999999999999999.5 -999999999999999999.500000000
1000000000.000000001 1000000000.000000001";

// The text of a network with a drain of this cost.
fn with_cost(alloc: Global, cost: &str) -> Result<Vec<u8>, Fail> {
    let mut text = text_of(alloc, "netplan,1|periods,1|node,A")?;
    text.extend_from_slice(b"drain,z,A,0,inf,")?;
    text.extend_from_slice(cost.as_bytes())?;
    text.extend_from_slice(b"\nend\n")?;
    Ok(text)
}

// Whether both are texts of one amount.
fn same_amount(given: &str, text: &str) -> bool {
    match read_amount(given.as_bytes()) {
        Some(value) => read_amount(text.as_bytes()) == Some(value),
        None => false,
    }
}

#[test]
fn amounts(rt: HostRuntime) -> Result<(), Fail> {
    let alloc = rt.alloc();
    for row in AMOUNTS.lines() {
        let (given, text) = row.split_once(' ').ok_or("no row")?;
        let written = again(alloc, &with_cost(alloc, given)?)?;
        assert!(rt; written == with_cost(alloc, text)?, "{row}");
        assert!(rt; same_amount(given, text), "{row}");
    }
    Ok(())
}
