//! Items of the input, and its end.
use run_values::{Item, at_end, next_item};
use std::test::Fail;

/// Each row: an input, and an index from which on nothing is found.
const MISSING: [(&str, usize); 6] = [
    ("", 0),
    ("   ", 0),
    (" \t\r\n ", 0),
    ("12", 2),
    ("12 \n", 2),
    ("12 \n", 4),
];

#[test]
fn missing(rt: HostRuntime) -> Result<(), Fail> {
    for row in &MISSING {
        let (input, at) = *row;
        assert!(rt; at <= input.len());
        assert!(rt; next_item(input.as_bytes(), at) == Item::Missing, "{input}");
    }
    Ok(())
}

/// Each row: an input, where to begin, and the value and the end of the number there.
const NUMBERS: [(&str, usize, i32, usize); 21] = [
    ("12 x", 0, 12, 2),
    ("12 x", 1, 2, 2),
    ("12 +3", 2, 3, 5),
    ("0", 0, 0, 1),
    ("+5", 0, 5, 2),
    ("+5", 1, 5, 2),
    ("-5", 0, -5, 2),
    ("-0", 0, 0, 2),
    ("007", 0, 7, 3),
    ("-007 ", 0, -7, 4),
    ("00000000000000000000000000000001", 0, 1, 32),
    ("2147483647", 0, 2_147_483_647, 10),
    ("+2147483647", 0, 2_147_483_647, 11),
    ("-2147483648", 0, -2_147_483_648, 11),
    ("-00002147483648", 0, -2_147_483_648, 15),
    ("\t12\t", 0, 12, 3),
    ("\r12\r\n", 0, 12, 3),
    ("\n12\n13", 0, 12, 3),
    ("\n12\n13", 3, 13, 6),
    (" \t\r\n 8 9", 0, 8, 6),
    (" \t\r\n 8 9", 6, 9, 8),
];

#[test]
fn numbers(rt: HostRuntime) -> Result<(), Fail> {
    for row in &NUMBERS {
        let (input, at, value, end) = *row;
        assert!(rt; at <= input.len());
        let found = next_item(input.as_bytes(), at);
        assert!(rt; found == Item::Number { value, end }, "{input}");
    }
    Ok(())
}

/// Each row: an input, and where an item begins that is no number of Integer.
const BAD: [(&str, usize); 20] = [
    ("12 x", 2),
    ("x", 0),
    ("+", 0),
    ("-", 0),
    ("- 5", 0),
    ("+-5", 0),
    ("--5", 0),
    ("5-", 0),
    ("5+", 0),
    ("2147483648", 0),
    ("-2147483649", 0),
    ("99999999999999999999999999999999", 0),
    ("1_0", 0),
    ("1e2", 0),
    ("16#A#", 0),
    ("1.0", 0),
    ("5;", 0),
    ("5\x0c", 0),
    ("\x0b5", 0),
    ("٣", 0),
];

#[test]
fn bad(rt: HostRuntime) -> Result<(), Fail> {
    for row in &BAD {
        let (input, at) = *row;
        assert!(rt; at <= input.len());
        assert!(rt; next_item(input.as_bytes(), at) == Item::Bad, "{input}");
    }
    Ok(())
}

#[test]
fn no_text(rt: HostRuntime) {
    assert!(rt; next_item(b"\xff", 0) == Item::Bad);
    assert!(rt; next_item(b"1\xff", 0) == Item::Bad);
    assert!(rt; next_item(b"\xff 1", 1) == Item::Number { value: 1, end: 3 });
}

/// A million digits, of which all but the last are zeros, and a million nines.
#[test]
fn long(rt: HostRuntime) -> Result<(), Fail> {
    let mut zeros = vec![in rt.alloc(); b'0'; 1_000_000]?;
    zeros.push(b'7')?;
    let end = zeros.len();
    assert!(rt; next_item(&zeros, 0) == Item::Number { value: 7, end });
    let nines = vec![in rt.alloc(); b'9'; 1_000_000]?;
    assert!(rt; next_item(&nines, 0) == Item::Bad);
    Ok(())
}

/// Each row: an input, an index, and whether the input is at its end there.
const ENDS: [(&str, usize, bool); 11] = [
    ("", 0, true),
    ("\n", 0, true),
    ("\n", 1, true),
    ("\n\n", 0, false),
    ("\n\n", 1, true),
    (" ", 0, false),
    (" \n", 0, false),
    ("\r\n", 0, false),
    ("\t", 0, false),
    ("x", 0, false),
    ("x\n", 1, true),
];

#[test]
fn ends(rt: HostRuntime) -> Result<(), Fail> {
    for row in &ENDS {
        let (input, at, want) = *row;
        assert!(rt; at <= input.len());
        assert!(rt; at_end(input.as_bytes(), at) == want, "{input}");
    }
    Ok(())
}
