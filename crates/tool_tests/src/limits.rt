//! Sources at each limit of the tool, of the grammar and of programs, and just past it.
use crate::command::{NO_FAULTS, NONE, check, repeated, run_line};
use std::alloc::{AllocError, Global};
use std::test::Fail;

/// A text of so many bytes.
fn filled(alloc: Global, byte: u8, count: usize) -> Result<Vec<u8>, AllocError> {
    Ok(vec![in alloc; byte; count]?)
}

/// Each row: a byte, how often it stands in the first file, how often in the second if there is
/// one, and the refusal.
const FILES: [(u8, usize, Option<usize>, &str); 8] = [
    (b' ', 4_194_304, None, "f.adb:1:4194305: P1 syntax\n"),
    (b' ', 4_194_305, None, "f.adb:1:1: S1 sources too large\n"),
    (b' ', 4_194_303, Some(1), "f.adb:1:4194304: P1 syntax\n"),
    (
        b' ',
        4_194_304,
        Some(1),
        "g.adb:1:1: S1 sources too large\n",
    ),
    (b';', 1_000_000, None, "f.adb:1:1: P1 syntax\n"),
    (
        b';',
        1_000_001,
        None,
        "f.adb:1:1000001: L5 too many tokens\n",
    ),
    (b';', 999_995, Some(5), "f.adb:1:1: P1 syntax\n"),
    (b';', 999_995, Some(7), "g.adb:1:6: L5 too many tokens\n"),
];

#[test]
fn bytes_and_tokens(rt: HostRuntime) -> Result<(), Fail> {
    let alloc = rt.alloc();
    for row in &FILES {
        let (byte, count, more, err) = *row;
        let first = filled(alloc, byte, count)?;
        let second = match more {
            Some(count) => Some(filled(alloc, byte, count)?),
            None => None,
        };
        let response = check(alloc, first, second, NO_FAULTS)?;
        assert!(rt; response.is("", err, 2), "{err}");
    }
    Ok(())
}

/// Each row: the bytes of `f.adb`, those of `g.adb`, the words, the number of the call of the files
/// that fails, what is written to the second output, and the status. `z.adb` isn't there.
///
/// The first call opens `f.adb`, 1,024 calls read 4,194,304 bytes of it, and the next call,
/// number 1,025, reads one more byte or finds the end. Then call 1,026 opens `g.adb`, and call
/// 1,027 reads its first byte.
const READS: [(usize, usize, &str, u64, &str, u8); 6] = [
    (
        4_200_000,
        0,
        "check f.adb",
        1_026,
        "f.adb:1:1: S1 sources too large\n",
        2,
    ),
    (4_200_000, 0, "check f.adb", 1_025, "", 7),
    (
        4_200_000,
        0,
        "check f.adb z.adb",
        NONE,
        "f.adb:1:1: S1 sources too large\n",
        2,
    ),
    (
        4_194_304,
        9,
        "check f.adb g.adb",
        1_028,
        "g.adb:1:1: S1 sources too large\n",
        2,
    ),
    (4_194_304, 9, "check f.adb g.adb", 1_027, "", 7),
    (
        4_194_304,
        9,
        "check f.adb g.adb z.adb",
        NONE,
        "g.adb:1:1: S1 sources too large\n",
        2,
    ),
];

/// Nothing is read after the first byte past the limit: neither of its file nor of a file after
/// that.
#[test]
fn nothing_is_read_behind_the_byte_past_the_limit(rt: HostRuntime) -> Result<(), Fail> {
    let alloc = rt.alloc();
    for row in &READS {
        let (first, second, line, fails, err, status) = *row;
        let first = filled(alloc, b' ', first)?;
        let second = filled(alloc, b' ', second)?;
        let response = run_line(alloc, line, first, Some(second), (fails, NONE, NONE))?;
        assert!(rt; response.is("", err, status), "{line} {fails}");
    }
    Ok(())
}

/// Each row: a front, a piece, how often it stands, a middle, another piece as often, a back, what
/// is written to each output, and the status.
const NESTED: [(&str, &str, usize, &str, &str, &str, &str, u8); 4] = [
    (
        "procedure Main is begin ",
        "begin ",
        63,
        "null; ",
        "end; ",
        "accepted\n",
        "",
        0,
    ),
    (
        "procedure Main is begin ",
        "begin ",
        64,
        "null; ",
        "end; ",
        "",
        "f.adb:1:403: P2 nesting too deep\n",
        2,
    ),
    (
        "procedure Main is N : Integer; begin N := 0",
        " + 0",
        1_024,
        "; ",
        "",
        "accepted\n",
        "",
        0,
    ),
    (
        "procedure Main is N : Integer; begin N := 0",
        " + 0",
        1_025,
        "; ",
        "",
        "",
        "f.adb:1:4141: P2 nesting too deep\n",
        2,
    ),
];

#[test]
fn constructs_and_operators(rt: HostRuntime) -> Result<(), Fail> {
    let alloc = rt.alloc();
    for row in &NESTED {
        let (front, opener, count, middle, closer, out, err, status) = *row;
        let mut text = repeated(alloc, front, opener, count, middle)?;
        let rest = repeated(alloc, "", closer, count, "end Main;")?;
        text.extend_from_slice(rest.as_slice())?;
        let response = check(alloc, text, None, NO_FAULTS)?;
        assert!(rt; response.is(out, err, status), "{count} {status}");
    }
    Ok(())
}

/// Each step of it is two selectors, a dereference and a component.
const CHAIN: &str =
    "procedure Main is type Cell; type List is access Cell; type Cell is record Next : List; end record; L, X : List; begin L := X";

/// Each row: a front, a piece, how often it stands, a back, what is written to each output, and the
/// status.
const PROGRAMS: [(&str, &str, usize, &str, &str, &str, u8); 4] = [
    (
        "procedure Main is begin ",
        "null; ",
        16_383,
        "end Main;",
        "accepted\n",
        "",
        0,
    ),
    (
        "procedure Main is begin ",
        "null; ",
        16_384,
        "end Main;",
        "",
        "f.adb:1:11: G1 too many points\n",
        2,
    ),
    (CHAIN, ".Next", 8, "; end Main;", "accepted\n", "", 0),
    (
        CHAIN,
        ".Next",
        9,
        "; end Main;",
        "",
        "f.adb:1:125: M1 name too deep\n",
        2,
    ),
];

#[test]
fn points_and_selectors(rt: HostRuntime) -> Result<(), Fail> {
    let alloc = rt.alloc();
    for row in &PROGRAMS {
        let (front, piece, count, back, out, err, status) = *row;
        let text = repeated(alloc, front, piece, count, back)?;
        let response = check(alloc, text, None, NO_FAULTS)?;
        assert!(rt; response.is(out, err, status), "{count} {status}");
    }
    Ok(())
}

/// A program that moves so many objects.
fn moves(alloc: Global, count: u32) -> Result<Vec<u8>, AllocError> {
    let front = b"procedure Main is type Link is access Integer; Y : Link; ";
    let mut text = Vec::from_slice(alloc, front)?;
    for number in 0..count {
        let object = format!(in alloc; "X{number} : Link; ")?;
        text.extend_from_slice(object.as_bytes())?;
    }
    text.extend_from_slice(b"begin ")?;
    for number in 0..count {
        let statement = format!(in alloc; "Y := X{number}; ")?;
        text.extend_from_slice(statement.as_bytes())?;
    }
    text.extend_from_slice(b"end Main;")?;
    Ok(text)
}

/// Each row: how many objects are moved, what is written to each output, and the status.
const MOVES: [(u32, &str, &str, u8); 2] = [
    (512, "accepted\n", "", 0),
    (513, "", "f.adb:1:11: G2 too many facts\n", 2),
];

#[test]
fn facts(rt: HostRuntime) -> Result<(), Fail> {
    let alloc = rt.alloc();
    for row in &MOVES {
        let (count, out, err, status) = *row;
        let response = check(alloc, moves(alloc, count)?, None, NO_FAULTS)?;
        assert!(rt; response.is(out, err, status), "{count}");
    }
    Ok(())
}
