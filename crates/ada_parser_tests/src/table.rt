//! What the parser answers to a row of a table.
//!
//! `~` stands in front of the token that is refused; it is no part of the source.
use ada_lexer::lex;
use ada_parser::{ParseRefusal, parse};
use spark_base::{SOURCE_BYTES, TOKENS};
use std::alloc::{AllocError, Global};
use std::test::Fail;

/// The answer to a source, and the column of the refused token, or 0.
type Answer = (&'static str, u32);

/// What the parser answers to a text of one line.
fn read(alloc: Global, text: &[u8]) -> Result<Answer, Fail> {
    if text.len() > SOURCE_BYTES {
        return Err(Fail::new("too long"));
    }
    let tokens = lex(alloc, 0, text, TOKENS)?;
    Ok(match parse(alloc, tokens.as_slice()) {
        Ok(_) => ("accepted", 0),
        Err(ParseRefusal::Syntax(at)) => ("P1", at.column),
        Err(ParseRefusal::TooDeep(at)) => ("P2", at.column),
        Err(ParseRefusal::LeftOut(at)) => ("P3", at.column),
        Err(ParseRefusal::Memory) => ("memory", 0),
    })
}

/// The text without its mark, and the column of the first byte after the mark that is no space; 0
/// where there is no mark.
fn unmarked(alloc: Global, marked: &[u8]) -> Result<(Vec<u8>, u32), AllocError> {
    let mut text = Vec::new(alloc);
    let mut column: u32 = 1;
    let mut found: u32 = 0;
    let mut seeks = false;
    for byte in marked.iter() {
        if *byte == b'~' {
            seeks = true;
        } else {
            if seeks && *byte != b' ' {
                found = column;
                seeks = false;
            }
            text.push(*byte)?;
            column = column.saturating_add(1);
        }
    }
    if seeks {
        found = column;
    }
    Ok((text, found))
}

/// The parts, each as often as it says, one after the other.
fn joined(alloc: Global, parts: &[(&str, u32)]) -> Result<Vec<u8>, AllocError> {
    let mut text = Vec::new(alloc);
    for part in parts {
        for _copy in 0..part.1 {
            text.extend_from_slice(part.0.as_bytes())?;
        }
    }
    Ok(text)
}

/// Whether the parser refuses the marked text of these parts with this code at its mark; a text
/// without a mark it is to accept.
fn answers(alloc: Global, parts: &[(&str, u32)], code: &'static str) -> Result<bool, Fail> {
    let marked = joined(alloc, parts)?;
    let (text, column) = unmarked(alloc, marked.as_slice())?;
    let expected = if column == 0 { "accepted" } else { code };
    Ok(read(alloc, text.as_slice())? == (expected, column))
}

/// Fails with the row unless the parser answers so to the marked text of these parts.
pub(crate) fn demand(
    alloc: Global,
    row: &str,
    parts: &[(&str, u32)],
    code: &'static str,
) -> Result<(), Fail> {
    if answers(alloc, parts, code)? {
        Ok(())
    } else {
        Err(Fail::new(row))
    }
}

/// The same of each marked text between a front and a back.
pub(crate) fn demand_all(
    alloc: Global,
    front: &str,
    texts: &[&str],
    back: &str,
    code: &'static str,
) -> Result<(), Fail> {
    for text in texts {
        demand(alloc, text, &[(front, 1), (text, 1), (back, 1)], code)?;
    }
    Ok(())
}
