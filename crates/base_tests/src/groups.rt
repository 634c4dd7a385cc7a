//! Sums in parentheses, read from lists of tokens just right and just wrong, and at the limits.
use ada_lexer::{Symbol, Token, TokenKind};
use spark_base::Pos;
use std::alloc::{AllocError, Global};
use std::test::Fail;
use token_reading::{Cursor, ReadFault, Side};

/// `(` number {`+` number} `)`, whose operators are counted by themselves.
fn group(tokens: &mut Cursor<'_, '_>, depth: u32) -> Result<(), ReadFault> {
    tokens.opens_symbol(Side::Apart, Symbol::LeftParenthesis, depth)?;
    tokens.number()?;
    for _turn in 0..tokens.left() {
        if tokens.sees_symbol(Symbol::Plus) {
            tokens.operator_symbol(Symbol::Plus)?;
            tokens.number()?;
        }
    }
    tokens.symbol(Side::Apart, Symbol::RightParenthesis)?;
    Ok(())
}

/// Reads so many `+`, each with a `(` after it that stands on this side.
fn signs(tokens: &mut Cursor<'_, '_>, side: Side, count: u32) -> Result<(), ReadFault> {
    for _turn in 0..count {
        tokens.operator_symbol(Symbol::Plus)?;
        tokens.opens_symbol(side, Symbol::LeftParenthesis, 63)?;
    }
    Ok(())
}

/// A token of this kind. No text and no position is looked at here.
fn token(kind: TokenKind) -> Token<'static> {
    let pos = Pos {
        file: 0,
        line: 1,
        column: 1,
    };
    Token {
        kind,
        text: b"",
        pos,
    }
}

const LEFT: TokenKind = TokenKind::Symbol(Symbol::LeftParenthesis);

const RIGHT: TokenKind = TokenKind::Symbol(Symbol::RightParenthesis);

const PLUS: TokenKind = TokenKind::Symbol(Symbol::Plus);

const ONE: TokenKind = TokenKind::Number(1);

const END: TokenKind = TokenKind::EndOfFile;

/// Each row: the kinds of the tokens, how many constructs are open, and the fault with how many
/// tokens are left.
const GROUPS: [(&[TokenKind], u32, (Option<ReadFault>, usize)); 7] = [
    (&[LEFT, ONE, PLUS, ONE, RIGHT, END], 63, (None, 1)),
    (&[LEFT, ONE, RIGHT, ONE, ONE, ONE], 63, (None, 3)),
    (
        &[LEFT, ONE, PLUS, ONE, RIGHT, END],
        64,
        (Some(ReadFault::OverLimit), 6),
    ),
    (
        &[ONE, ONE, PLUS, ONE, RIGHT, END],
        64,
        (Some(ReadFault::Refused), 6),
    ),
    (
        &[LEFT, ONE, PLUS, PLUS, RIGHT, END],
        63,
        (Some(ReadFault::Refused), 3),
    ),
    (
        &[LEFT, ONE, PLUS, ONE, END, END],
        63,
        (Some(ReadFault::Refused), 2),
    ),
    (
        &[LEFT, ONE, PLUS, ONE, PLUS, ONE],
        63,
        (Some(ReadFault::Refused), 0),
    ),
];

#[test]
fn groups(rt: HostRuntime) -> Result<(), Fail> {
    for row in &GROUPS {
        let (kinds, depth, want) = *row;
        let mut made = Vec::new(rt.alloc());
        for kind in kinds {
            made.push(token(*kind))?;
        }
        let mut tokens = Cursor::new(made.as_slice());
        let fault = group(&mut tokens, depth).err();
        assert!(rt; (fault, tokens.left()) == want, "{depth}");
    }
    Ok(())
}

/// A `(`, a number, and so many times `+` and a number, and a `)`.
fn sum(alloc: Global, count: u32) -> Result<Vec<Token<'static>>, AllocError> {
    let mut made = vec![in alloc; token(LEFT), token(ONE)]?;
    for _turn in 0..count {
        made.extend_from_slice(&[token(PLUS), token(ONE)])?;
    }
    made.push(token(RIGHT))?;
    Ok(made)
}

/// Each row: how many operators there are, the fault, and how many tokens are left.
const SUMS: [(u32, (Option<ReadFault>, usize)); 2] = [
    (1_024, (None, 0)),
    (1_025, (Some(ReadFault::OverLimit), 3)),
];

#[test]
fn operators(rt: HostRuntime) -> Result<(), Fail> {
    for row in &SUMS {
        let (count, want) = *row;
        let made = sum(rt.alloc(), count)?;
        let mut tokens = Cursor::new(made.as_slice());
        let fault = group(&mut tokens, 0).err();
        assert!(rt; (fault, tokens.left()) == want, "{count}");
    }
    Ok(())
}

/// Each row: the side of each parenthesis, how many signs are read, and the fault.
const SIGNS: [(Side, u32, Option<ReadFault>); 3] = [
    (Side::Apart, 1_025, None),
    (Side::Within, 1_024, None),
    (Side::Within, 1_025, Some(ReadFault::OverLimit)),
];

#[test]
fn sides(rt: HostRuntime) -> Result<(), Fail> {
    let mut made = Vec::new(rt.alloc());
    for _turn in 0..1_025 {
        made.extend_from_slice(&[token(PLUS), token(LEFT)])?;
    }
    for row in &SIGNS {
        let (side, count, want) = *row;
        let mut tokens = Cursor::new(made.as_slice());
        assert!(rt; signs(&mut tokens, side, count).err() == want, "{count}");
    }
    Ok(())
}
