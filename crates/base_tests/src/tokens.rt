//! Texts with their tokens, or with their first lexical fault.
use ada_lexer::{LexRefusal, Reserved, Symbol, Token, TokenKind, lex};
use spark_base::{Pos, SOURCE_BYTES};
use std::alloc::Global;
use std::test::Fail;

/// The tokens of a text, which is file 3.
fn tokens<'s>(alloc: Global, text: &'s str, room: u32) -> Result<Vec<Token<'s>>, LexRefusal> {
    let bytes = text.as_bytes();
    if bytes.len() > SOURCE_BYTES {
        return Err(LexRefusal::Memory);
    }
    lex(alloc, 3, bytes, room)
}

/// The kinds of the tokens of a text, without the end of the file.
pub(crate) fn kinds(alloc: Global, text: &str) -> Result<Vec<TokenKind>, LexRefusal> {
    let mut found = Vec::new(alloc);
    for token in tokens(alloc, text, 1000)? {
        if token.kind != TokenKind::EndOfFile {
            found.push(token.kind)?;
        }
    }
    Ok(found)
}

/// The code of a fault, with its line and column.
type Answer = (&'static str, u32, u32);

/// What is answered to a text.
fn answer(alloc: Global, text: &str, room: u32) -> Answer {
    match tokens(alloc, text, room) {
        Ok(_) => ("none", 0, 0),
        Err(LexRefusal::BadByte(at)) => ("L1", at.line, at.column),
        Err(LexRefusal::BadIdentifier(at)) => ("L2", at.line, at.column),
        Err(LexRefusal::BadNumber(at)) => ("L3", at.line, at.column),
        Err(LexRefusal::OpenString(at)) => ("L4", at.line, at.column),
        Err(LexRefusal::TooMany(at)) => ("L5", at.line, at.column),
        Err(LexRefusal::Memory) => ("memory", 0, 0),
    }
}

/// Each row: a text, the room for tokens, and the fault.
const FAULTS: [(&str, u32, &str, u32, u32); 27] = [
    ("a !", 9, "L1", 1, 3),
    ("\n _a", 9, "L1", 2, 2),
    ("a\x7f", 9, "L1", 1, 2),
    ("é", 9, "L1", 1, 1),
    (";ÿ", 9, "L1", 1, 2),
    ("a\0", 9, "L1", 1, 2),
    ("\"a\tb\"", 9, "L1", 1, 3),
    ("\"a\r\n", 9, "L1", 1, 3),
    ("\"a\x7f", 9, "L1", 1, 3),
    (" a__b", 9, "L2", 1, 2),
    ("a b_", 9, "L2", 1, 3),
    ("end_;", 9, "L2", 1, 1),
    (" 1.5", 9, "L3", 1, 2),
    ("1__0", 9, "L3", 1, 1),
    ("1_", 9, "L3", 1, 1),
    ("1a", 9, "L3", 1, 1),
    ("1E5", 9, "L3", 1, 1),
    ("16#F#", 9, "L3", 1, 1),
    ("2147483649", 9, "L3", 1, 1),
    ("99999999999999999999", 9, "L3", 1, 1),
    (" \"a\n\"", 9, "L4", 1, 2),
    ("a\n\"", 9, "L4", 2, 1),
    ("\"a\"\"", 9, "L4", 1, 1),
    (";", 0, "L5", 1, 1),
    ("a ; b", 2, "L5", 1, 5),
    ("a ; !", 2, "L1", 1, 5),
    ("a ; b_", 2, "L2", 1, 5),
];

#[test]
fn faults_stand_at_their_positions(rt: HostRuntime) {
    for row in &FAULTS {
        let (text, room, code, line, column) = *row;
        assert!(rt;
            answer(rt.alloc(), text, room) == (code, line, column),
            "{text}"
        );
    }
}

const NAME: TokenKind = TokenKind::Ident;

const ONE: TokenKind = TokenKind::Number(1);

const DOT: TokenKind = TokenKind::Symbol(Symbol::Dot);

/// Each row: a text, and the kinds of its tokens.
const KINDS: [(&str, &[TokenKind]); 18] = [
    ("", &[]),
    (" \t\x0b\x0c\r\n", &[]),
    ("a", &[NAME]),
    ("a -- \0\x7féÿ \"\nb", &[NAME, NAME]),
    ("--", &[]),
    ("a--b", &[NAME]),
    ("\"--\"a", &[TokenKind::Str, NAME]),
    ("\"\"", &[TokenKind::Str]),
    ("\"a\"\"b\"", &[TokenKind::Str]),
    ("\"\"\"\" \"a\"", &[TokenKind::Str, TokenKind::Str]),
    (
        "1..2",
        &[
            ONE,
            TokenKind::Symbol(Symbol::DoubleDot),
            TokenKind::Number(2),
        ],
    ),
    ("1 .", &[ONE, DOT]),
    ("1.", &[ONE, DOT]),
    ("1_000", &[TokenKind::Number(1000)]),
    ("0_2147483648", &[TokenKind::Number(2_147_483_648)]),
    ("a_1 end1", &[NAME, NAME]),
    (
        "end-1",
        &[
            TokenKind::Word(Reserved::KwEnd),
            TokenKind::Symbol(Symbol::Minus),
            ONE,
        ],
    ),
    (
        "& ' ( ) * + , - . / : ; < = > | => .. := /= >= <=",
        &[
            TokenKind::Symbol(Symbol::Ampersand),
            TokenKind::Symbol(Symbol::Apostrophe),
            TokenKind::Symbol(Symbol::LeftParenthesis),
            TokenKind::Symbol(Symbol::RightParenthesis),
            TokenKind::Symbol(Symbol::Star),
            TokenKind::Symbol(Symbol::Plus),
            TokenKind::Symbol(Symbol::Comma),
            TokenKind::Symbol(Symbol::Minus),
            TokenKind::Symbol(Symbol::Dot),
            TokenKind::Symbol(Symbol::Slash),
            TokenKind::Symbol(Symbol::Colon),
            TokenKind::Symbol(Symbol::Semicolon),
            TokenKind::Symbol(Symbol::Less),
            TokenKind::Symbol(Symbol::Equal),
            TokenKind::Symbol(Symbol::Greater),
            TokenKind::Symbol(Symbol::Bar),
            TokenKind::Symbol(Symbol::Arrow),
            TokenKind::Symbol(Symbol::DoubleDot),
            TokenKind::Symbol(Symbol::Becomes),
            TokenKind::Symbol(Symbol::NotEqual),
            TokenKind::Symbol(Symbol::GreaterEqual),
            TokenKind::Symbol(Symbol::LessEqual),
        ],
    ),
];

#[test]
fn the_longest_token_is_taken(rt: HostRuntime) -> Result<(), Fail> {
    for row in &KINDS {
        let (text, want) = *row;
        let found = kinds(rt.alloc(), text)?;
        assert!(rt; found.as_slice() == want, "{text}");
    }
    Ok(())
}

fn at(line: u32, column: u32) -> Pos {
    Pos {
        file: 3,
        line,
        column,
    }
}

const PLACED: &str = "Ab:=\r\n\t\"x\" -- c\n\n 1_0";

/// The texts of the tokens of `PLACED`, with their lines and columns.
const PLACES: [(&str, u32, u32); 5] = [
    ("Ab", 1, 1),
    (":=", 1, 3),
    ("\"x\"", 2, 2),
    ("1_0", 4, 2),
    ("", 4, 5),
];

#[test]
fn tokens_have_their_texts_and_positions(rt: HostRuntime) -> Result<(), Fail> {
    let found = tokens(rt.alloc(), PLACED, 4)?;
    assert!(rt; found.len() == PLACES.len());
    for (token, row) in found.iter().zip(&PLACES) {
        let (text, line, column) = *row;
        let is_there = token.text == text.as_bytes() && token.pos == at(line, column);
        assert!(rt; is_there, "{text}");
    }
    Ok(())
}

const PROGRAM: &str = "with Ada.Unchecked_Deallocation;
procedure Main is
type Int_Ptr is access Integer;
procedure Free is new Ada.Unchecked_Deallocation (Integer, Int_Ptr);
X, Y : Int_Ptr;
N : Integer;
begin
X := new Integer'(7); Y := X; N := X.all; Free (Y);
end Main;
";

#[test]
fn a_program_has_tokens(rt: HostRuntime) -> Result<(), Fail> {
    let found = tokens(rt.alloc(), PROGRAM, 65)?;
    assert!(rt; found.len() == 66);
    assert!(rt; found[65].pos == at(10, 1));
    Ok(())
}
