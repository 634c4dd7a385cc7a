//! Delimiters at the front of a text (Ada 2012, 2.2).

ghost use Rattle.std.specs.Prelude.{◌≡◌, ◌<◌, length, slice_index};
ghost use Rattle.ada_lexer.specs.Delimiters as spec;
ghost use Rattle.ada_lexer.specs.Promises.{IsWithin};

use crate::character::byte;
use crate::piece::{Fault, Piece};
use crate::token::{Symbol, TokenKind};

/// The delimiter that two bytes make together.
fn compound(b: u8, next: u8) -> Option<Symbol>
    ensures { result ≡ spec.compound b next }
{
    match b {
        b'=' if next == b'>' => Some(Symbol::Arrow),
        b'.' if next == b'.' => Some(Symbol::DoubleDot),
        b':' if next == b'=' => Some(Symbol::Becomes),
        b'/' if next == b'=' => Some(Symbol::NotEqual),
        b'>' if next == b'=' => Some(Symbol::GreaterEqual),
        b'<' if next == b'=' => Some(Symbol::LessEqual),
        _ => None,
    }
}

/// The delimiter that one byte is.
fn single(b: u8) -> Option<Symbol>
    ensures { result ≡ spec.single b }
{
    match b {
        b'&' => Some(Symbol::Ampersand),
        b'\'' => Some(Symbol::Apostrophe),
        b'(' => Some(Symbol::LeftParenthesis),
        b')' => Some(Symbol::RightParenthesis),
        b'*' => Some(Symbol::Star),
        b'+' => Some(Symbol::Plus),
        b',' => Some(Symbol::Comma),
        b'-' => Some(Symbol::Minus),
        b'.' => Some(Symbol::Dot),
        b'/' => Some(Symbol::Slash),
        b':' => Some(Symbol::Colon),
        b';' => Some(Symbol::Semicolon),
        b'<' => Some(Symbol::Less),
        b'=' => Some(Symbol::Equal),
        b'>' => Some(Symbol::Greater),
        b'|' => Some(Symbol::Bar),
        _ => None,
    }
}

/// The delimiter at the front of a text, or the fault of its first byte.
#[tactic(auto, unfolding(crate::specs::Delimiters::delimiter))]
pub fn delimiter(text: &[u8]) -> Piece
    requires { 0 < length text.now }
    ensures value { result ≡ spec.delimiter (slice_index text.now 0) (slice_index text.now 1) }
    ensures within { IsWithin text.now result }
{
    let b = text[0];
    if let Some(symbol) = compound(b, byte(text, 1)) {
        return Piece::Lexeme(TokenKind::Symbol(symbol), 2);
    }
    match single(b) {
        Some(symbol) => Piece::Lexeme(TokenKind::Symbol(symbol), 1),
        None => Piece::Broken(Fault::BadByte, 0),
    }
}
