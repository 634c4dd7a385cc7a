//! What stands at the front of a text: a separator or a comment, a token, or a fault.

ghost use Rattle.std.specs.Prelude.{◌≡◌, ◌<◌, ◌≤◌, length, slice_index};
ghost use Rattle.ada_lexer.specs.Characters.{hyphen};
ghost use Rattle.ada_lexer.specs.Pieces as spec;
ghost use Rattle.ada_lexer.specs.Promises.{IsWithin};

use crate::character::{byte, is_digit, is_letter, is_separator};
use crate::delimiter::delimiter;
use crate::number::number;
use crate::string::string;
use crate::token::TokenKind;
use crate::word::identifier;

/// What is wrong with a piece of a text.
#[derive(Clone, Copy)]
pub enum Fault {
    /// A byte begins no token, or may not stand in a string.
    BadByte,
    /// An identifier misplaces an underscore.
    BadIdentifier,
    /// A number is out of form or out of range.
    BadNumber,
    /// A string isn't closed on its line.
    OpenString,
}

/// The piece at the front of a text that isn't empty.
#[derive(Clone, Copy)]
pub enum Piece {
    /// A separator or a comment, and its length in bytes.
    Gap(usize),
    /// A token's kind, and its length in bytes.
    Lexeme(TokenKind, usize),
    /// A fault, and how many bytes stand before the one that it names.
    Broken(Fault, usize),
}

/// The length in bytes of the comment at the front of a text. Its line feed isn't part of it.
fn comment_length(text: &[u8]) -> usize
    ensures value { result ≡ spec.comment_length text.now }
    ensures within { result ≤ length text.now }
    ensures moves { slice_index text.now 0 ≡ hyphen → 1 ≤ result }
{
    text.iter().take_while(|b| **b != b'\n').count()
}

/// The piece at the front of a text.
#[tactic(auto, unfolding(crate::specs::Pieces::first_piece))]
pub fn first_piece(text: &[u8]) -> Piece
    requires { 0 < length text.now }
    ensures value { result ≡ spec.first_piece text.now }
    ensures within { IsWithin text.now result }
{
    let b = text[0];
    let next = byte(text, 1);
    if is_separator(b) {
        Piece::Gap(1)
    } else if b == b'-' && next == b'-' {
        Piece::Gap(comment_length(text))
    } else if is_letter(b) {
        identifier(text)
    } else if is_digit(b) {
        number(text)
    } else if b == b'"' {
        string(text)
    } else {
        delimiter(text)
    }
}
