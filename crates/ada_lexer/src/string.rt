//! Strings at the front of a text (Ada 2012, 2.6).

ghost use Rattle.std.specs.Prelude.{◌≡◌, ◌≤◌, length, slice_index, false};
ghost use Rattle.ada_lexer.specs.Characters as character;
ghost use Rattle.ada_lexer.specs.Promises.{IsWithin};
ghost use Rattle.ada_lexer.specs.Strings as spec;

use crate::character::{byte, is_graphic};
use crate::piece::{Fault, Piece};
use crate::token::TokenKind;

/// Whether a byte begins a string element, the next byte being this one.
fn begins_element(b: u8, next: u8) -> bool
    ensures { result ≡ spec.begins_element b next }
{
    if b == b'"' {
        next == b'"'
    } else {
        is_graphic(b)
    }
}

/// How many bytes the string elements at the front of a text take.
fn elements_length(mut text: &[u8]) -> usize
    ensures value { result ≡ spec.elements_length false text.entry.now }
    ensures within { result ≤ length text.entry.now }
{
    let mut is_second = false;
    let mut passed = 0;
    'elements: while let [b, rest @ ..] = text {
        if !is_second && !begins_element(*b, byte(rest, 0)) {
            return passed;
        }
        is_second = !is_second && *b == b'"';
        passed += 1;
        text = rest;
    }
    passed
}

/// The string at the front of a text that begins with a quote.
#[tactic(auto, unfolding(crate::specs::Strings::string))]
pub fn string(text: &[u8]) -> Piece
    requires { slice_index text.now 0 ≡ character.quote }
    ensures value { result ≡ spec.string text.now }
    ensures within { IsWithin text.now result }
{
    let stop = 1 + elements_length(&text[1..]);
    if stop == text.len() {
        return Piece::Broken(Fault::OpenString, 0);
    }
    match text[stop] {
        b'"' => Piece::Lexeme(TokenKind::Str, stop + 1),
        b'\n' => Piece::Broken(Fault::OpenString, 0),
        _ => Piece::Broken(Fault::BadByte, stop),
    }
}
