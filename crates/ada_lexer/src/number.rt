//! Numbers at the front of a text (Ada 2012, 2.4.1).

ghost use Rattle.std.specs.Prelude.{◌≡◌, ◌≤◌, length, slice_index, true};
ghost use Rattle.ada_lexer.specs.Characters as character;
ghost use Rattle.ada_lexer.specs.Numbers as spec;
ghost use Rattle.ada_lexer.specs.Promises.{IsInRange, IsWithin};

use crate::character::{byte, is_digit, is_letter};
use crate::piece::{Fault, Piece};
use crate::token::TokenKind;
use crate::word::misplaces_underscore;

/// The largest value of a number.
const LARGEST_NUMBER: u32 = 2_147_483_648;

fn is_number_part(b: u8) -> bool
    ensures { result ≡ spec.is_number_part b }
{
    is_digit(b) || b == b'_'
}

/// How many digits and underscores stand at the front of a text.
fn number_length(text: &[u8]) -> usize
    ensures value { result ≡ spec.number_length text.now }
    ensures within { result ≤ length text.now }
    ensures moves { spec.is_number_part (slice_index text.now 0) ≡ true → 1 ≤ result }
{
    text.iter().take_while(|b| is_number_part(**b)).count()
}

/// A value with one digit more, or `None` where that is too large.
fn with_digit(value: u32, b: u8) -> Option<u32>
    requires { value ≤ spec.largest_number }
    ensures { IsInRange (spec.with_digit value b) result }
{
    if b == b'_' {
        return Some(value);
    }
    let next = u64::from(value) * 10 + u64::from(b.saturating_sub(b'0'));
    if next > u64::from(LARGEST_NUMBER) {
        None
    } else {
        Some(next as u32)
    }
}

/// The value of digits in base ten, or `None` where it is too large.
fn number_value(digits: &[u8]) -> Option<u32>
    ensures { IsInRange (spec.number_value digits.now) result }
{
    let mut value: u32 = 0;
    'digits: for b in digits {
        value = with_digit(value, *b)?;
    }
    Some(value)
}

/// Whether what follows a number spoils it: a letter, `#`, or a point with a digit.
fn spoils_number(rest: &[u8]) -> bool
    ensures { result ≡ spec.spoils_number rest.now }
{
    let next = byte(rest, 0);
    is_letter(next) || next == b'#' || (next == b'.' && is_digit(byte(rest, 1)))
}

/// The number at the front of a text that begins with a digit.
#[tactic(auto, unfolding(crate::specs::Numbers::number))]
pub fn number(text: &[u8]) -> Piece
    requires { character.is_digit (slice_index text.now 0) ≡ true }
    ensures value { result ≡ spec.number text.now }
    ensures within { IsWithin text.now result }
{
    let len = number_length(text);
    let digits = &text[..len];
    if misplaces_underscore(digits) || spoils_number(&text[len..]) {
        return Piece::Broken(Fault::BadNumber, 0);
    }
    match number_value(digits) {
        None => Piece::Broken(Fault::BadNumber, 0),
        Some(value) => Piece::Lexeme(TokenKind::Number(value), len),
    }
}
