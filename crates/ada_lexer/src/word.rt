//! Identifiers and reserved words at the front of a text (Ada 2012, 2.3 and 2.9).

ghost use Rattle.std.specs.Prelude.{◌≡◌, ◌≢◌, ◌≤◌, length, slice_index, true};
ghost use Rattle.ada_lexer.specs.Characters as character;
ghost use Rattle.ada_lexer.specs.Identifiers as spec;
ghost use Rattle.ada_lexer.specs.Promises.{IsWithin};

use crate::character::{byte, is_digit, is_letter};
use crate::keyword::reserved;
use crate::piece::{Fault, Piece};
use crate::token::{Reserved, TokenKind};

fn is_word_part(b: u8) -> bool
    ensures { result ≡ spec.is_word_part b }
{
    is_letter(b) || is_digit(b) || b == b'_'
}

/// How many letters, digits and underscores stand at the front of a text.
fn word_length(text: &[u8]) -> usize
    ensures value { result ≡ spec.word_length text.now }
    ensures within { result ≤ length text.now }
    ensures moves { spec.is_word_part (slice_index text.now 0) ≡ true → 1 ≤ result }
{
    text.iter().take_while(|b| is_word_part(**b)).count()
}

fn has_double_underscore(mut word: &[u8]) -> bool
    ensures { result ≡ spec.has_double_underscore word.entry.now }
{
    'bytes: while let [b, rest @ ..] = word {
        if *b == b'_' && byte(rest, 0) == b'_' {
            return true;
        }
        word = rest;
    }
    false
}

fn ends_in_underscore(word: &[u8]) -> bool
    ensures { result ≡ spec.ends_in_underscore word.now }
{
    !word.is_empty() && word[word.len() - 1] == b'_'
}

/// Whether two underscores are adjacent or the last byte is one.
pub fn misplaces_underscore(word: &[u8]) -> bool
    ensures { result ≡ spec.misplaces_underscore word.now }
{
    has_double_underscore(word) || ends_in_underscore(word)
}

fn kind_by(word: Option<Reserved>) -> TokenKind
    ensures value { result ≡ spec.kind_by word }
    ensures inner { result ≢ TokenKind.EndOfFile }
{
    match word {
        Some(word) => TokenKind::Word(word),
        None => TokenKind::Ident,
    }
}

/// The identifier or the reserved word at the front of a text that begins with a letter.
#[tactic(auto, unfolding(crate::specs::Identifiers::identifier))]
pub fn identifier(text: &[u8]) -> Piece
    requires { character.is_letter (slice_index text.now 0) ≡ true }
    ensures value { result ≡ spec.identifier text.now }
    ensures within { IsWithin text.now result }
{
    let len = word_length(text);
    let word = &text[..len];
    if misplaces_underscore(word) {
        return Piece::Broken(Fault::BadIdentifier, 0);
    }
    Piece::Lexeme(kind_by(reserved(word)), len)
}
