//! Kinds of tokens, as a parser tests the next token for them.
ghost use Rattle.std.specs.Prelude.{◌≡◌, [], ◌∷◌, map};
ghost use Rattle.token_reading.specs.Spelled.{told};
ghost use Rattle.token_reading.specs.Kinds.{of_kind};
ghost use Rattle.token_reading.specs.Reading.{code, is_in};

use crate::token::{is_identifier, is_string, number_of, symbol_position, word_position};
use ada_lexer::{Reserved, Symbol, Token};

/// A kind of token that can begin a form of the grammar.
#[derive(Clone, Copy)]
pub enum Kind {
    /// This reserved word.
    Word(Reserved),
    /// This delimiter.
    Delimiter(Symbol),
    /// An identifier.
    Identifier,
    /// A number.
    Number,
    /// A string.
    Str,
}

/// Whether a token is of this kind.
#[tactic(auto, using(crate::proofs::FirstKinds::is_word, crate::proofs::FirstKinds::is_symbol, crate::proofs::FirstKinds::is_number, crate::proofs::FirstKinds::is_ident, crate::proofs::FirstKinds::is_string))]
pub fn is_of_kind(token: &Token<'_>, kind: Kind) -> bool
    ensures { result ≡ is_in (of_kind kind ∷ []) (code (told token.now)) }
{
    match kind {
        Kind::Word(word) => word_position(token, word).is_some(),
        Kind::Delimiter(symbol) => symbol_position(token, symbol).is_some(),
        Kind::Identifier => is_identifier(token),
        Kind::Number => number_of(token).is_some(),
        Kind::Str => is_string(token),
    }
}

/// Whether a token is of one of these kinds.
#[tactic(auto, using(crate::proofs::FirstKinds::in_more))]
pub fn is_of_kinds(token: &Token<'_>, kinds: &[Kind]) -> bool
    ensures { result ≡ is_in (map of_kind kinds.now) (code (told token.now)) }
{
    let mut left = kinds;
    'kinds: while let Some((kind, rest)) = left.split_first() {
        if is_of_kind(token, *kind) {
            return true;
        }
        left = rest;
    }
    false
}
