//! What a token is to the readers of one token.
ghost use Rattle.std.specs.Prelude.{◌≡◌, map};
ghost use Rattle.std.specs.Option.{is_some};
ghost use Rattle.std.specs.Char.{to_ascii_lowercase};
ghost use Rattle.token_reading.specs.Spelled.{told};
ghost use Rattle.token_reading.specs.Reading as reading;

use ada_lexer::{Reserved, Symbol, Token, TokenKind};
use spark_base::Pos;

/// The position of a token that is this reserved word.
pub fn word_position(token: &Token<'_>, word: Reserved) -> Option<Pos>
    ensures { result ≡ reading.word_position word (told token.now) }
{
    match token.kind {
        TokenKind::Word(it) if it == word => Some(token.pos),
        _ => None,
    }
}

/// The position of a token that is this delimiter.
pub fn symbol_position(token: &Token<'_>, symbol: Symbol) -> Option<Pos>
    ensures { result ≡ reading.symbol_position symbol (told token.now) }
{
    match token.kind {
        TokenKind::Symbol(it) if it == symbol => Some(token.pos),
        _ => None,
    }
}

/// The position and the value of a token that is a number.
pub fn number_of(token: &Token<'_>) -> Option<(Pos, u32)>
    ensures { result ≡ reading.number_of (told token.now) }
{
    match token.kind {
        TokenKind::Number(number) => Some((token.pos, number)),
        _ => None,
    }
}

/// Whether a token is an identifier.
pub fn is_identifier(token: &Token<'_>) -> bool
    ensures { result ≡ is_some (reading.identifier_of (told token.now)) }
{
    matches!(token.kind, TokenKind::Ident)
}

/// Whether a token is an identifier that has this spelling in lower case (Ada 2012, 2.3(5)).
pub fn is_called(token: &Token<'_>, name: &[u8]) -> bool
    requires { map to_ascii_lowercase name.now ≡ name.now }
    ensures { result ≡ is_some (reading.called_of name.now (told token.now)) }
{
    is_identifier(token) && token.text.eq_ignore_ascii_case(name)
}

/// Whether a token is a string.
pub fn is_string(token: &Token<'_>) -> bool
    ensures { result ≡ is_some (reading.string_of (told token.now)) }
{
    matches!(token.kind, TokenKind::Str)
}

/// Whether a token is the end of the file.
pub fn is_file_end(token: &Token<'_>) -> bool
    ensures { result ≡ is_some (reading.end_of (told token.now)) }
{
    matches!(token.kind, TokenKind::EndOfFile)
}
