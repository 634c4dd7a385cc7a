//! The units of a file.
ghost use Rattle.std.specs.Prelude.{◌≡◌, ◌≢◌, Err, map, IfOk, IfErr};
ghost use Rattle.ada_lexer.specs.Tokens.{EndsOnce, kinds_of};
ghost use Rattle.token_reading.specs.Spelled.{told};
ghost use Rattle.token_reading.specs.Reading.{whole_file};
ghost use Rattle.ada_tree.specs.Refusals as refusals;
ghost use Rattle.ada_tree.specs.Refusals.{IsTreeOf};
ghost use Rattle.ada_grammar.specs.Units as readers;
ghost use Rattle.expression_parser.specs.Parts.{ReadsAs};
ghost use Rattle.ada_parser.specs.Parts.{units_of};
ghost use Rattle.ada_parser.specs.Refused.{IsRefusal, RefusedAt, refusal_as};
ghost use Rattle.ada_parser.specs.Refusing as refusing;

use crate::refusal::ParseRefusal;
use crate::unit::units;
use ada_lexer::{Token, TokenKind};
use ada_tree::{Trees, is_left_out};
use std::alloc::Global;
use token_reading::{Cursor, ReadFault};

/// source = unit {unit} EndOfFile (Ada 2012, 10.1.1).
fn source(alloc: Global, tokens: &mut Cursor<'_, '_>) -> Result<Trees, ReadFault>
    ensures { ReadsAs units_of (whole_file readers.source) tokens.old result tokens.new }
{
    let trees = Trees {
        units: units(alloc, tokens)?,
    };
    tokens.file_end()?;
    Ok(trees)
}

/// Whether a token is a word that belongs to what the language leaves out.
fn is_left_out_token(token: &Token<'_>) -> bool
    ensures { result ≡ refusals.is_left_out (told token.now) }
{
    match token.kind {
        TokenKind::Word(word) => is_left_out(word),
        _ => false,
    }
}

/// The refusal at a token that ends no viable prefix.
fn refusal_at(token: &Token<'_>) -> ParseRefusal
    ensures { result ≡ refusing.refusal_at token.now }
{
    if is_left_out_token(token) {
        ParseRefusal::LeftOut(token.pos)
    } else {
        ParseRefusal::Syntax(token.pos)
    }
}

/// The refusal of the tokens of a file for a fault of reading with so many of them left.
fn refusal_of(tokens: &[Token<'_>], left: usize, fault: ReadFault) -> ParseRefusal
    requires { refusing.StandsAtToken tokens.now left fault }
    ensures { refusing.TellsOf tokens.now left fault result }
{
    match fault {
        ReadFault::Refused => refusal_at(&tokens[tokens.len() - left]),
        ReadFault::OverLimit => ParseRefusal::TooDeep(tokens[tokens.len() - left].pos),
        ReadFault::Memory => ParseRefusal::Memory,
    }
}

/// The units of a file, from its tokens: the one list of trees that they spell (`docs/LANGUAGE.md`,
/// "Grammar").
///
/// The tokens are refused at the first token with which they are no viable prefix, as at the end of
/// an empty file, or at the first that exceeds a limit.
pub fn parse(alloc: Global, tokens: &[Token<'_>]) -> Result<Trees, ParseRefusal>
    requires { EndsOnce (kinds_of tokens.now) }
    ensures found { IfOk result (λ trees. IsTreeOf (map told tokens.now) trees.units) }
    ensures refused { IfErr result (λ refusal. IsRefusal tokens.now refusal) }
    // One token at most is refused, with one code, and none of a source.
    ensures only { result ≢ Err ParseRefusal.Memory → (code : _) → (at : _) → RefusedAt code tokens.now at
        → result ≡ Err (refusal_as code at) }
{
    let mut cursor = Cursor::new(tokens);
    match source(alloc, &mut cursor) {
        Ok(trees) => Ok(trees),
        Err(fault) => Err(refusal_of(tokens, cursor.left(), fault)),
    }
}
