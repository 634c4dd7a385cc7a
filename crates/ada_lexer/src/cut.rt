//! The cut of a whole text.

ghost use Rattle.std.specs.Prelude.{◌≡◌, ◌≢◌, ◌≤◌, ◌+◌, Ok, Err, IfOk, IfErr, All, AllPairs, length, map};
ghost use Rattle.spark_base.specs.Positions.{Precedes};
ghost use Rattle.ada_lexer.specs.Tokens.{refusal_at, tokens, cut_of, kinds_of};
ghost use Rattle.ada_lexer.specs.Tokens.{EndsOnce, StandsIn, NamesFile};

use crate::piece::{Fault, Piece, first_piece};
use crate::position::{behind, first_position};
use crate::refusal::LexRefusal;
use crate::token::{Token, TokenKind};
use spark_base::{Pos, SOURCE_BYTES};
use std::alloc::Global;

/// The refusal for a fault at a position.
fn refusal_at(fault: Fault, pos: Pos) -> LexRefusal
    ensures { result ≡ refusal_at fault pos }
{
    match fault {
        Fault::BadByte => LexRefusal::BadByte(pos),
        Fault::BadIdentifier => LexRefusal::BadIdentifier(pos),
        Fault::BadNumber => LexRefusal::BadNumber(pos),
        Fault::OpenString => LexRefusal::OpenString(pos),
    }
}

/// The tokens of a file, with the end of the file last, or the first lexical fault.
///
/// `file` is the number that each position gets. There is room for `room` tokens before the end of
/// the file.
///
/// # Errors
///
/// The fault whose piece stands first in the text: `BadByte` (`!`), `BadIdentifier` (`a_`),
/// `BadNumber` (`1_`), `OpenString` (`"`), or `TooMany` (`;` with room for none), which gives way
/// to another fault at its token; and `Memory`.
pub fn lex<'s>(
    alloc: Global,
    file: u16,
    text: &'s [u8],
    room: u32,
) -> Result<Vec<Token<'s>>, LexRefusal>
    requires { length text.now ≤ SOURCE_BYTES }
    // what is found, and each fault but out of memory, is what the definition says
    ensures found { IfOk result (λ found. tokens file text.now room ≡ Ok (map cut_of found.items)) }
    ensures fault { IfErr result (λ fault. fault ≢ LexRefusal.Memory → tokens file text.now room ≡ Err fault) }
    // what follows from it
    ensures ends { IfOk result (λ found. EndsOnce (kinds_of found.items)) }
    ensures within { IfOk result (λ found. length found.items ≤ room + 1) }
    ensures stands { IfOk result (λ found. All (λ token. StandsIn file text.now (cut_of token)) found.items) }
    ensures ordered { IfOk result (λ found. AllPairs (λ a b. Precedes a.pos b.pos) found.items) }
    ensures in_file { IfOk result (λ found. All (λ token. token.pos.file ≡ file) found.items) }
    ensures names_file { IfErr result (NamesFile file) }
{
    let mut found = Vec::new(alloc);
    let mut rest = text;
    let mut pos = first_position(file);
    let mut left = room;
    'pieces: while !rest.is_empty() {
        let len = match first_piece(rest) {
            Piece::Gap(len) => len,
            Piece::Lexeme(kind, len) => {
                if left == 0 {
                    return Err(LexRefusal::TooMany(pos));
                }
                left -= 1;
                let text = &rest[..len];
                found.push(Token { kind, text, pos })?;
                len
            }
            Piece::Broken(fault, before) => {
                return Err(refusal_at(fault, behind(pos, &rest[..before])));
            }
        };
        pos = behind(pos, &rest[..len]);
        rest = &rest[len..];
    }
    found.push(Token {
        kind: TokenKind::EndOfFile,
        text: rest,
        pos,
    })?;
    Ok(found)
}
