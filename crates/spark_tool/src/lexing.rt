//! Cuts all files into tokens.
ghost use Rattle.std.specs.Prelude.{◌≡◌, ◌≢◌, ◌<◌, ◌≤◌, Ok, Err, IfOk, IfErr, IfSome, All, length, slice_get};
ghost use Rattle.ada_lexer.specs.Tokens.{EndsOnce, kinds_of};
ghost use Rattle.source_trees.specs.Cuts.{all_tokens};
ghost use Rattle.spark_tool.specs.Lexing.{texts_of, cuts_of, IsAmong};

use ada_lexer::{LexRefusal, Token, lex};
use spark_base::{FILES, SOURCE_BYTES, TOKENS};
use std::alloc::Global;

/// The tokens of each file, or the first lexical fault of all files in order. The files share the
/// room for tokens.
pub(crate) fn lex_all<'s>(
    alloc: Global,
    texts: &'s [Vec<u8>],
) -> Result<Vec<Vec<Token<'s>>>, LexRefusal>
    requires small { All (λ text. length text.items ≤ SOURCE_BYTES) texts.now }
    requires few { length texts.now ≤ FILES }
    ensures found { IfOk result (λ found. all_tokens 0 TOKENS (texts_of texts.now) ≡ Ok (cuts_of found.items)) }
    ensures fault { IfErr result (λ fault. fault ≢ LexRefusal.Memory → all_tokens 0 TOKENS (texts_of texts.now) ≡ Err fault) }
    ensures among { IfErr result (λ fault. IsAmong (length texts.now) fault) }
    ensures files { IfOk result (λ found. length found.items ≡ length texts.now) }
    ensures first { IfOk result (λ found. IfSome (slice_get found.items 0) (λ tokens. All (λ token. token.pos.file ≡ 0) tokens.items)) }
    ensures within { IfOk result (λ found. All (λ file. All (λ token. token.pos.file < length texts.now) file.items) found.items) }
    ensures ends { IfOk result (λ found. All (λ file. EndsOnce (kinds_of file.items)) found.items) }
{
    let mut found = Vec::new(alloc);
    let mut room = TOKENS;
    let mut file = 0u16;
    'files: for text in texts {
        let tokens = lex(alloc, file, text, room)?;
        room = room.saturating_sub(tokens.len() as u32 - 1);
        found.push(tokens)?;
        file += 1;
    }
    Ok(found)
}
