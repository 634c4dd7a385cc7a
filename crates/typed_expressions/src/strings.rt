//! The characters of strings (Ada 2012, 2.6).
ghost use Rattle.std.specs.Prelude.{◌≡◌, IfOk, drop, false};
ghost use Rattle.typed_tree.specs.Expressions.{characters, characters_behind};

use ada_tree::Word;
use spark_base::Listed;
use std::alloc::{AllocError, Global};

/// A double quote.
const QUOTE: u8 = 34;

/// The bytes after the first.
fn behind_first(bytes: &[u8]) -> &[u8]
    ensures { result.now ≡ drop 1 bytes.now }
{
    match bytes.split_first() {
        Some((_, rest)) => rest,
        None => bytes,
    }
}

/// What follows a quote up to the next one, with one quote for two.
fn unquoted(alloc: Global, bytes: &[u8]) -> Result<Vec<u8>, AllocError>
    ensures { IfOk result (λ made. made.items ≡ characters_behind false bytes.now) }
{
    let mut made = Vec::new(alloc);
    let mut quoted = false;
    'bytes: for byte in bytes {
        let stands = quoted || *byte != QUOTE;
        quoted = !quoted && *byte == QUOTE;
        if stands {
            made.push(*byte)?;
        }
    }
    Ok(made)
}

/// The characters of a string, without the quotes around it.
#[tactic(auto, unfolding(typed_tree::specs::Expressions::characters))]
pub fn characters(alloc: Global, text: &Word) -> Result<Word, AllocError>
    ensures { IfOk result (λ word. word ≡ characters text.now) }
{
    let made = unquoted(alloc, behind_first(text.as_bytes()))?;
    Ok(Word::from_listed(Listed::from_vec(made)))
}
