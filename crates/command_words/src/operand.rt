//! Options and operands.
ghost use Rattle.std.specs.Prelude.{◌≡◌, ◌++◌, [], ◌∷◌, filter, not, map, string_bytes, IfOk};
ghost use Rattle.spark_base.specs.Words.{is_option};

use std::alloc::{AllocError, Global};

/// Whether a word begins with a hyphen.
fn is_option(word: &String) -> bool
    ensures { result ≡ is_option (string_bytes word.now) }
{
    match word.as_bytes().first() {
        Some(byte) => *byte == b'-',
        None => false,
    }
}

/// Adds a copy of a word.
#[tactic(auto, using(crate::proofs::Texts::words_pushed))]
fn keep(alloc: Global, made: &mut Vec<String>, word: &String) -> Result<(), AllocError>
    ensures { IfOk result (λ _. map string_bytes made.new.items ≡ map string_bytes made.old.items ++ string_bytes word.now ∷ []) }
{
    let word = String::from_str(alloc, word.as_str())?;
    made.push(word)?;
    Ok(())
}

/// Those of some words that begin with a hyphen, in order.
pub(crate) fn options(alloc: Global, words: &[String]) -> Result<Vec<String>, AllocError>
    ensures { IfOk result (λ made. map string_bytes made.items ≡ filter is_option (map string_bytes words.now)) }
{
    let mut made = Vec::new(alloc);
    'words: for word in words {
        if is_option(word) {
            keep(alloc, &mut made, word)?;
        }
    }
    Ok(made)
}

/// The others, in order.
pub(crate) fn operands(alloc: Global, words: &[String]) -> Result<Vec<String>, AllocError>
    ensures { IfOk result (λ made. map string_bytes made.items ≡ filter (λ word. not (is_option word)) (map string_bytes words.now)) }
{
    let mut made = Vec::new(alloc);
    'words: for word in words {
        if !is_option(word) {
            keep(alloc, &mut made, word)?;
        }
    }
    Ok(made)
}
