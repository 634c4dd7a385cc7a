//! The words of the objects that code declares.
ghost use Rattle.std.specs.Prelude.{◌≡◌, ◌<◌, ◌+◌, length, get_or, IfOk};
ghost use Rattle.typed_tree.specs.Nodes.{typed_code_at};
ghost use Rattle.flow_paths.specs.Laid.{object_words};
ghost use Rattle.program_typing.specs.Typings.{typing};
ghost use Rattle.sub_layout.specs.Words.{words_within, AreWords};

use program_typing::ProgramTyping;
use std::alloc::{AllocError, Global};
use typed_tree::{TypedCodeNode, TypedRows};

/// A sum of words. More than can be counted is out of memory.
pub(crate) fn plus(a: u64, b: u64) -> Result<u64, AllocError>
    ensures { IfOk result (λ sum. sum ≡ a + b) }
{
    match a.checked_add(b) {
        Some(sum) => Ok(sum),
        None => Err(AllocError),
    }
}

/// The words of the node with this number.
pub(crate) fn at(words: &[u64], c: usize) -> u64
    ensures { result ≡ get_or words.now c 0 }
{
    match words.get(c) {
        Some(count) => *count,
        None => 0,
    }
}

/// The words of an object.
fn object_words(program: &ProgramTyping<'_>, x: u32) -> u64
    ensures { result ≡ object_words (typing program.now) x }
{
    u64::from(program.words(program.object_type(x)))
}

/// The words of the objects that a node of code declares, made of those of its parts.
#[tactic(auto, using(crate::proofs::WordSums::words_joined), unfolding(flow_paths::specs::Laid::declared_within))]
fn node_words(
    program: &ProgramTyping<'_>,
    rows: &TypedRows,
    c: usize,
    words: &[u64],
) -> Result<u64, AllocError>
    requires node { c < length rows.now.1 }
    requires parts { AreWords (typing program.now) rows.now c words.now }
    ensures { IfOk result (λ made. made ≡ words_within (typing program.now) (typed_code_at rows.now c)) }
{
    match rows.code(c) {
        TypedCodeNode::Declare { object, .. } => Ok(object_words(program, *object)),
        TypedCodeNode::For {
            parameter,
            stmts,
            ..
        } => plus(object_words(program, *parameter), at(words, *stmts)),
        TypedCodeNode::If {
            branches: first,
            otherwise: second,
        }
        | TypedCodeNode::More {
            first,
            rest: second,
        } => plus(at(words, *first), at(words, *second)),
        TypedCodeNode::Branch { stmts: part, .. }
        | TypedCodeNode::Case {
            alternatives: part,
            ..
        }
        | TypedCodeNode::When { stmts: part, .. }
        | TypedCodeNode::Loop { stmts: part }
        | TypedCodeNode::While { stmts: part, .. }
        | TypedCodeNode::Block { stmts: part, .. } => Ok(at(words, *part)),
        _ => Ok(0),
    }
}

/// By the number of each node of code, the words of the objects that it declares, those of inner
/// blocks and the parameters of loops included. The only error is out of memory.
pub fn declared_words(
    alloc: Global,
    program: &ProgramTyping<'_>,
    rows: &TypedRows,
) -> Result<Vec<u64>, AllocError>
    ensures { IfOk result (λ words. AreWords (typing program.now) rows.now (length rows.now.1) words.items) }
{
    let mut words = Vec::new(alloc);
    'nodes: for c in 0..rows.code_len() {
        let count = node_words(program, rows, c, &words)?;
        words.push(count)?;
    }
    Ok(words)
}
