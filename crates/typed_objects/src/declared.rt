//! Identifiers that are declared.
ghost use Rattle.std.specs.Prelude.{◌≡◌, ◌<◌, length, IfOk};
ghost use Rattle.resolved_tree.specs.Nodes.{code_at};
ghost use Rattle.type_definitions.specs.Gathered.{declared_number, declared_text, front_number};

use ada_tree::Word;
use resolved_tree::{CodeNode, Rows};
use spark_base::Listed;
use std::alloc::{AllocError, Global};

/// The number of the declaration that an identifier makes or completes.
pub fn declared_number(rows: &Rows, name: usize) -> u32
    requires { name < length rows.now.1 }
    ensures { result ≡ declared_number (code_at rows.now name) }
{
    match rows.code(name) {
        CodeNode::Declared { number, .. } => *number,
        _ => 0,
    }
}

/// The text of an identifier that is declared.
pub fn declared_text(alloc: Global, rows: &Rows, name: usize) -> Result<Word, AllocError>
    requires { name < length rows.now.1 }
    ensures { IfOk result (λ word. word ≡ declared_text (code_at rows.now name)) }
{
    match rows.code(name) {
        CodeNode::Declared { text, .. } => text.clone(),
        _ => Ok(Word::from_listed(Listed::new(alloc))),
    }
}

/// The number of the declaration that a front makes or completes.
pub fn front_number(rows: &Rows, front: usize) -> u32
    requires { front < length rows.now.1 }
    ensures { result ≡ front_number (code_at rows.now front) }
{
    match rows.code(front) {
        CodeNode::Front { name, .. } => declared_number(rows, *name),
        _ => 0,
    }
}
