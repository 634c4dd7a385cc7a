//! Identifiers that are declared.
ghost use Rattle.std.specs.Prelude.{◌≡◌, ◌<◌, ◌+◌, length, IfOk};
ghost use Rattle.resolved_tree.specs.Nodes.{code_at};
ghost use Rattle.type_definitions.specs.Gathered.{declared_number, declared_pos, declared_text, texts};

use ada_tree::Word;
use resolved_tree::{CodeNode, Rows};
use spark_base::{Listed, Pos};
use std::alloc::{AllocError, Global};

/// The position of an identifier that is declared.
pub fn declared_pos(rows: &Rows, name: usize) -> Pos
    requires { name < length rows.now.1 }
    ensures { result ≡ declared_pos (code_at rows.now name) }
{
    match rows.code(name) {
        CodeNode::Declared { pos, .. } => *pos,
        _ => Pos {
            file: 0,
            line: 0,
            column: 0,
        },
    }
}

/// The number of the declaration that an identifier makes or completes.
pub fn declared_number(rows: &Rows, name: usize) -> u32
    requires { name < length rows.now.1 }
    ensures { result ≡ declared_number (code_at rows.now name) }
{
    match rows.code(name) {
        CodeNode::Declared { number, .. } => *number,
        _ => 0,
    }
}

/// The text of an identifier that is declared.
pub fn declared_text(alloc: Global, rows: &Rows, name: usize) -> Result<Word, AllocError>
    requires { name < length rows.now.1 }
    ensures { IfOk result (λ word. word ≡ declared_text (code_at rows.now name)) }
{
    match rows.code(name) {
        CodeNode::Declared { text, .. } => Ok(text.clone()?),
        _ => Ok(Word::from_listed(Listed::new(alloc))),
    }
}

/// The texts of a list of identifiers.
pub fn texts(alloc: Global, rows: &Rows, names: usize) -> Result<Listed<Word>, AllocError>
    requires { names < length rows.now.1 }
    ensures { IfOk result (λ found. found ≡ texts (code_at rows.now names)) }
{
    let mut found = Listed::new(alloc);
    let mut i = names;
    'names: while let CodeNode::More { first, rest } = rows.code(i) {
        found.push(declared_text(alloc, rows, *first)?)?;
        i = *rest;
    }
    Ok(found)
}
