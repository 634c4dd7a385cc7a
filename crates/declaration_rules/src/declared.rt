//! Identifiers that are declared, and lists of these.
ghost use Rattle.std.specs.Prelude.{◌≡◌, ◌<◌, length};
ghost use Rattle.resolved_tree.specs.Nodes.{code_at};
ghost use Rattle.type_definitions.specs.Declarations.{first_number, first_pos, has_none, is_single};
ghost use Rattle.type_definitions.specs.Gathered.{declared_number, declared_pos};

use expression_types::Reader;
use resolved_tree::CodeNode;
use spark_base::Pos;

/// The position of code that has none.
pub const NOWHERE: Pos = Pos {
    file: 0,
    line: 0,
    column: 0,
};

/// The position of an identifier that is declared.
pub fn declared_pos(reader: &Reader<'_>, name: usize) -> Pos
    requires { name < length reader.now.rows.now.1 }
    ensures { result ≡ declared_pos (code_at reader.now.rows.now name) }
{
    match reader.rows.code(name) {
        CodeNode::Declared { pos, .. } => *pos,
        _ => NOWHERE,
    }
}

/// The number of the declaration that it makes or completes.
pub fn declared_number(reader: &Reader<'_>, name: usize) -> u32
    requires { name < length reader.now.rows.now.1 }
    ensures { result ≡ declared_number (code_at reader.now.rows.now name) }
{
    match reader.rows.code(name) {
        CodeNode::Declared { number, .. } => *number,
        _ => 0,
    }
}

/// The position of the first of a list of them.
pub fn first_pos(reader: &Reader<'_>, names: usize) -> Pos
    requires { names < length reader.now.rows.now.1 }
    ensures { result ≡ first_pos (code_at reader.now.rows.now names) }
{
    match reader.rows.code(names) {
        CodeNode::More { first, .. } => declared_pos(reader, *first),
        _ => NOWHERE,
    }
}

/// The number of the first of a list of them.
pub fn first_number(reader: &Reader<'_>, names: usize) -> u32
    requires { names < length reader.now.rows.now.1 }
    ensures { result ≡ first_number (code_at reader.now.rows.now names) }
{
    match reader.rows.code(names) {
        CodeNode::More { first, .. } => declared_number(reader, *first),
        _ => 0,
    }
}

/// Whether a list has one item.
pub fn is_single(reader: &Reader<'_>, list: usize) -> bool
    requires { list < length reader.now.rows.now.1 }
    ensures { result ≡ is_single (code_at reader.now.rows.now list) }
{
    match reader.rows.code(list) {
        CodeNode::More { rest, .. } => matches!(reader.rows.code(*rest), CodeNode::NoMore),
        _ => false,
    }
}

/// Whether a list has no item.
pub fn has_none(reader: &Reader<'_>, list: usize) -> bool
    requires { list < length reader.now.rows.now.1 }
    ensures { result ≡ has_none (code_at reader.now.rows.now list) }
{
    !matches!(reader.rows.code(list), CodeNode::More { .. })
}
