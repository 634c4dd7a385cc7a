//! Identifiers that are declared, and fronts of subprograms.
ghost use Rattle.std.specs.Prelude.{◌≡◌, ◌<◌, length};
ghost use Rattle.resolved_tree.specs.Nodes.{code_at};
ghost use Rattle.type_definitions.specs.Declarations.{first_number, front_pos};
ghost use Rattle.type_definitions.specs.Gathered.{declared_number, declared_pos, front_number, indicated};

use expression_types::{INTEGER, Reader};
use resolved_tree::{CodeNode, Rows};
use spark_base::Pos;

/// The position of code that has none.
const NOWHERE: Pos = Pos {
    file: 0,
    line: 0,
    column: 0,
};

/// The position of an identifier that is declared.
pub fn declared_pos(rows: &Rows, name: usize) -> Pos
    requires { name < length rows.now.1 }
    ensures { result ≡ declared_pos (code_at rows.now name) }
{
    match rows.code(name) {
        CodeNode::Declared { pos, .. } => *pos,
        _ => NOWHERE,
    }
}

/// The number of the declaration that it makes or completes.
pub fn declared_number(rows: &Rows, name: usize) -> u32
    requires { name < length rows.now.1 }
    ensures { result ≡ declared_number (code_at rows.now name) }
{
    match rows.code(name) {
        CodeNode::Declared { number, .. } => *number,
        _ => 0,
    }
}

/// The number of the first of a list of them.
pub fn first_number(rows: &Rows, names: usize) -> u32
    requires { names < length rows.now.1 }
    ensures { result ≡ first_number (code_at rows.now names) }
{
    match rows.code(names) {
        CodeNode::More { first, .. } => declared_number(rows, *first),
        _ => 0,
    }
}

/// The position of the identifier of a subprogram.
pub fn front_pos(rows: &Rows, front: usize) -> Pos
    requires { front < length rows.now.1 }
    ensures { result ≡ front_pos (code_at rows.now front) }
{
    match rows.code(front) {
        CodeNode::Front { name, .. } => declared_pos(rows, *name),
        _ => NOWHERE,
    }
}

/// The number of its declaration.
pub fn front_number(rows: &Rows, front: usize) -> u32
    requires { front < length rows.now.1 }
    ensures { result ≡ front_number (code_at rows.now front) }
{
    match rows.code(front) {
        CodeNode::Front { name, .. } => declared_number(rows, *name),
        _ => 0,
    }
}

/// The type of an object with this number that is of what stands here.
pub fn indicated(reader: &Reader<'_>, d: u32, of: usize) -> u32
    requires { of < length reader.now.rows.now.1 }
    ensures { result ≡ indicated reader.now.known.now d (code_at reader.now.rows.now of) }
{
    match reader.rows.code(of) {
        CodeNode::Plain { mark } => reader.marked(*mark),
        CodeNode::Anonymous { .. } => d,
        _ => INTEGER,
    }
}
