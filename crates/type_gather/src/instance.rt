//! Instances of Unchecked_Deallocation (Ada 2012, 13.11.2).
ghost use Rattle.std.specs.Prelude.{◌≡◌, ◌<◌, ◌+◌, length};
ghost use Rattle.resolved_tree.specs.Nodes.{tree_at};
ghost use Rattle.type_definitions.specs.Gathered.{actual_type, instance_actual, instance_type, is_for_name};

use ada_tree::Word;
use expression_types::{INTEGER, same_word};
use resolved_tree::{Node, Rows};

/// The type that an actual names.
fn actual_type(rows: &Rows, actual: usize) -> u32
    requires { actual < length rows.now.0 }
    ensures { result ≡ actual_type (tree_at rows.now actual) }
{
    match rows.node(actual) {
        Node::Named { decl, rest, .. } if matches!(rows.node(*rest), Node::NoMore) => *decl,
        _ => INTEGER,
    }
}

/// Whether an actual is for the formal Name: the second one is, or one with that name.
fn is_for_name(index: usize, name: &Option<Word>) -> bool
    ensures { result ≡ is_for_name index name.now }
{
    match name {
        None => index == 1,
        Some(word) => same_word(word.as_bytes(), b"Name"),
    }
}

/// The access type of an instance.
pub fn instance_type(rows: &Rows, args: usize) -> u32
    requires { args < length rows.now.0 }
    ensures { result ≡ instance_type (tree_at rows.now args) }
{
    let mut index = 0usize;
    let mut i = args;
    'actuals: while let Node::Argument { name, value, rest } = rows.node(i) {
        if is_for_name(index, name) {
            return actual_type(rows, *value);
        }
        index += 1;
        i = *rest;
    }
    INTEGER
}
