//! The objects whose scopes end with a block.
ghost use Rattle.std.specs.Prelude.{◌≡◌, ◌<◌, ◌++◌, length, get_or, IfOk, OnOk};
ghost use Rattle.typed_tree.specs.Nodes.{typed_code_at};
ghost use Rattle.flow_paths.specs.Layout.{declared};
ghost use Rattle.bare_points.specs.Spans.{ends_of, owned};

use std::alloc::{AllocError, Global};
use typed_tree::{TypedCodeNode, TypedRows};

/// Adds the objects that a statement, or a list of statements, declares itself.
#[cycle(walk)]
#[tactic(auto, unfolding(flow_paths::specs::Layout::declared))]
fn one(rows: &TypedRows, code: usize, found: &mut Vec<u32>) -> Result<(), AllocError>
    requires { code < length rows.now.1 }
    ensures { OnOk result (found.new.items ≡ found.old.items ++ declared (typed_code_at rows.now code)) }
{
    match rows.code(code) {
        TypedCodeNode::Declare { object, .. } => Ok(found.push(*object)?),
        TypedCodeNode::More { first, rest } => {
            within(rows, *first, found)?;
            within(rows, *rest, found)
        }
        _ => Ok(()),
    }
}

/// Adds the objects that code declares itself, in order: not in inner blocks.
#[cycle(walk)]
#[tactic(auto, unfolding(flow_paths::specs::Layout::declared))]
fn within(rows: &TypedRows, code: usize, found: &mut Vec<u32>) -> Result<(), AllocError>
    requires { code < length rows.now.1 }
    ensures { OnOk result (found.new.items ≡ found.old.items ++ declared (typed_code_at rows.now code)) }
{
    let mut i = code;
    'parts: while let TypedCodeNode::More { first, rest } = rows.code(i) {
        one(rows, *first, found)?;
        i = *rest;
    }
    one(rows, i, found)
}

/// Whether scopes end at points of their own.
#[derive(Drop)]
pub struct Ends {
    /// By the number of an object, whether its scope does.
    pub own: Vec<bool>,
    /// Whether that of an object whose number isn't among these does.
    pub other: bool,
}

/// Whether the scope of an object ends at a point.
fn has_end(ends: &Ends, x: u32) -> bool
    ensures { result ≡ ends_of ends.now x }
{
    match ends.own.get(x as usize) {
        Some(has) => *has,
        None => ends.other,
    }
}

/// The objects that code declares itself whose scopes end at points, the last one first.
pub fn owned(
    alloc: Global,
    rows: &TypedRows,
    ends: &Ends,
    code: usize,
) -> Result<Vec<u32>, AllocError>
    requires { code < length rows.now.1 }
    ensures { IfOk result (λ made. made.items ≡ owned (ends_of ends.now) (typed_code_at rows.now code)) }
{
    let mut found = Vec::new(alloc);
    within(rows, code, &mut found)?;
    found.reverse();
    let mut made = Vec::new(alloc);
    'found: for x in &found {
        if has_end(ends, *x) {
            made.push(*x)?;
        }
    }
    Ok(made)
}
