//! The subprograms that have a body.
ghost use Rattle.std.specs.Prelude.{◌≡◌, ◌<◌, ◌++◌, All, IfOk, OnOk, flat_map, length, map};
ghost use Rattle.resolved_tree.specs.Nodes.{code_at};
ghost use Rattle.typed_tree.specs.Programs.{bodies_in};

use crate::declared::front_number;
use resolved_tree::{CodeNode, Rows};
use std::alloc::{AllocError, Global};

/// Adds the declaration of the subprogram whose body this is, or those of the bodies within that of
/// a package.
#[cycle(walk)]
#[tactic(auto, unfolding(typed_tree::specs::Programs::bodies_in))]
fn one(rows: &Rows, code: usize, found: &mut Vec<u32>) -> Result<(), AllocError>
    requires { code < length rows.now.1 }
    ensures { OnOk result (found.new.items ≡ found.old.items ++ bodies_in (code_at rows.now code)) }
{
    match rows.code(code) {
        CodeNode::SubBody { front, .. } => Ok(found.push(front_number(rows, *front))?),
        CodeNode::PackageBody { parts, .. } => within(rows, *parts, found),
        CodeNode::More { first, rest } => {
            within(rows, *first, found)?;
            within(rows, *rest, found)
        }
        _ => Ok(()),
    }
}

/// Adds the declarations of the subprograms whose bodies stand in some code.
#[cycle(walk)]
#[tactic(auto, unfolding(typed_tree::specs::Programs::bodies_in))]
fn within(rows: &Rows, code: usize, found: &mut Vec<u32>) -> Result<(), AllocError>
    requires { code < length rows.now.1 }
    ensures { OnOk result (found.new.items ≡ found.old.items ++ bodies_in (code_at rows.now code)) }
{
    let mut i = code;
    'parts: while let CodeNode::More { first, rest } = rows.code(i) {
        one(rows, *first, found)?;
        i = *rest;
    }
    one(rows, i, found)
}

/// The declarations of the subprograms whose bodies stand in the units, in the order of the bodies.
/// The only error is out of memory.
pub fn bodies(alloc: Global, rows: &Rows, units: &[usize]) -> Result<Vec<u32>, AllocError>
    requires { All (λ u. u < length rows.now.1) units.now }
    ensures { IfOk result (λ made. made.items ≡ flat_map bodies_in (map (code_at rows.now) units.now)) }
{
    let mut found = Vec::new(alloc);
    'units: for unit in units {
        within(rows, *unit, &mut found)?;
    }
    Ok(found)
}
