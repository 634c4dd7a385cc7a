//! The actuals of a call that are names.
ghost use Rattle.std.specs.Prelude.{◌≡◌, map, IfOk};
ghost use Rattle.typed_tree.specs.Nodes.{typed_at};
ghost use Rattle.flow_paths.specs.Names.{written};
ghost use Rattle.flow_paths.specs.Aliases.{passed_as, passed};
ghost use Rattle.alias_rules.specs.Told.{passed_of, found_of};
ghost use Rattle.alias_rules.specs.Steps.{AreShallow};

use crate::places::{first_cell, place};
use place_names::PlaceName;
use spark_base::Pos;
use std::alloc::{AllocError, Global};
use typed_tree::{TypedNode, TypedRows};

/// An actual that is a name as a whole expression, and its formal.
#[derive(Drop)]
pub(crate) struct Passed {
    pub formal: u32,
    /// The position of its first token.
    pub pos: Pos,
    pub name: PlaceName,
    /// Its type.
    pub of: u32,
}

/// An actual, where it is a name.
fn named_actual(rows: &TypedRows, formal: u32, e: usize) -> Option<Passed>
    requires { AreShallow (passed_as formal (written (typed_at rows.now e))) }
    ensures { found_of result ≡ passed_as formal (written (typed_at rows.now e)) }
{
    if e >= rows.len() {
        return None;
    }
    match rows.node(e) {
        TypedNode::Name {
            pos,
            object,
            steps,
            of,
        } => Some(Passed {
            formal,
            pos: *pos,
            name: place(rows, *object, *steps),
            of: *of,
        }),
        _ => None,
    }
}

/// The actuals of a call that are names, in the order of the formals.
pub(crate) fn named_actuals(
    alloc: Global,
    rows: &TypedRows,
    formals: &[u32],
    actuals: usize,
) -> Result<Vec<Passed>, AllocError>
    requires { AreShallow (passed formals.now (typed_at rows.now actuals)) }
    ensures { IfOk result (λ names. map passed_of names.items ≡ passed formals.now (typed_at rows.now actuals)) }
{
    let mut names = Vec::new(alloc);
    let mut at = actuals;
    'formals: for formal in formals {
        let Some(cell) = first_cell(rows, at) else {
            return Ok(names);
        };
        if let Some(name) = named_actual(rows, *formal, cell.first) {
            names.push(name)?;
        }
        at = cell.rest;
    }
    Ok(names)
}
