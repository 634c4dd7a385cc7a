//! Where the specification of each package stands.
ghost use Rattle.std.specs.Prelude.{◌≡◌, ◌<◌, ◌∷◌, All, IfOk, List, length, map};
ghost use Rattle.resolved_tree.specs.Trees.{Code};
ghost use Rattle.resolved_tree.specs.Nodes.{code_at};
ghost use Rattle.typed_objects.specs.Walks.{package_number, IsPackaged};

use crate::declared::declared_number;
use resolved_tree::{CodeNode, Rows};
use std::alloc::{AllocError, Global};

/// The number of the package that a unit specifies.
fn package_number(rows: &Rows, unit: usize) -> u32
    requires { unit < length rows.now.1 }
    ensures { result ≡ package_number (code_at rows.now unit) }
{
    match rows.code(unit) {
        CodeNode::Package { name, .. } => declared_number(rows, *name),
        _ => 0,
    }
}

/// One more than the greatest number of the packages that units specify.
fn end(rows: &Rows, units: &[usize]) -> usize
    requires { All (λ u. u < length rows.now.1) units.now }
    ensures { All (λ u. package_number (code_at rows.now u) < result) units.now }
{
    let mut end = 0;
    'units: for unit in units {
        end = end.max(package_number(rows, *unit) as usize + 1);
    }
    end
}

/// Says where the specification of a package stands, where a unit is one.
fn place(rows: &Rows, unit: usize, table: &mut Vec<Option<usize>>)
    requires unit { unit < length rows.now.1 }
    requires number { package_number (code_at rows.now unit) < length table.old.items }
    ensures length { length table.new.items ≡ length table.old.items }
    ensures packaged { (rest : List Code) → IsPackaged rows.now rest table.old.items
        → IsPackaged rows.now (code_at rows.now unit ∷ rest) table.new.items }
{
    if let CodeNode::Package { name, .. } = rows.code(unit) {
        table[declared_number(rows, *name) as usize] = Some(*name);
    }
}

/// By the number of a package, the identifier in its specification.
pub fn packages(
    alloc: Global,
    rows: &Rows,
    units: &[usize],
) -> Result<Vec<Option<usize>>, AllocError>
    requires { All (λ u. u < length rows.now.1) units.now }
    ensures { IfOk result (λ table. IsPackaged rows.now (map (code_at rows.now) units.now) table.items) }
{
    let mut table = vec![in alloc; None; end(rows, units)]?;
    let mut left = units.len();
    'units: while left > 0 {
        left -= 1;
        place(rows, units[left], &mut table);
    }
    Ok(table)
}
