//! What units stand for.
#![tactic(auto, using(crate::proofs::Steps::before_step, resolved_tree::proofs::Grown::grew_on, resolved_tree::proofs::Grown::kept, resolved_tree::proofs::Grown::kept_code, std::proofs::lemmas::Grind::common_steps), unfolding(crate::specs::Lowered::part_before, crate::specs::Lowered::lowered_package, crate::specs::Lowered::lowered_package_body, crate::specs::Lowered::lowered_unit, crate::specs::Lowered::lowered_files))]

ghost use Rattle.std.specs.Prelude.{◌≡◌, ◌++◌, ◌<◌, IfOk, List, OnOk, length, map, ℕ};
ghost use Rattle.resolved_tree.specs.Trees.{Code};
ghost use Rattle.resolved_tree.specs.Nodes.{code_at, Grew, HoldsCode, HoldsAllCode};
ghost use Rattle.tree_lowering.specs.Lowered.{before_all, lowered_files, lowered_package, lowered_package_body, lowered_private, lowered_unit, part_before};

use crate::identifiers::declared;
use crate::subprograms::{decl, decls, subprogram};
use ada_tree::{BodyPart, Package, PackageBody, PrivatePart, SourceUnit, Trees};
use expression_lowering::NumberIndex;
use resolved_tree::{CodeNode, Rows};
use std::alloc::{AllocError, Global};

/// decl | subbody, before others
fn body_part(
    tree: &BodyPart,
    rest: usize,
    numbers: &NumberIndex,
    rows: &mut Rows,
) -> Result<usize, AllocError>
    requires { rest < length rows.old.1 }
    ensures code { IfOk result (λ n. HoldsCode rows.new n (part_before numbers.now (code_at rows.old rest) tree.now)) }
    ensures grew { Grew rows.old rows.new }
{
    match tree {
        BodyPart::Declared { decl: part, .. } => decl(part.get(), rest, numbers, rows),
        BodyPart::Completed { body, .. } => {
            let first = subprogram(body.get(), numbers, rows)?;
            rows.push_code(CodeNode::More { first, rest })
        }
    }
}

/// {decl | subbody}
fn body_parts(
    trees: &[BodyPart],
    numbers: &NumberIndex,
    rows: &mut Rows,
) -> Result<usize, AllocError>
    ensures code { IfOk result (λ n. HoldsCode rows.new n (before_all (part_before numbers.now) trees.now)) }
    ensures grew { Grew rows.old rows.new }
{
    let mut made = rows.push_code(CodeNode::NoMore)?;
    let mut left = trees.len();
    'turns: while left > 0 {
        left -= 1;
        made = body_part(&trees[left], made, numbers, rows)?;
    }
    Ok(made)
}

/// [`private` {decl}]
fn private_part(
    tree: &Option<PrivatePart>,
    numbers: &NumberIndex,
    rows: &mut Rows,
) -> Result<usize, AllocError>
    ensures code { IfOk result (λ n. HoldsCode rows.new n (lowered_private numbers.now tree.now)) }
    ensures grew { Grew rows.old rows.new }
{
    match tree {
        None => rows.push_code(CodeNode::NoMore),
        Some(part) => decls(part.decls.as_slice(), numbers, rows),
    }
}

/// package
fn package(tree: &Package, numbers: &NumberIndex, rows: &mut Rows) -> Result<usize, AllocError>
    ensures code { IfOk result (λ n. HoldsCode rows.new n (lowered_package numbers.now tree.now)) }
    ensures grew { Grew rows.old rows.new }
{
    let name = declared(&tree.name, numbers, rows)?;
    let visible = decls(tree.visible.as_slice(), numbers, rows)?;
    let hidden = private_part(&tree.private, numbers, rows)?;
    rows.push_code(CodeNode::Package {
        name,
        visible,
        hidden,
    })
}

/// packbody
fn package_body(
    tree: &PackageBody,
    numbers: &NumberIndex,
    rows: &mut Rows,
) -> Result<usize, AllocError>
    ensures code { IfOk result (λ n. HoldsCode rows.new n (lowered_package_body numbers.now tree.now)) }
    ensures grew { Grew rows.old rows.new }
{
    let name = declared(&tree.name, numbers, rows)?;
    let parts = body_parts(tree.parts.as_slice(), numbers, rows)?;
    rows.push_code(CodeNode::PackageBody { name, parts })
}

/// unit
fn unit(tree: &SourceUnit, numbers: &NumberIndex, rows: &mut Rows) -> Result<usize, AllocError>
    ensures code { IfOk result (λ n. HoldsCode rows.new n (lowered_unit numbers.now tree.now)) }
    ensures grew { Grew rows.old rows.new }
{
    match tree {
        SourceUnit::OfPackage { package: whole, .. } => package(whole.get(), numbers, rows),
        SourceUnit::OfBody { body, .. } => package_body(body.get(), numbers, rows),
        SourceUnit::OfSubprogram { body, .. } => subprogram(body.get(), numbers, rows),
    }
}

/// The units of a file, after others.
fn file(
    trees: &[SourceUnit],
    numbers: &NumberIndex,
    rows: &mut Rows,
    units: &mut Vec<usize>,
) -> Result<(), AllocError>
    ensures units { OnOk result ((codes : List Code) → HoldsAllCode rows.old units.old.items codes
        → HoldsAllCode rows.new units.new.items (codes ++ map (lowered_unit numbers.now) trees.now)) }
    ensures grew { Grew rows.old rows.new }
{
    'turns: for tree in trees {
        let made = unit(tree, numbers, rows)?;
        units.push(made)?;
    }
    Ok(())
}

/// Makes room for the nodes of a text with so many identifiers, as most texts have them.
fn make_room(identifiers: usize, rows: &mut Rows) -> Result<(), AllocError>
    ensures { rows.new ≡ rows.old }
{
    rows.reserve(identifiers.saturating_mul(2), identifiers.saturating_mul(3))
}

/// Makes code of all units of all files, in order, and gives the numbers of these. Out of memory,
/// the rows may have more nodes than before.
pub fn lower(
    alloc: Global,
    numbers: &NumberIndex,
    files: &[Trees],
    rows: &mut Rows,
) -> Result<Vec<usize>, AllocError>
    ensures units { IfOk result (λ units. HoldsAllCode rows.new units.items (lowered_files numbers.now (map (λ trees. trees.units) files.now))) }
    ensures grew { Grew rows.old rows.new }
{
    make_room(numbers.len(), rows)?;
    let mut units = Vec::new(alloc);
    'files: for trees in files {
        file(trees.as_slice(), numbers, rows, &mut units)?;
    }
    Ok(units)
}
