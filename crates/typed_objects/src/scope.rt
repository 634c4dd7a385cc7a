//! The scopes of a program.
ghost use Rattle.std.specs.Prelude.{◌≡◌, ◌<◌, ◌+◌, ◌∷◌, [], ◌++◌, All, IfOk, OnOk, length, map};
ghost use Rattle.resolved_tree.specs.Nodes.{code_at};
ghost use Rattle.typed_tree.specs.Statements.{scope_count};
ghost use Rattle.typed_tree.specs.Programs.{over_units, scopes_in};

use crate::narrowed::narrowed;
use resolved_tree::{CodeNode, Rows};
use std::alloc::{AllocError, Global};

/// A scope begins within another. Gives its number: how many there were before.
fn begin(around: u32, found: &mut Vec<u32>) -> Result<u32, AllocError>
    ensures found { OnOk result (found.new.items ≡ found.old.items ++ around ∷ []) }
    ensures number { IfOk result (λ n. n ≡ length found.old.items) }
{
    let number = narrowed(found.len())?;
    found.push(around)?;
    Ok(number)
}

/// Adds the scopes that begin in one part of code and in another after it.
#[cycle(walk)]
fn both(
    rows: &Rows,
    around: u32,
    first: usize,
    second: usize,
    found: &mut Vec<u32>,
) -> Result<(), AllocError>
    requires first { first < length rows.now.1 }
    requires second { second < length rows.now.1 }
    ensures scopes { OnOk result (found.new.items ≡ found.old.items ++ scopes_in around (length found.old.items) (code_at rows.now first)
        ++ scopes_in around (length found.old.items + scope_count (code_at rows.now first)) (code_at rows.now second)) }
    ensures count { OnOk result (length found.new.items
        ≡ length found.old.items + (scope_count (code_at rows.now first) + scope_count (code_at rows.now second))) }
{
    within(rows, around, first, found)?;
    within(rows, around, second, found)
}

/// Adds a scope, and those that begin in the items and in the statements of it.
#[cycle(walk)]
fn region(
    rows: &Rows,
    around: u32,
    items: usize,
    stmts: usize,
    found: &mut Vec<u32>,
) -> Result<(), AllocError>
    requires items { items < length rows.now.1 }
    requires stmts { stmts < length rows.now.1 }
    ensures scopes { OnOk result (found.new.items ≡ found.old.items ++ around
        ∷ scopes_in (length found.old.items) (length found.old.items + 1) (code_at rows.now items)
        ++ scopes_in (length found.old.items) (length found.old.items + 1 + scope_count (code_at rows.now items)) (code_at rows.now stmts)) }
    ensures count { OnOk result (length found.new.items
        ≡ length found.old.items + (1 + (scope_count (code_at rows.now items) + scope_count (code_at rows.now stmts)))) }
{
    let number = begin(around, found)?;
    both(rows, number, items, stmts, found)
}

/// Adds the scope of a `for` loop, and those that begin in its statements.
#[cycle(walk)]
fn for_loop(rows: &Rows, around: u32, stmts: usize, found: &mut Vec<u32>) -> Result<(), AllocError>
    requires { stmts < length rows.now.1 }
    ensures scopes { OnOk result (found.new.items ≡ found.old.items ++ around
        ∷ scopes_in (length found.old.items) (length found.old.items + 1) (code_at rows.now stmts)) }
    ensures count { OnOk result (length found.new.items
        ≡ length found.old.items + (1 + scope_count (code_at rows.now stmts))) }
{
    let number = begin(around, found)?;
    within(rows, number, stmts, found)
}

/// Adds the scopes that begin in a declaration or statement.
#[cycle(walk)]
#[tactic(auto, unfolding(typed_tree::specs::Programs::scopes_in, typed_tree::specs::Statements::scope_count))]
fn one(rows: &Rows, around: u32, code: usize, found: &mut Vec<u32>) -> Result<(), AllocError>
    requires { code < length rows.now.1 }
    ensures scopes { OnOk result (found.new.items ≡ found.old.items ++ scopes_in around (length found.old.items) (code_at rows.now code)) }
    ensures count { OnOk result (length found.new.items ≡ length found.old.items + scope_count (code_at rows.now code)) }
{
    match rows.code(code) {
        CodeNode::SubBody { items, stmts, .. } | CodeNode::Block { items, stmts, .. } => {
            region(rows, around, *items, *stmts, found)
        }
        CodeNode::For { stmts, .. } => for_loop(rows, around, *stmts, found),
        CodeNode::Package {
            visible: first,
            hidden: second,
            ..
        }
        | CodeNode::If {
            branches: first,
            otherwise: second,
            ..
        }
        | CodeNode::More {
            first,
            rest: second,
        } => both(rows, around, *first, *second, found),
        CodeNode::PackageBody { parts: inner, .. }
        | CodeNode::Case {
            alternatives: inner,
            ..
        }
        | CodeNode::Branch { stmts: inner, .. }
        | CodeNode::When { stmts: inner, .. }
        | CodeNode::Loop { stmts: inner, .. }
        | CodeNode::While { stmts: inner, .. } => within(rows, around, *inner, found),
        _ => Ok(()),
    }
}

/// Adds the scopes that begin in some code, of each the one around it. A list is gone along, so
/// that the depth of calls is that of nesting.
#[cycle(walk)]
#[tactic(auto, unfolding(typed_tree::specs::Programs::scopes_in, typed_tree::specs::Statements::scope_count))]
fn within(rows: &Rows, around: u32, code: usize, found: &mut Vec<u32>) -> Result<(), AllocError>
    requires { code < length rows.now.1 }
    ensures scopes { OnOk result (found.new.items ≡ found.old.items ++ scopes_in around (length found.old.items) (code_at rows.now code)) }
    ensures count { OnOk result (length found.new.items ≡ length found.old.items + scope_count (code_at rows.now code)) }
{
    let mut i = code;
    'parts: while let CodeNode::More { first, rest } = rows.code(i) {
        one(rows, around, *first, found)?;
        i = *rest;
    }
    one(rows, around, i, found)
}

/// For each scope of a program, its enclosing scope. Scope 0 encloses itself. `rows` has the code
/// of the program, and `units` are the numbers of its units in the order of their text. The only
/// error is out of memory.
pub fn scopes(alloc: Global, rows: &Rows, units: &[usize]) -> Result<Vec<u32>, AllocError>
    requires { All (λ u. u < length rows.now.1) units.now }
    ensures { IfOk result (λ made. made.items ≡ 0 ∷ over_units (scopes_in 0) 1 (map (code_at rows.now) units.now)) }
{
    let mut found = Vec::new(alloc);
    found.push(0)?;
    'units: for unit in units {
        within(rows, 0, *unit, &mut found)?;
    }
    Ok(found)
}
