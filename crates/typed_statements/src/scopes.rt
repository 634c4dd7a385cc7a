//! The numbers of scopes.
ghost use Rattle.std.specs.Prelude.{◌≡◌, ◌<◌, ◌+◌, length, IfOk};
ghost use Rattle.resolved_tree.specs.Nodes.{code_at};
ghost use Rattle.typed_tree.specs.Statements.{scope_count};

use resolved_tree::{CodeNode, Rows};
use std::alloc::AllocError;

/// The number after another one: a number that has none is out of memory.
pub fn following(scope: u32) -> Result<u32, AllocError>
    ensures { IfOk result (λ n. n ≡ scope + 1) }
{
    match scope.checked_add(1) {
        Some(next) => Ok(next),
        None => Err(AllocError),
    }
}

/// The number of the scope that begins after two parts of code, where the first scope that begins
/// in them has the number `from`.
#[cycle(scopes)]
fn behind_both(rows: &Rows, first: usize, second: usize, from: u32) -> Result<u32, AllocError>
    requires first { first < length rows.now.1 }
    requires second { second < length rows.now.1 }
    ensures { IfOk result (λ n. n ≡ from + (scope_count (code_at rows.now first) + scope_count (code_at rows.now second))) }
{
    let next = behind(rows, first, from)?;
    behind(rows, second, next)
}

/// The same, of code that is no list.
#[cycle(scopes)]
#[tactic(auto, unfolding(typed_tree::specs::Statements::scope_count))]
fn behind_one(rows: &Rows, code: usize, from: u32) -> Result<u32, AllocError>
    requires { code < length rows.now.1 }
    ensures { IfOk result (λ n. n ≡ from + scope_count (code_at rows.now code)) }
{
    match rows.code(code) {
        CodeNode::SubBody { items, stmts, .. } | CodeNode::Block { items, stmts, .. } => {
            let inner = following(from)?;
            behind_both(rows, *items, *stmts, inner)
        }
        CodeNode::Package {
            visible,
            hidden,
            ..
        } => behind_both(rows, *visible, *hidden, from),
        CodeNode::If {
            branches,
            otherwise,
            ..
        } => behind_both(rows, *branches, *otherwise, from),
        CodeNode::More { first, rest } => behind_both(rows, *first, *rest, from),
        CodeNode::PackageBody { parts: inner, .. }
        | CodeNode::Branch { stmts: inner, .. }
        | CodeNode::Case {
            alternatives: inner,
            ..
        }
        | CodeNode::When { stmts: inner, .. }
        | CodeNode::Loop { stmts: inner, .. }
        | CodeNode::While { stmts: inner, .. } => behind(rows, *inner, from),
        CodeNode::For { stmts, .. } => {
            let inner = following(from)?;
            behind(rows, *stmts, inner)
        }
        _ => Ok(from),
    }
}

/// The number of the scope that begins after some code, where the first scope that begins in it
/// has the number `from`.
#[cycle(scopes)]
#[tactic(auto, unfolding(typed_tree::specs::Statements::scope_count))]
pub fn behind(rows: &Rows, code: usize, from: u32) -> Result<u32, AllocError>
    requires { code < length rows.now.1 }
    ensures { IfOk result (λ n. n ≡ from + scope_count (code_at rows.now code)) }
{
    let mut next = from;
    let mut i = code;
    'parts: while let CodeNode::More { first, rest } = rows.code(i) {
        next = behind_one(rows, *first, next)?;
        i = *rest;
    }
    behind_one(rows, i, next)
}
