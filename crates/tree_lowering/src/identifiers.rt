//! Identifiers that are declared, and lists of code.
#![tactic(auto, using(expression_lowering::proofs::Steps::code_step, resolved_tree::proofs::Grown::grew_on, resolved_tree::proofs::Grown::kept, resolved_tree::proofs::Grown::kept_code, std::proofs::lemmas::Grind::common_steps), unfolding(crate::specs::Lowered::declared_next, crate::specs::Lowered::component_next))]

ghost use Rattle.std.specs.Prelude.{◌≡◌, ◌<◌, IfOk, length, map};
ghost use Rattle.resolved_tree.specs.Trees as t;
ghost use Rattle.resolved_tree.specs.Trees.{code_list};
ghost use Rattle.resolved_tree.specs.Nodes.{code_at, tree_at, Grew, Holds, HoldsCode};
ghost use Rattle.tree_lowering.specs.Lowered.{component_next, declared, declared_all, declared_component, declared_components, declared_next};

use ada_tree::{Identifier, NextIdentifier};
use expression_lowering::{NumberIndex, number_of};
use resolved_tree::{CodeNode, Node, Rows};
use std::alloc::AllocError;

/// A list of one expression.
pub fn lone(first: usize, rows: &mut Rows) -> Result<usize, AllocError>
    requires { first < length rows.old.0 }
    ensures tree { IfOk result (λ n. Holds rows.new n (t.More (tree_at rows.old first) t.NoMore)) }
    ensures grew { Grew rows.old rows.new }
{
    let rest = rows.push(Node::NoMore)?;
    rows.push(Node::More { first, rest })
}

/// An identifier that is declared.
pub fn declared(
    id: &Identifier,
    numbers: &NumberIndex,
    rows: &mut Rows,
) -> Result<usize, AllocError>
    ensures code { IfOk result (λ n. HoldsCode rows.new n (declared numbers.now id.now)) }
    ensures grew { Grew rows.old rows.new }
{
    rows.push_code(CodeNode::Declared {
        pos: id.pos,
        number: number_of(id, numbers),
        text: id.text.clone()?,
    })
}

/// {`,` id}
fn next_declared(
    trees: &[NextIdentifier],
    numbers: &NumberIndex,
    rows: &mut Rows,
) -> Result<usize, AllocError>
    ensures code { IfOk result (λ n. HoldsCode rows.new n (code_list (map (declared_next numbers.now) trees.now))) }
    ensures grew { Grew rows.old rows.new }
{
    let mut made = rows.push_code(CodeNode::NoMore)?;
    let mut left = trees.len();
    'turns: while left > 0 {
        left -= 1;
        let NextIdentifier::FurtherIdentifier { name, .. } = &trees[left];
        let first = declared(name, numbers, rows)?;
        made = rows.push_code(CodeNode::More { first, rest: made })?;
    }
    Ok(made)
}

/// id {`,` id}
pub fn declared_all(
    first: &Identifier,
    rest: &[NextIdentifier],
    numbers: &NumberIndex,
    rows: &mut Rows,
) -> Result<usize, AllocError>
    ensures code { IfOk result (λ n. HoldsCode rows.new n (declared_all numbers.now first.now rest.now)) }
    ensures grew { Grew rows.old rows.new }
{
    let rest = next_declared(rest, numbers, rows)?;
    let first = declared(first, numbers, rows)?;
    rows.push_code(CodeNode::More { first, rest })
}

/// An identifier of a component.
fn component(id: &Identifier, rows: &mut Rows) -> Result<usize, AllocError>
    ensures code { IfOk result (λ n. HoldsCode rows.new n (declared_component id.now)) }
    ensures grew { Grew rows.old rows.new }
{
    rows.push_code(CodeNode::Declared {
        pos: id.pos,
        number: 0,
        text: id.text.clone()?,
    })
}

/// {`,` id}, of components
fn next_components(trees: &[NextIdentifier], rows: &mut Rows) -> Result<usize, AllocError>
    ensures code { IfOk result (λ n. HoldsCode rows.new n (code_list (map component_next trees.now))) }
    ensures grew { Grew rows.old rows.new }
{
    let mut made = rows.push_code(CodeNode::NoMore)?;
    let mut left = trees.len();
    'turns: while left > 0 {
        left -= 1;
        let NextIdentifier::FurtherIdentifier { name, .. } = &trees[left];
        let first = component(name, rows)?;
        made = rows.push_code(CodeNode::More { first, rest: made })?;
    }
    Ok(made)
}

/// id {`,` id}, of components
pub fn components(
    first: &Identifier,
    rest: &[NextIdentifier],
    rows: &mut Rows,
) -> Result<usize, AllocError>
    ensures code { IfOk result (λ n. HoldsCode rows.new n (declared_components first.now rest.now)) }
    ensures grew { Grew rows.old rows.new }
{
    let rest = next_components(rest, rows)?;
    let first = component(first, rows)?;
    rows.push_code(CodeNode::More { first, rest })
}
