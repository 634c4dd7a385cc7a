//! What ranges and choices stand for.
#![tactic(auto, using(crate::proofs::Steps::code_step, resolved_tree::proofs::Grown::grew_on, resolved_tree::proofs::Grown::kept, std::proofs::lemmas::Grind::common_steps), unfolding(crate::specs::LoweredExpressions::lowered_range, crate::specs::LoweredExpressions::lowered_choice, crate::specs::LoweredExpressions::lowered_next_choice))]

ghost use Rattle.std.specs.Prelude.{◌≡◌, IfOk, map};
ghost use Rattle.resolved_tree.specs.Trees.{code_list};
ghost use Rattle.resolved_tree.specs.Nodes.{Grew, HoldsCode};
ghost use Rattle.expression_lowering.specs.LoweredExpressions.{lowered_choice, lowered_choices, lowered_next_choice, lowered_range};

use crate::expression::{expr, name};
use crate::marks::mark;
use crate::number_index::NumberIndex;
use ada_tree::{Choice, NextChoice, Range};
use resolved_tree::{CodeNode, Rows};
use std::alloc::AllocError;

/// range
pub fn range(tree: &Range, numbers: &NumberIndex, rows: &mut Rows) -> Result<usize, AllocError>
    ensures code { IfOk result (λ n. HoldsCode rows.new n (lowered_range numbers.now tree.now)) }
    ensures grew { Grew rows.old rows.new }
{
    match tree {
        Range::Bounds { low, high, .. } => {
            let low = expr(low.get(), numbers, rows)?;
            let high = expr(high.get(), numbers, rows)?;
            rows.push_code(CodeNode::Bounds { low, high })
        }
        Range::Marked { mark: of, .. } => rows.push_code(CodeNode::Marked {
            mark: mark(of, numbers),
        }),
        Range::Constrained {
            mark: of,
            low,
            high,
            ..
        } => {
            let low = expr(low.get(), numbers, rows)?;
            let high = expr(high.get(), numbers, rows)?;
            rows.push_code(CodeNode::Constrained {
                mark: mark(of, numbers),
                low,
                high,
            })
        }
        Range::RangeOf { name: prefix, .. } => {
            let name = name(prefix.get(), numbers, rows)?;
            rows.push_code(CodeNode::RangeOf { name })
        }
    }
}

/// choice
fn choice(tree: &Choice, numbers: &NumberIndex, rows: &mut Rows) -> Result<usize, AllocError>
    ensures code { IfOk result (λ n. HoldsCode rows.new n (lowered_choice numbers.now tree.now)) }
    ensures grew { Grew rows.old rows.new }
{
    match tree {
        Choice::Value { value: part, .. } => {
            let value = expr(part.get(), numbers, rows)?;
            rows.push_code(CodeNode::Value { value })
        }
        Choice::Interval { low, high, .. } => {
            let low = expr(low.get(), numbers, rows)?;
            let high = expr(high.get(), numbers, rows)?;
            rows.push_code(CodeNode::Interval { low, high })
        }
        Choice::Others { pos } => rows.push_code(CodeNode::OthersChoice { pos: *pos }),
    }
}

/// {`|` choice}
fn next_choices(
    trees: &[NextChoice],
    numbers: &NumberIndex,
    rows: &mut Rows,
) -> Result<usize, AllocError>
    ensures code { IfOk result (λ n. HoldsCode rows.new n (code_list (map (lowered_next_choice numbers.now) trees.now))) }
    ensures grew { Grew rows.old rows.new }
{
    let mut made = rows.push_code(CodeNode::NoMore)?;
    let mut left = trees.len();
    'turns: while left > 0 {
        left -= 1;
        let NextChoice::Bar { choice: part, .. } = &trees[left];
        let first = choice(part, numbers, rows)?;
        made = rows.push_code(CodeNode::More { first, rest: made })?;
    }
    Ok(made)
}

/// choice {`|` choice}
pub fn choices(
    first: &Choice,
    rest: &[NextChoice],
    numbers: &NumberIndex,
    rows: &mut Rows,
) -> Result<usize, AllocError>
    ensures code { IfOk result (λ n. HoldsCode rows.new n (lowered_choices numbers.now first.now rest.now)) }
    ensures grew { Grew rows.old rows.new }
{
    let rest = next_choices(rest, numbers, rows)?;
    let first = choice(first, numbers, rows)?;
    rows.push_code(CodeNode::More { first, rest })
}
