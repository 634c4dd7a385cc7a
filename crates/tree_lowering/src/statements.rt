//! What statements stand for.
#![tactic(auto, using(crate::proofs::StatementLevels::statement_levels, expression_lowering::proofs::Steps::code_step, resolved_tree::proofs::Grown::grew_on, resolved_tree::proofs::Grown::kept, resolved_tree::proofs::Grown::kept_code, std::proofs::lemmas::Grind::common_steps))]

ghost use Rattle.std.specs.Prelude.{◌≡◌, ◌<◌, IfOk, is_some, length, map};
ghost use Rattle.resolved_tree.specs.Trees as t;
ghost use Rattle.resolved_tree.specs.Trees.{code_list};
ghost use Rattle.resolved_tree.specs.Nodes.{code_at, tree_at, Grew, Holds, HoldsCode};
ghost use Rattle.expression_lowering.specs.LoweredExpressions.{lowered_expr, lowered_range};
ghost use Rattle.tree_lowering.specs.Lowered.{declared, lowered_elsif, lowered_simple, lowered_stmt, lowered_stmts, lowered_when};

use crate::identifiers::{declared, lone};
use crate::items::items;
use ada_tree::{Choice, Elsif, Expr, Identifier, NextChoice, Range, Stmt, Stmts, When};
use expression_lowering::{NumberIndex, choices, expr, name, range};
use resolved_tree::{CodeNode, Node, Rows};
use spark_base::Pos;
use std::alloc::AllocError;

fn stmts_parts(tree: &Stmts) -> (Pos, &Stmt, &[Stmt])
    ensures { tree.now ≡ Stmts.Sequence result.0 result.1.now result.2.now }
{
    let Stmts::Sequence { pos, first, rest } = tree;
    (*pos, first.get(), rest.as_slice())
}

fn elsif_parts(tree: &Elsif) -> (Pos, &Expr, Pos, &Stmts)
    ensures { tree.now ≡ Elsif.Branch result.0 result.1.now result.2 result.3.now }
{
    let Elsif::Branch {
        pos,
        condition,
        then,
        stmts,
    } = tree;
    (*pos, condition.get(), *then, stmts.get())
}

fn when_parts(tree: &When) -> (Pos, &Choice, &[NextChoice], Pos, &Stmts)
    ensures { tree.now ≡ When.Alternative result.0 result.1.now result.2.now result.3 result.4.now }
{
    let When::Alternative {
        pos,
        first,
        rest,
        arrow,
        stmts,
    } = tree;
    (*pos, first, rest.as_slice(), *arrow, stmts.get())
}

/// A list of an expression.
fn lone_expr(tree: &Expr, numbers: &NumberIndex, rows: &mut Rows) -> Result<usize, AllocError>
    ensures tree { IfOk result (λ n. Holds rows.new n (t.More (lowered_expr numbers.now tree.now) t.NoMore)) }
    ensures grew { Grew rows.old rows.new }
{
    let first = expr(tree, numbers, rows)?;
    lone(first, rows)
}

/// A stmt that has no other one within.
#[tactic(auto, using(resolved_tree::proofs::Grown::grew_on, resolved_tree::proofs::Grown::kept, resolved_tree::proofs::Grown::kept_code, std::proofs::lemmas::Grind::common_steps), unfolding(crate::specs::Lowered::lowered_simple))]
fn simple(tree: &Stmt, numbers: &NumberIndex, rows: &mut Rows) -> Result<usize, AllocError>
    ensures code { IfOk result (λ n. HoldsCode rows.new n (lowered_simple numbers.now tree.now)) }
    ensures grew { Grew rows.old rows.new }
{
    match tree {
        Stmt::Null { pos, .. } => rows.push_code(CodeNode::Skip { pos: *pos }),
        Stmt::Assign {
            target: left,
            value: right,
            ..
        } => {
            let target = name(left.get(), numbers, rows)?;
            let value = expr(right.get(), numbers, rows)?;
            rows.push_code(CodeNode::Assign { target, value })
        }
        Stmt::Call { name: callee, .. } => {
            let name = name(callee.get(), numbers, rows)?;
            rows.push_code(CodeNode::Call { name })
        }
        Stmt::Exit { pos, .. } => {
            let condition = rows.push(Node::NoMore)?;
            rows.push_code(CodeNode::Exit {
                pos: *pos,
                condition,
            })
        }
        Stmt::ExitWhen {
            pos,
            condition: part,
            ..
        } => {
            let condition = lone_expr(part.get(), numbers, rows)?;
            rows.push_code(CodeNode::Exit {
                pos: *pos,
                condition,
            })
        }
        Stmt::Return { pos, .. } => {
            let value = rows.push(Node::NoMore)?;
            rows.push_code(CodeNode::Return { pos: *pos, value })
        }
        Stmt::ReturnValue {
            pos,
            value: part,
            ..
        } => {
            let value = lone_expr(part.get(), numbers, rows)?;
            rows.push_code(CodeNode::Return { pos: *pos, value })
        }
        _ => rows.push_code(CodeNode::NoMore),
    }
}

/// stmts
#[cycle(statement)]
pub fn stmts(tree: &Stmts, numbers: &NumberIndex, rows: &mut Rows) -> Result<usize, AllocError>
    ensures code { IfOk result (λ n. HoldsCode rows.new n (lowered_stmts numbers.now tree.now)) }
    ensures grew { Grew rows.old rows.new }
{
    let (_, first, rest) = stmts_parts(tree);
    let rest = next_stmts(rest, numbers, rows)?;
    let first = stmt(first, numbers, rows)?;
    rows.push_code(CodeNode::More { first, rest })
}

/// {stmt}
#[cycle(statement)]
fn next_stmts(trees: &[Stmt], numbers: &NumberIndex, rows: &mut Rows) -> Result<usize, AllocError>
    ensures code { IfOk result (λ n. HoldsCode rows.new n (code_list (map (lowered_stmt numbers.now) trees.now))) }
    ensures grew { Grew rows.old rows.new }
{
    let mut made = rows.push_code(CodeNode::NoMore)?;
    let mut left = trees.len();
    'turns: while left > 0 {
        left -= 1;
        let first = stmt(&trees[left], numbers, rows)?;
        made = rows.push_code(CodeNode::More { first, rest: made })?;
    }
    Ok(made)
}

/// (`if` | `elsif`) expr `then` stmts, before others
#[cycle(statement)]
fn conditional(
    body: &Stmts,
    pos: Pos,
    condition: &Expr,
    rest: usize,
    numbers: &NumberIndex,
    rows: &mut Rows,
) -> Result<usize, AllocError>
    requires { rest < length rows.old.1 }
    ensures code { IfOk result (λ n. HoldsCode rows.new n
        (t.More (t.Branch pos (lowered_expr numbers.now condition.now) (lowered_stmts numbers.now body.now)) (code_at rows.old rest))) }
    ensures grew { Grew rows.old rows.new }
{
    let condition = expr(condition, numbers, rows)?;
    let stmts = stmts(body, numbers, rows)?;
    let first = rows.push_code(CodeNode::Branch {
        pos,
        condition,
        stmts,
    })?;
    rows.push_code(CodeNode::More { first, rest })
}

/// {`elsif` expr `then` stmts}
#[cycle(statement)]
fn elsifs(trees: &[Elsif], numbers: &NumberIndex, rows: &mut Rows) -> Result<usize, AllocError>
    ensures code { IfOk result (λ n. HoldsCode rows.new n (code_list (map (lowered_elsif numbers.now) trees.now))) }
    ensures grew { Grew rows.old rows.new }
{
    let mut made = rows.push_code(CodeNode::NoMore)?;
    let mut left = trees.len();
    'turns: while left > 0 {
        left -= 1;
        let (pos, condition, _, body) = elsif_parts(&trees[left]);
        made = conditional(body, pos, condition, made, numbers, rows)?;
    }
    Ok(made)
}

/// when, before others
#[cycle(statement)]
fn when(
    tree: &When,
    rest: usize,
    numbers: &NumberIndex,
    rows: &mut Rows,
) -> Result<usize, AllocError>
    requires { rest < length rows.old.1 }
    ensures code { IfOk result (λ n. HoldsCode rows.new n (t.More (lowered_when numbers.now tree.now) (code_at rows.old rest))) }
    ensures grew { Grew rows.old rows.new }
{
    let (_, choice, choices_behind, _, body) = when_parts(tree);
    let choices = choices(choice, choices_behind, numbers, rows)?;
    let stmts = stmts(body, numbers, rows)?;
    let first = rows.push_code(CodeNode::When { choices, stmts })?;
    rows.push_code(CodeNode::More { first, rest })
}

/// {when}
#[cycle(statement)]
fn whens(trees: &[When], numbers: &NumberIndex, rows: &mut Rows) -> Result<usize, AllocError>
    ensures code { IfOk result (λ n. HoldsCode rows.new n (code_list (map (lowered_when numbers.now) trees.now))) }
    ensures grew { Grew rows.old rows.new }
{
    let mut made = rows.push_code(CodeNode::NoMore)?;
    let mut left = trees.len();
    'turns: while left > 0 {
        left -= 1;
        made = when(&trees[left], made, numbers, rows)?;
    }
    Ok(made)
}

/// `while` expr `loop` stmts
#[cycle(statement)]
fn while_loop(
    body: &Stmts,
    pos: Pos,
    condition: &Expr,
    numbers: &NumberIndex,
    rows: &mut Rows,
) -> Result<usize, AllocError>
    ensures code { IfOk result (λ n. HoldsCode rows.new n (t.While pos (lowered_expr numbers.now condition.now) (lowered_stmts numbers.now body.now))) }
    ensures grew { Grew rows.old rows.new }
{
    let condition = expr(condition, numbers, rows)?;
    let stmts = stmts(body, numbers, rows)?;
    rows.push_code(CodeNode::While {
        pos,
        condition,
        stmts,
    })
}

/// `for` id `in` [`reverse`] range, before the statements of the loop
fn for_loop(
    pos: Pos,
    id: &Identifier,
    reverse: bool,
    steps: &Range,
    stmts: usize,
    numbers: &NumberIndex,
    rows: &mut Rows,
) -> Result<usize, AllocError>
    requires { stmts < length rows.old.1 }
    ensures code { IfOk result (λ n. HoldsCode rows.new n
        (t.For pos (declared numbers.now id.now) reverse (lowered_range numbers.now steps.now) (code_at rows.old stmts))) }
    ensures grew { Grew rows.old rows.new }
{
    let parameter = declared(id, numbers, rows)?;
    let range = range(steps, numbers, rows)?;
    rows.push_code(CodeNode::For {
        pos,
        parameter,
        reverse,
        range,
        stmts,
    })
}

/// `begin` stmts `end`, after the list of the items
#[cycle(statement)]
fn block(
    body: &Stmts,
    pos: Pos,
    items: usize,
    end: Pos,
    numbers: &NumberIndex,
    rows: &mut Rows,
) -> Result<usize, AllocError>
    requires { items < length rows.old.1 }
    ensures code { IfOk result (λ n. HoldsCode rows.new n (t.Block pos (code_at rows.old items) (lowered_stmts numbers.now body.now) end)) }
    ensures grew { Grew rows.old rows.new }
{
    let stmts = stmts(body, numbers, rows)?;
    rows.push_code(CodeNode::Block {
        pos,
        items,
        stmts,
        end,
    })
}

/// stmt
#[cycle(statement)]
fn stmt(tree: &Stmt, numbers: &NumberIndex, rows: &mut Rows) -> Result<usize, AllocError>
    ensures code { IfOk result (λ n. HoldsCode rows.new n (lowered_stmt numbers.now tree.now)) }
    ensures grew { Grew rows.old rows.new }
{
    match tree {
        Stmt::If {
            pos,
            condition,
            stmts: body,
            elsifs: others,
            ..
        } => {
            let rest = elsifs(others.as_slice(), numbers, rows)?;
            let branches = conditional(body.get(), *pos, condition.get(), rest, numbers, rows)?;
            let otherwise = rows.push_code(CodeNode::NoMore)?;
            rows.push_code(CodeNode::If {
                pos: *pos,
                branches,
                otherwise,
            })
        }
        Stmt::IfElse {
            pos,
            condition,
            stmts: body,
            elsifs: others,
            otherwise_stmts,
            ..
        } => {
            let rest = elsifs(others.as_slice(), numbers, rows)?;
            let branches = conditional(body.get(), *pos, condition.get(), rest, numbers, rows)?;
            let otherwise = stmts(otherwise_stmts.get(), numbers, rows)?;
            rows.push_code(CodeNode::If {
                pos: *pos,
                branches,
                otherwise,
            })
        }
        Stmt::Case {
            pos,
            selector: part,
            first,
            rest,
            ..
        } => {
            let rest = whens(rest.as_slice(), numbers, rows)?;
            let alternatives = when(first.get(), rest, numbers, rows)?;
            let selector = expr(part.get(), numbers, rows)?;
            rows.push_code(CodeNode::Case {
                pos: *pos,
                selector,
                alternatives,
            })
        }
        Stmt::Loop {
            pos,
            stmts: body,
            ..
        } => {
            let stmts = stmts(body.get(), numbers, rows)?;
            rows.push_code(CodeNode::Loop { pos: *pos, stmts })
        }
        Stmt::While {
            pos,
            condition,
            stmts: body,
            ..
        } => while_loop(body.get(), *pos, condition.get(), numbers, rows),
        Stmt::For {
            pos,
            parameter,
            reverse,
            range: steps,
            stmts: body,
            ..
        } => {
            let stmts = stmts(body.get(), numbers, rows)?;
            for_loop(
                *pos,
                parameter,
                reverse.is_some(),
                steps,
                stmts,
                numbers,
                rows,
            )
        }
        Stmt::Block {
            pos,
            stmts: body,
            end,
            ..
        } => {
            let items = rows.push_code(CodeNode::NoMore)?;
            block(body.get(), *pos, items, *end, numbers, rows)
        }
        Stmt::DeclareBlock {
            pos,
            items: declared,
            stmts: body,
            end,
            ..
        } => {
            let items = items(declared.as_slice(), numbers, rows)?;
            block(body.get(), *pos, items, *end, numbers, rows)
        }
        Stmt::Null { .. }
        | Stmt::Assign { .. }
        | Stmt::Call { .. }
        | Stmt::Exit { .. }
        | Stmt::ExitWhen { .. }
        | Stmt::Return { .. }
        | Stmt::ReturnValue { .. } => simple(tree, numbers, rows),
    }
}
