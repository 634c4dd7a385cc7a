//! What statements do with names.
#![tactic(auto, using(crate::proofs::StatementLevels::statement_levels, std::proofs::lemmas::Grind::common_steps))]

ghost use Rattle.std.specs.Prelude.{◌≡◌, ◌∷◌, [], ◌++◌};
ghost use Rattle.std.specs.List.{flat_map};
ghost use Rattle.name_events.specs.declared.event.Event.TheVariants as e;
ghost use Rattle.name_events.specs.Collected.{Adds};
ghost use Rattle.name_events.specs.ExpressionOutline.{expr_events};
ghost use Rattle.name_events.specs.Outline.{block_events, elsif_events, item_events, parameter_events, simple_events, stmt_events, stmts_events, when_events};

use crate::declaration::DeclarationForm;
use crate::event_list::EventList;
use crate::expression::{expr, name};
use crate::item::items;
use crate::range::{choice, next_choices, range};
use ada_tree::{Choice, Elsif, Expr, Identifier, Item, NextChoice, Range, Stmt, Stmts, When};
use spark_base::Pos;

fn stmts_parts(tree: &Stmts) -> (Pos, &Stmt, &[Stmt])
    ensures { tree.now ≡ Stmts.Sequence result.0 result.1.now result.2.now }
{
    let Stmts::Sequence { pos, first, rest } = tree;
    (*pos, first.get(), rest.as_slice())
}

fn elsif_parts(tree: &Elsif) -> (Pos, &Expr, Pos, &Stmts)
    ensures { tree.now ≡ Elsif.Branch result.0 result.1.now result.2 result.3.now }
{
    let Elsif::Branch {
        pos,
        condition,
        then,
        stmts,
    } = tree;
    (*pos, condition.get(), *then, stmts.get())
}

fn when_parts(tree: &When) -> (Pos, &Choice, &[NextChoice], Pos, &Stmts)
    ensures { tree.now ≡ When.Alternative result.0 result.1.now result.2.now result.3 result.4.now }
{
    let When::Alternative {
        pos,
        first,
        rest,
        arrow,
        stmts,
    } = tree;
    (*pos, first, rest.as_slice(), *arrow, stmts.get())
}

/// A stmt that has no other one within.
#[tactic(auto, using(std::proofs::lemmas::Grind::common_steps), unfolding(crate::specs::Outline::simple_events))]
fn simple_stmt(events: &mut EventList, tree: &Stmt)
    ensures { Adds events.old events.new (simple_events tree.now) }
{
    match tree {
        Stmt::Assign { target, value, .. } => {
            name(events, target.get());
            expr(events, value.get());
        }
        Stmt::Call { name: callee, .. } => name(events, callee.get()),
        Stmt::ExitWhen { condition, .. } => expr(events, condition.get()),
        Stmt::ReturnValue { value, .. } => expr(events, value.get()),
        _ => {}
    }
}

/// `for` id `in` [`reverse`] range
fn parameter(events: &mut EventList, id: &Identifier, steps: &Range)
    ensures { Adds events.old events.new (parameter_events id.now steps.now) }
{
    events.open_region();
    events.declare(DeclarationForm::LoopParameter, id);
    range(events, steps);
    events.end_declarations();
}

/// `declare` {item} `begin`
fn open_block(events: &mut EventList, declared: &[Item])
    ensures { Adds events.old events.new (block_events declared.now) }
{
    events.open_region();
    items(events, declared);
}

/// stmts
#[cycle(statement)]
pub fn stmts(events: &mut EventList, tree: &Stmts)
    ensures { Adds events.old events.new (stmts_events tree.now) }
{
    let (_, first, rest) = stmts_parts(tree);
    stmt(events, first);
    next_stmts(events, rest);
}

/// {stmt}
#[cycle(statement)]
fn next_stmts(events: &mut EventList, trees: &[Stmt])
    ensures { Adds events.old events.new (flat_map stmt_events trees.now) }
{
    'turns: for tree in trees {
        stmt(events, tree);
    }
}

/// stmts after their condition
#[cycle(statement)]
fn conditional(events: &mut EventList, body: &Stmts, condition: &Expr)
    ensures { Adds events.old events.new (expr_events condition.now ++ stmts_events body.now) }
{
    expr(events, condition);
    stmts(events, body);
}

/// stmts at the end of a region
#[cycle(statement)]
fn last_stmts(events: &mut EventList, body: &Stmts)
    ensures { Adds events.old events.new (stmts_events body.now ++ e.RegionCloses ∷ []) }
{
    stmts(events, body);
    events.close_region();
}

/// `for` id `in` [`reverse`] range `loop` stmts
#[cycle(statement)]
fn for_loop(events: &mut EventList, body: &Stmts, id: &Identifier, steps: &Range)
    ensures { Adds events.old events.new (parameter_events id.now steps.now ++ (stmts_events body.now ++ e.RegionCloses ∷ [])) }
{
    parameter(events, id, steps);
    last_stmts(events, body);
}

/// `declare` {item} `begin` stmts
#[cycle(statement)]
fn declare_block(events: &mut EventList, body: &Stmts, declared: &[Item])
    ensures { Adds events.old events.new (block_events declared.now ++ (stmts_events body.now ++ e.RegionCloses ∷ [])) }
{
    open_block(events, declared);
    last_stmts(events, body);
}

/// {`elsif` expr `then` stmts}
#[cycle(statement)]
fn elsifs(events: &mut EventList, trees: &[Elsif])
    ensures { Adds events.old events.new (flat_map elsif_events trees.now) }
{
    'turns: for tree in trees {
        let (_, condition, _, body) = elsif_parts(tree);
        conditional(events, body, condition);
    }
}

/// when
#[cycle(statement)]
fn when(events: &mut EventList, tree: &When)
    ensures { Adds events.old events.new (when_events tree.now) }
{
    let (_, first, rest, _, body) = when_parts(tree);
    choice(events, first);
    next_choices(events, rest);
    stmts(events, body);
}

/// {when}
#[cycle(statement)]
fn whens(events: &mut EventList, trees: &[When])
    ensures { Adds events.old events.new (flat_map when_events trees.now) }
{
    'turns: for tree in trees {
        when(events, tree);
    }
}

/// stmt
#[cycle(statement)]
fn stmt(events: &mut EventList, tree: &Stmt)
    ensures { Adds events.old events.new (stmt_events tree.now) }
{
    match tree {
        Stmt::If {
            condition,
            stmts: body,
            elsifs: branches,
            ..
        } => {
            conditional(events, body.get(), condition.get());
            elsifs(events, branches.as_slice());
        }
        Stmt::IfElse {
            condition,
            stmts: body,
            elsifs: branches,
            otherwise_stmts,
            ..
        } => {
            conditional(events, body.get(), condition.get());
            elsifs(events, branches.as_slice());
            stmts(events, otherwise_stmts.get());
        }
        Stmt::Case {
            selector,
            first,
            rest,
            ..
        } => {
            expr(events, selector.get());
            when(events, first.get());
            whens(events, rest.as_slice());
        }
        Stmt::Loop { stmts: body, .. } => stmts(events, body.get()),
        Stmt::While {
            condition,
            stmts: body,
            ..
        } => conditional(events, body.get(), condition.get()),
        Stmt::For {
            parameter: id,
            range: steps,
            stmts: body,
            ..
        } => for_loop(events, body.get(), id, steps),
        Stmt::Block { stmts: body, .. } => {
            events.open_region();
            last_stmts(events, body.get());
        }
        Stmt::DeclareBlock {
            items: declared,
            stmts: body,
            ..
        } => declare_block(events, body.get(), declared.as_slice()),
        Stmt::Null { .. }
        | Stmt::Assign { .. }
        | Stmt::Call { .. }
        | Stmt::Exit { .. }
        | Stmt::ExitWhen { .. }
        | Stmt::Return { .. }
        | Stmt::ReturnValue { .. } => simple_stmt(events, tree),
    }
}
