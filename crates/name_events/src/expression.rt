//! What expressions and names do with names.
#![tactic(auto, using(crate::proofs::ExpressionLevels::expression_levels, std::proofs::lemmas::Grind::common_steps))]

ghost use Rattle.std.specs.Prelude.{◌≡◌, ◌∷◌, [], ◌++◌};
ghost use Rattle.std.specs.List.{flat_map};
ghost use Rattle.name_events.specs.Collected.{Adds};
ghost use Rattle.name_events.specs.ExpressionOutline.{aggregate_events, arg_events, expr_events, factor_events, name_events, next_arg_events, next_factor_events, next_term_events, operand_events, primary_events, rel_events, short_operand_events, suffix_events, sum_events, term_events};

use crate::event::Clause;
use crate::event_list::EventList;
use ada_tree::{
    AddingOperator, Aggregate, Arg, Expr, Factor, Identifier, MultiplyingOperator, Name, NextArg,
    NextFactor, NextTerm, Operand, Primary, Rel, ShortOperand, Suffix, Sum, Term,
};
use spark_base::Pos;

fn name_parts(tree: &Name) -> (Pos, &Identifier, &[Suffix])
    ensures { tree.now ≡ Name.Prefixed result.0 result.1.now result.2.now }
{
    let Name::Prefixed { pos, first, rest } = tree;
    (*pos, first, rest.as_slice())
}

fn next_arg_parts(tree: &NextArg) -> (Pos, &Arg)
    ensures { tree.now ≡ NextArg.FurtherArg result.0 result.1.now }
{
    let NextArg::FurtherArg { pos, arg } = tree;
    (*pos, arg.get())
}

fn operand_parts(tree: &Operand) -> (Pos, &Rel)
    ensures { tree.now ≡ Operand.FurtherOperand result.0 result.1.now }
{
    let Operand::FurtherOperand { pos, operand } = tree;
    (*pos, operand.get())
}

fn short_operand_parts(tree: &ShortOperand) -> (Pos, Pos, &Rel)
    ensures { tree.now ≡ ShortOperand.FurtherShortOperand result.0 result.1 result.2.now }
{
    let ShortOperand::FurtherShortOperand {
        pos,
        second_word,
        operand,
    } = tree;
    (*pos, *second_word, operand.get())
}

fn next_term_parts(tree: &NextTerm) -> (Pos, AddingOperator, &Term)
    ensures { tree.now ≡ NextTerm.FurtherTerm result.0 result.1 result.2.now }
{
    let NextTerm::FurtherTerm {
        pos,
        operator,
        term,
    } = tree;
    (*pos, *operator, term)
}

fn term_parts(tree: &Term) -> (Pos, &Factor, &[NextFactor])
    ensures { tree.now ≡ Term.Product result.0 result.1.now result.2.now }
{
    let Term::Product { pos, first, rest } = tree;
    (*pos, first, rest.as_slice())
}

fn next_factor_parts(tree: &NextFactor) -> (Pos, MultiplyingOperator, &Factor)
    ensures { tree.now ≡ NextFactor.FurtherFactor result.0 result.1 result.2.now }
{
    let NextFactor::FurtherFactor {
        pos,
        operator,
        factor,
    } = tree;
    (*pos, *operator, factor)
}

/// name
#[cycle(expression)]
pub fn name(events: &mut EventList, tree: &Name)
    ensures { Adds events.old events.new (name_events tree.now) }
{
    let (_, first, rest) = name_parts(tree);
    events.mention_name(first, rest);
    suffixes(events, rest);
}

#[cycle(expression)]
fn suffixes(events: &mut EventList, trees: &[Suffix])
    ensures { Adds events.old events.new (flat_map suffix_events trees.now) }
{
    'turns: for tree in trees {
        suffix(events, tree);
    }
}

#[cycle(expression)]
fn suffix(events: &mut EventList, tree: &Suffix)
    ensures { Adds events.old events.new (suffix_events tree.now) }
{
    match tree {
        Suffix::Applied { first, rest, .. } => {
            arg(events, first.get());
            next_args(events, rest.as_slice());
        }
        Suffix::Selected { .. }
        | Suffix::Dereferenced { .. }
        | Suffix::Attribute { .. }
        | Suffix::RangeAttribute { .. } => {}
    }
}

#[cycle(expression)]
pub fn next_args(events: &mut EventList, trees: &[NextArg])
    ensures { Adds events.old events.new (flat_map next_arg_events trees.now) }
{
    'turns: for tree in trees {
        arg(events, next_arg_parts(tree).1);
    }
}

/// arg
#[cycle(expression)]
pub fn arg(events: &mut EventList, tree: &Arg)
    ensures { Adds events.old events.new (arg_events tree.now) }
{
    match tree {
        Arg::Positional { value, .. } | Arg::Association { value, .. } => {
            expr(events, value.get());
        }
    }
}

/// expr
#[cycle(expression)]
pub fn expr(events: &mut EventList, tree: &Expr)
    ensures { Adds events.old events.new (expr_events tree.now) }
{
    match tree {
        Expr::LoneRelation { relation, .. } => {
            rel(events, relation.get());
        }
        Expr::And {
            first,
            second,
            rest,
            ..
        }
        | Expr::Or {
            first,
            second,
            rest,
            ..
        }
        | Expr::Xor {
            first,
            second,
            rest,
            ..
        } => {
            rel(events, first.get());
            rel(events, second.get());
            operands(events, rest.as_slice());
        }
        Expr::AndThen {
            first,
            second,
            rest,
            ..
        }
        | Expr::OrElse {
            first,
            second,
            rest,
            ..
        } => {
            rel(events, first.get());
            rel(events, second.get());
            short_operands(events, rest.as_slice());
        }
    }
}

#[cycle(expression)]
fn operands(events: &mut EventList, trees: &[Operand])
    ensures { Adds events.old events.new (flat_map operand_events trees.now) }
{
    'turns: for tree in trees {
        rel(events, operand_parts(tree).1);
    }
}

#[cycle(expression)]
fn short_operands(events: &mut EventList, trees: &[ShortOperand])
    ensures { Adds events.old events.new (flat_map short_operand_events trees.now) }
{
    'turns: for tree in trees {
        rel(events, short_operand_parts(tree).2);
    }
}

#[cycle(expression)]
fn rel(events: &mut EventList, tree: &Rel)
    ensures { Adds events.old events.new (rel_events tree.now) }
{
    match tree {
        Rel::LoneSum { sum: operand, .. } => {
            sum(events, operand);
        }
        Rel::Compared { left, right, .. } => {
            sum(events, left.get());
            sum(events, right.get());
        }
    }
}

#[cycle(expression)]
fn sum(events: &mut EventList, tree: &Sum)
    ensures { Adds events.old events.new (sum_events tree.now) }
{
    match tree {
        Sum::Unsigned { first, rest, .. } | Sum::Signed { first, rest, .. } => {
            term(events, first);
            next_terms(events, rest.as_slice());
        }
    }
}

#[cycle(expression)]
fn next_terms(events: &mut EventList, trees: &[NextTerm])
    ensures { Adds events.old events.new (flat_map next_term_events trees.now) }
{
    'turns: for tree in trees {
        term(events, next_term_parts(tree).2);
    }
}

#[cycle(expression)]
fn term(events: &mut EventList, tree: &Term)
    ensures { Adds events.old events.new (term_events tree.now) }
{
    let (_, first, rest) = term_parts(tree);
    factor(events, first);
    next_factors(events, rest);
}

#[cycle(expression)]
fn next_factors(events: &mut EventList, trees: &[NextFactor])
    ensures { Adds events.old events.new (flat_map next_factor_events trees.now) }
{
    'turns: for tree in trees {
        factor(events, next_factor_parts(tree).2);
    }
}

#[cycle(expression)]
fn factor(events: &mut EventList, tree: &Factor)
    ensures { Adds events.old events.new (factor_events tree.now) }
{
    match tree {
        Factor::LonePrimary {
            primary: operand,
            ..
        }
        | Factor::Abs {
            primary: operand,
            ..
        }
        | Factor::Not {
            primary: operand,
            ..
        } => {
            primary(events, operand);
        }
    }
}

#[cycle(expression)]
fn primary(events: &mut EventList, tree: &Primary)
    ensures { Adds events.old events.new (primary_events tree.now) }
{
    match tree {
        Primary::Number { .. } | Primary::Text { .. } | Primary::Null { .. } => {}
        Primary::Named { name: part, .. } => {
            name(events, part.get());
        }
        Primary::Parenthesized { expression, .. } => {
            expr(events, expression.get());
        }
        Primary::Aggregated {
            aggregate: part,
            ..
        } => {
            aggregate(events, part.get());
        }
        Primary::Allocated { mark, .. } => {
            events.mention(Clause::Elsewhere, mark);
        }
        Primary::AllocatedAggregate {
            mark,
            aggregate: part,
            ..
        } => {
            events.mention(Clause::Elsewhere, mark);
            aggregate(events, part.get());
        }
        Primary::AllocatedValue { mark, value, .. } => {
            events.mention(Clause::Elsewhere, mark);
            expr(events, value.get());
        }
    }
}

#[cycle(expression)]
fn aggregate(events: &mut EventList, tree: &Aggregate)
    ensures { Adds events.old events.new (aggregate_events tree.now) }
{
    match tree {
        Aggregate::Several {
            first,
            second,
            rest,
            ..
        } => {
            arg(events, first.get());
            arg(events, second.get());
            next_args(events, rest.as_slice());
        }
        Aggregate::Single { value, .. } | Aggregate::Others { value, .. } => {
            expr(events, value.get());
        }
    }
}
