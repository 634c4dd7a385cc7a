//! What expressions and names stand for.
#![tactic(auto, using(crate::proofs::ExpressionLevels::expression_levels, crate::proofs::Steps::list_step, crate::proofs::Steps::args_step, crate::proofs::Steps::chain_step, resolved_tree::proofs::Grown::grew_on, resolved_tree::proofs::Grown::kept, std::proofs::lemmas::Grind::common_steps))]

ghost use Rattle.std.specs.Prelude.{◌≡◌, ◌<◌, ◌≤◌, IfOk, None, Some, drop, length, map};
ghost use Rattle.resolved_tree.specs.Trees as t;
ghost use Rattle.resolved_tree.specs.Trees.{list_of};
ghost use Rattle.resolved_tree.specs.Nodes.{tree_at, Grew, Holds};
ghost use Rattle.expression_lowering.specs.LoweredExpressions.{adding_operator, arg_before, chain_operator, chained, further_args, lowered_aggregate, lowered_args, lowered_expr, lowered_factor, lowered_name, lowered_next_factor, lowered_next_term, lowered_operand, lowered_primary, lowered_rel, lowered_short_operand, lowered_suffix, lowered_sum, lowered_term, mark_of, multiplying_operator, named, relational_operator, sign_operator};

use crate::marks::{attribute, front, mark, number_of};
use crate::number_index::NumberIndex;
use ada_tree::{
    AddingOperator, Aggregate, Arg, Dotted, Expr, Factor, Identifier, MultiplyingOperator, Name,
    NextArg, NextFactor, NextTerm, Operand, Primary, Rel, RelationalOperator, ShortOperand, Sign,
    Suffix, Sum, Term, Word,
};
use resolved_tree::{Attribute, Node, Operator, Rows, UnaryOperator};
use spark_base::Pos;
use std::alloc::AllocError;

fn sign_operator(sign: Sign) -> UnaryOperator
    ensures { result ≡ sign_operator sign }
{
    match sign {
        Sign::Plus => UnaryOperator::Plus,
        Sign::Minus => UnaryOperator::Minus,
    }
}

fn relational_operator(operator: RelationalOperator) -> Operator
    ensures { result ≡ relational_operator operator }
{
    match operator {
        RelationalOperator::Equal => Operator::Equal,
        RelationalOperator::NotEqual => Operator::NotEqual,
        RelationalOperator::Less => Operator::Less,
        RelationalOperator::LessEqual => Operator::LessEqual,
        RelationalOperator::Greater => Operator::Greater,
        RelationalOperator::GreaterEqual => Operator::GreaterEqual,
    }
}

fn adding_operator(operator: AddingOperator) -> Operator
    ensures { result ≡ adding_operator operator }
{
    match operator {
        AddingOperator::Add => Operator::Add,
        AddingOperator::Subtract => Operator::Subtract,
        AddingOperator::Concatenate => Operator::Concatenate,
    }
}

fn multiplying_operator(operator: MultiplyingOperator) -> Operator
    ensures { result ≡ multiplying_operator operator }
{
    match operator {
        MultiplyingOperator::Multiply => Operator::Multiply,
        MultiplyingOperator::Divide => Operator::Divide,
        MultiplyingOperator::Modulo => Operator::Modulo,
        MultiplyingOperator::Remainder => Operator::Remainder,
    }
}

fn name_parts(tree: &Name) -> (Pos, &Identifier, &[Suffix])
    ensures { tree.now ≡ Name.Prefixed result.0 result.1.now result.2.now }
{
    let Name::Prefixed { pos, first, rest } = tree;
    (*pos, first, rest.as_slice())
}

fn next_arg_parts(tree: &NextArg) -> (Pos, &Arg)
    ensures { tree.now ≡ NextArg.FurtherArg result.0 result.1.now }
{
    let NextArg::FurtherArg { pos, arg } = tree;
    (*pos, arg.get())
}

fn operand_parts(tree: &Operand) -> (Pos, &Rel)
    ensures { tree.now ≡ Operand.FurtherOperand result.0 result.1.now }
{
    let Operand::FurtherOperand { pos, operand } = tree;
    (*pos, operand.get())
}

fn short_operand_parts(tree: &ShortOperand) -> (Pos, Pos, &Rel)
    ensures { tree.now ≡ ShortOperand.FurtherShortOperand result.0 result.1 result.2.now }
{
    let ShortOperand::FurtherShortOperand {
        pos,
        second_word,
        operand,
    } = tree;
    (*pos, *second_word, operand.get())
}

fn next_term_parts(tree: &NextTerm) -> (Pos, AddingOperator, &Term)
    ensures { tree.now ≡ NextTerm.FurtherTerm result.0 result.1 result.2.now }
{
    let NextTerm::FurtherTerm {
        pos,
        operator,
        term,
    } = tree;
    (*pos, *operator, term)
}

fn term_parts(tree: &Term) -> (Pos, &Factor, &[NextFactor])
    ensures { tree.now ≡ Term.Product result.0 result.1.now result.2.now }
{
    let Term::Product { pos, first, rest } = tree;
    (*pos, first, rest.as_slice())
}

fn next_factor_parts(tree: &NextFactor) -> (Pos, MultiplyingOperator, &Factor)
    ensures { tree.now ≡ NextFactor.FurtherFactor result.0 result.1 result.2.now }
{
    let NextFactor::FurtherFactor {
        pos,
        operator,
        factor,
    } = tree;
    (*pos, *operator, factor)
}

/// An operator after its left operand.
fn binary(
    pos: Pos,
    operator: Operator,
    left: usize,
    right: usize,
    rows: &mut Rows,
) -> Result<usize, AllocError>
    requires left { left < length rows.old.0 }
    requires right { right < length rows.old.0 }
    ensures tree { IfOk result (λ n. Holds rows.new n (t.Binary pos operator (tree_at rows.old left) (tree_at rows.old right))) }
    ensures grew { Grew rows.old rows.new }
{
    rows.push(Node::Binary {
        pos,
        operator,
        left,
        right,
    })
}

/// An operator with one operand.
fn unary(
    pos: Pos,
    operator: UnaryOperator,
    operand: usize,
    rows: &mut Rows,
) -> Result<usize, AllocError>
    requires { operand < length rows.old.0 }
    ensures tree { IfOk result (λ n. Holds rows.new n (t.Unary pos operator (tree_at rows.old operand))) }
    ensures grew { Grew rows.old rows.new }
{
    rows.push(Node::Unary {
        pos,
        operator,
        operand,
    })
}

/// An argument before others.
fn argument(
    name: Option<Word>,
    value: usize,
    rest: usize,
    rows: &mut Rows,
) -> Result<usize, AllocError>
    requires value { value < length rows.old.0 }
    requires rest { rest < length rows.old.0 }
    ensures tree { IfOk result (λ n. Holds rows.new n (t.Argument name (tree_at rows.old value) (tree_at rows.old rest))) }
    ensures grew { Grew rows.old rows.new }
{
    rows.push(Node::Argument { name, value, rest })
}

/// A list of one argument.
fn lone_argument(name: Option<Word>, value: usize, rows: &mut Rows) -> Result<usize, AllocError>
    requires { value < length rows.old.0 }
    ensures tree { IfOk result (λ n. Holds rows.new n (t.Argument name (tree_at rows.old value) t.NoMore)) }
    ensures grew { Grew rows.old rows.new }
{
    let rest = rows.push(Node::NoMore)?;
    argument(name, value, rest, rows)
}

/// `new` mark
fn allocated(
    pos: Pos,
    of: &Dotted,
    numbers: &NumberIndex,
    rows: &mut Rows,
) -> Result<usize, AllocError>
    ensures tree { IfOk result (λ n. Holds rows.new n (t.New pos (mark_of numbers.now of.now) t.NoMore)) }
    ensures grew { Grew rows.old rows.new }
{
    let value = rows.push(Node::NoMore)?;
    rows.push(Node::New {
        pos,
        mark: mark(of, numbers),
        value,
    })
}

/// `new` mark `'` value
fn allocated_value(
    pos: Pos,
    of: &Dotted,
    value: usize,
    numbers: &NumberIndex,
    rows: &mut Rows,
) -> Result<usize, AllocError>
    requires { value < length rows.old.0 }
    ensures tree { IfOk result (λ n. Holds rows.new n
        (t.New pos (mark_of numbers.now of.now) (t.Argument None (tree_at rows.old value) t.NoMore))) }
    ensures grew { Grew rows.old rows.new }
{
    let value = lone_argument(None, value, rows)?;
    rows.push(Node::New {
        pos,
        mark: mark(of, numbers),
        value,
    })
}

/// string
fn text(pos: Pos, text: &Word, rows: &mut Rows) -> Result<usize, AllocError>
    ensures tree { IfOk result (λ n. Holds rows.new n (t.Text pos text.now)) }
    ensures grew { Grew rows.old rows.new }
{
    rows.push(Node::Text {
        pos,
        text: text.clone()?,
    })
}

/// `.` id
fn selected(id: &Identifier, rows: &mut Rows) -> Result<usize, AllocError>
    ensures tree { IfOk result (λ n. Holds rows.new n (t.Selected id.now.text)) }
    ensures grew { Grew rows.old rows.new }
{
    rows.push(Node::Selected {
        selector: id.text.clone()?,
    })
}

/// name
#[cycle(expression)]
pub fn name(tree: &Name, numbers: &NumberIndex, rows: &mut Rows) -> Result<usize, AllocError>
    ensures tree { IfOk result (λ n. Holds rows.new n (lowered_name numbers.now tree.now)) }
    ensures grew { Grew rows.old rows.new }
{
    let (pos, first, rest) = name_parts(tree);
    let (decl, used) = front(number_of(first, numbers), rest, numbers);
    let rest = suffixes(rest, used, numbers, rows)?;
    rows.push(Node::Named { pos, decl, rest })
}

/// What follows the front of a name.
#[cycle(expression)]
fn suffixes(
    trees: &[Suffix],
    used: usize,
    numbers: &NumberIndex,
    rows: &mut Rows,
) -> Result<usize, AllocError>
    requires { used ≤ length trees.now }
    ensures tree { IfOk result (λ n. Holds rows.new n (list_of (drop used (map (lowered_suffix numbers.now) trees.now)))) }
    ensures grew { Grew rows.old rows.new }
{
    let mut made = rows.push(Node::NoMore)?;
    let mut left = trees.len();
    'turns: while left > used {
        left -= 1;
        let first = suffix(&trees[left], numbers, rows)?;
        made = rows.push(Node::More { first, rest: made })?;
    }
    Ok(made)
}

#[cycle(expression)]
fn suffix(tree: &Suffix, numbers: &NumberIndex, rows: &mut Rows) -> Result<usize, AllocError>
    ensures tree { IfOk result (λ n. Holds rows.new n (lowered_suffix numbers.now tree.now)) }
    ensures grew { Grew rows.old rows.new }
{
    match tree {
        Suffix::Selected { selector, .. } => selected(selector, rows),
        Suffix::Dereferenced { .. } => rows.push(Node::All),
        Suffix::Applied { first, rest, .. } => {
            let rest = next_args(rest.as_slice(), numbers, rows)?;
            let args = arg(first.get(), rest, numbers, rows)?;
            rows.push(Node::Applied { args })
        }
        Suffix::Attribute { attribute: id, .. } => rows.push(Node::Attr {
            attribute: attribute(id),
        }),
        Suffix::RangeAttribute { .. } => rows.push(Node::Attr {
            attribute: Attribute::Range,
        }),
    }
}

/// {`,` arg}
#[cycle(expression)]
fn next_args(trees: &[NextArg], numbers: &NumberIndex, rows: &mut Rows) -> Result<usize, AllocError>
    ensures tree { IfOk result (λ n. Holds rows.new n (further_args numbers.now trees.now)) }
    ensures grew { Grew rows.old rows.new }
{
    let mut made = rows.push(Node::NoMore)?;
    let mut left = trees.len();
    'turns: while left > 0 {
        left -= 1;
        made = arg(next_arg_parts(&trees[left]).1, made, numbers, rows)?;
    }
    Ok(made)
}

/// arg, before others
#[cycle(expression)]
fn arg(tree: &Arg, rest: usize, numbers: &NumberIndex, rows: &mut Rows) -> Result<usize, AllocError>
    requires { rest < length rows.old.0 }
    ensures tree { IfOk result (λ n. Holds rows.new n (arg_before numbers.now (tree_at rows.old rest) tree.now)) }
    ensures grew { Grew rows.old rows.new }
{
    match tree {
        Arg::Positional { value, .. } => {
            let value = expr(value.get(), numbers, rows)?;
            argument(None, value, rest, rows)
        }
        Arg::Association { name, value, .. } => {
            let value = expr(value.get(), numbers, rows)?;
            let word = name.text.clone()?;
            argument(Some(word), value, rest, rows)
        }
    }
}

/// arg {`,` arg}
pub fn args(
    first: &Arg,
    rest: &[NextArg],
    numbers: &NumberIndex,
    rows: &mut Rows,
) -> Result<usize, AllocError>
    ensures tree { IfOk result (λ n. Holds rows.new n (lowered_args numbers.now first.now rest.now)) }
    ensures grew { Grew rows.old rows.new }
{
    let rest = next_args(rest, numbers, rows)?;
    arg(first, rest, numbers, rows)
}

/// The operator of a chain of relations.
#[tactic(auto, unfolding(crate::specs::LoweredExpressions::chain_operator))]
fn chain_operator(tree: &Expr) -> Operator
    ensures { result ≡ chain_operator tree.now }
{
    match tree {
        Expr::LoneRelation { .. } | Expr::And { .. } => Operator::And,
        Expr::Or { .. } => Operator::Or,
        Expr::Xor { .. } => Operator::Xor,
        Expr::AndThen { .. } => Operator::AndThen,
        Expr::OrElse { .. } => Operator::OrElse,
    }
}

/// expr
#[cycle(expression)]
pub fn expr(tree: &Expr, numbers: &NumberIndex, rows: &mut Rows) -> Result<usize, AllocError>
    ensures tree { IfOk result (λ n. Holds rows.new n (lowered_expr numbers.now tree.now)) }
    ensures grew { Grew rows.old rows.new }
{
    match tree {
        Expr::LoneRelation { relation, .. } => rel(relation.get(), numbers, rows),
        Expr::And {
            pos,
            first,
            second,
            rest,
            ..
        }
        | Expr::Or {
            pos,
            first,
            second,
            rest,
            ..
        }
        | Expr::Xor {
            pos,
            first,
            second,
            rest,
            ..
        } => {
            let operator = chain_operator(tree);
            let left = rel(first.get(), numbers, rows)?;
            let right = rel(second.get(), numbers, rows)?;
            let left = binary(*pos, operator, left, right, rows)?;
            operands(rest.as_slice(), *pos, operator, left, numbers, rows)
        }
        Expr::AndThen {
            pos,
            first,
            second,
            rest,
            ..
        }
        | Expr::OrElse {
            pos,
            first,
            second,
            rest,
            ..
        } => {
            let operator = chain_operator(tree);
            let left = rel(first.get(), numbers, rows)?;
            let right = rel(second.get(), numbers, rows)?;
            let left = binary(*pos, operator, left, right, rows)?;
            short_operands(rest.as_slice(), *pos, operator, left, numbers, rows)
        }
    }
}

#[cycle(expression)]
fn operands(
    trees: &[Operand],
    pos: Pos,
    operator: Operator,
    left: usize,
    numbers: &NumberIndex,
    rows: &mut Rows,
) -> Result<usize, AllocError>
    requires { left < length rows.old.0 }
    ensures tree { IfOk result (λ n. Holds rows.new n
        (chained pos (tree_at rows.old left) (map (lowered_operand numbers.now operator) trees.now))) }
    ensures grew { Grew rows.old rows.new }
{
    let mut made = left;
    'turns: for tree in trees {
        let right = rel(operand_parts(tree).1, numbers, rows)?;
        made = binary(pos, operator, made, right, rows)?;
    }
    Ok(made)
}

#[cycle(expression)]
fn short_operands(
    trees: &[ShortOperand],
    pos: Pos,
    operator: Operator,
    left: usize,
    numbers: &NumberIndex,
    rows: &mut Rows,
) -> Result<usize, AllocError>
    requires { left < length rows.old.0 }
    ensures tree { IfOk result (λ n. Holds rows.new n
        (chained pos (tree_at rows.old left) (map (lowered_short_operand numbers.now operator) trees.now))) }
    ensures grew { Grew rows.old rows.new }
{
    let mut made = left;
    'turns: for tree in trees {
        let right = rel(short_operand_parts(tree).2, numbers, rows)?;
        made = binary(pos, operator, made, right, rows)?;
    }
    Ok(made)
}

#[cycle(expression)]
fn rel(tree: &Rel, numbers: &NumberIndex, rows: &mut Rows) -> Result<usize, AllocError>
    ensures tree { IfOk result (λ n. Holds rows.new n (lowered_rel numbers.now tree.now)) }
    ensures grew { Grew rows.old rows.new }
{
    match tree {
        Rel::LoneSum { sum: operand, .. } => sum(operand, numbers, rows),
        Rel::Compared {
            pos,
            left,
            operator,
            right,
            ..
        } => {
            let left = sum(left.get(), numbers, rows)?;
            let right = sum(right.get(), numbers, rows)?;
            binary(*pos, relational_operator(*operator), left, right, rows)
        }
    }
}

#[cycle(expression)]
fn sum(tree: &Sum, numbers: &NumberIndex, rows: &mut Rows) -> Result<usize, AllocError>
    ensures tree { IfOk result (λ n. Holds rows.new n (lowered_sum numbers.now tree.now)) }
    ensures grew { Grew rows.old rows.new }
{
    match tree {
        Sum::Unsigned { pos, first, rest } => {
            let left = term(first, numbers, rows)?;
            next_terms(rest.as_slice(), *pos, left, numbers, rows)
        }
        Sum::Signed {
            pos,
            sign,
            first,
            rest,
        } => {
            let operand = term(first, numbers, rows)?;
            let left = unary(*pos, sign_operator(*sign), operand, rows)?;
            next_terms(rest.as_slice(), *pos, left, numbers, rows)
        }
    }
}

#[cycle(expression)]
fn next_terms(
    trees: &[NextTerm],
    pos: Pos,
    left: usize,
    numbers: &NumberIndex,
    rows: &mut Rows,
) -> Result<usize, AllocError>
    requires { left < length rows.old.0 }
    ensures tree { IfOk result (λ n. Holds rows.new n
        (chained pos (tree_at rows.old left) (map (lowered_next_term numbers.now) trees.now))) }
    ensures grew { Grew rows.old rows.new }
{
    let mut made = left;
    'turns: for tree in trees {
        let (_, operator, part) = next_term_parts(tree);
        let right = term(part, numbers, rows)?;
        made = binary(pos, adding_operator(operator), made, right, rows)?;
    }
    Ok(made)
}

#[cycle(expression)]
fn term(tree: &Term, numbers: &NumberIndex, rows: &mut Rows) -> Result<usize, AllocError>
    ensures tree { IfOk result (λ n. Holds rows.new n (lowered_term numbers.now tree.now)) }
    ensures grew { Grew rows.old rows.new }
{
    let (pos, first, rest) = term_parts(tree);
    let left = factor(first, numbers, rows)?;
    next_factors(rest, pos, left, numbers, rows)
}

#[cycle(expression)]
fn next_factors(
    trees: &[NextFactor],
    pos: Pos,
    left: usize,
    numbers: &NumberIndex,
    rows: &mut Rows,
) -> Result<usize, AllocError>
    requires { left < length rows.old.0 }
    ensures tree { IfOk result (λ n. Holds rows.new n
        (chained pos (tree_at rows.old left) (map (lowered_next_factor numbers.now) trees.now))) }
    ensures grew { Grew rows.old rows.new }
{
    let mut made = left;
    'turns: for tree in trees {
        let (_, operator, part) = next_factor_parts(tree);
        let right = factor(part, numbers, rows)?;
        made = binary(pos, multiplying_operator(operator), made, right, rows)?;
    }
    Ok(made)
}

#[cycle(expression)]
fn factor(tree: &Factor, numbers: &NumberIndex, rows: &mut Rows) -> Result<usize, AllocError>
    ensures tree { IfOk result (λ n. Holds rows.new n (lowered_factor numbers.now tree.now)) }
    ensures grew { Grew rows.old rows.new }
{
    match tree {
        Factor::LonePrimary {
            primary: operand,
            ..
        } => primary(operand, numbers, rows),
        Factor::Abs {
            pos,
            primary: operand,
        } => {
            let operand = primary(operand, numbers, rows)?;
            unary(*pos, UnaryOperator::Abs, operand, rows)
        }
        Factor::Not {
            pos,
            primary: operand,
        } => {
            let operand = primary(operand, numbers, rows)?;
            unary(*pos, UnaryOperator::Not, operand, rows)
        }
    }
}

#[cycle(expression)]
fn primary(tree: &Primary, numbers: &NumberIndex, rows: &mut Rows) -> Result<usize, AllocError>
    ensures tree { IfOk result (λ n. Holds rows.new n (lowered_primary numbers.now tree.now)) }
    ensures grew { Grew rows.old rows.new }
{
    match tree {
        Primary::Number { pos, number } => rows.push(Node::Number {
            pos: *pos,
            value: *number,
        }),
        Primary::Text { pos, text: bytes } => text(*pos, bytes, rows),
        Primary::Null { pos } => rows.push(Node::Null { pos: *pos }),
        Primary::Named { name: part, .. } => name(part.get(), numbers, rows),
        Primary::Parenthesized {
            pos,
            expression,
            ..
        } => {
            let inner = expr(expression.get(), numbers, rows)?;
            rows.push(Node::Parens { pos: *pos, inner })
        }
        Primary::Aggregated {
            aggregate: part,
            ..
        } => aggregate(part.get(), numbers, rows),
        Primary::Allocated { pos, mark: of } => allocated(*pos, of, numbers, rows),
        Primary::AllocatedAggregate {
            pos,
            mark: of,
            aggregate: part,
            ..
        } => {
            let value = aggregate(part.get(), numbers, rows)?;
            allocated_value(*pos, of, value, numbers, rows)
        }
        Primary::AllocatedValue {
            pos,
            mark: of,
            value: part,
            ..
        } => {
            let value = expr(part.get(), numbers, rows)?;
            allocated_value(*pos, of, value, numbers, rows)
        }
    }
}

#[cycle(expression)]
fn aggregate(tree: &Aggregate, numbers: &NumberIndex, rows: &mut Rows) -> Result<usize, AllocError>
    ensures tree { IfOk result (λ n. Holds rows.new n (lowered_aggregate numbers.now tree.now)) }
    ensures grew { Grew rows.old rows.new }
{
    match tree {
        Aggregate::Several {
            pos,
            first,
            second,
            rest,
            ..
        } => {
            let rest = next_args(rest.as_slice(), numbers, rows)?;
            let rest = arg(second.get(), rest, numbers, rows)?;
            let args = arg(first.get(), rest, numbers, rows)?;
            rows.push(Node::Aggregate { pos: *pos, args })
        }
        Aggregate::Single {
            pos,
            name,
            value: part,
            ..
        } => {
            let value = expr(part.get(), numbers, rows)?;
            let word = name.text.clone()?;
            let args = lone_argument(Some(word), value, rows)?;
            rows.push(Node::Aggregate { pos: *pos, args })
        }
        Aggregate::Others {
            pos,
            value: part,
            ..
        } => {
            let value = expr(part.get(), numbers, rows)?;
            rows.push(Node::Others { pos: *pos, value })
        }
    }
}
