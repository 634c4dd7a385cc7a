//! The walk through declarations and statements.
#![tactic(auto, using(typed_tree::proofs::Grown::grew_on, typed_tree::proofs::Grown::kept, typed_tree::proofs::Grown::kept_code))]

ghost use Rattle.std.specs.Prelude.{◌≡◌, ◌<◌, ◌+◌, ◌++◌, length, map, IfOk, IsTrue, OnOk};
ghost use Rattle.std.specs.List.{All};
ghost use Rattle.spark_base.specs.declared.position.Pos.{Pos};
ghost use Rattle.resolved_tree.specs.Nodes.{code_at, tree_at};
ghost use Rattle.type_definitions.specs.Entries.{boolean, integer};
ghost use Rattle.type_definitions.specs.Gathered.{declared_number};
ghost use Rattle.expression_types.specs.Here.{here};
ghost use Rattle.typed_tree.specs.Trees.{Block, Branch, Case, For, If, Loop, When, While, typed_code_list};
ghost use Rattle.typed_tree.specs.Nodes.{typed_code_at, Grew, HoldsAllCode, HoldsCode};
ghost use Rattle.typed_tree.specs.Expressions.{object_number, typed_expression};
ghost use Rattle.typed_tree.specs.Statements.{scope_count, statements, typed_body, typed_choices, typed_range};
ghost use Rattle.typed_expressions.specs.Sites.{site};
ghost use Rattle.typed_statements.specs.Made.{is_compound, HoldsOne};

use crate::choices::choices;
use crate::declared::declared_number;
use crate::plain::plain;
use crate::ranges::range;
use crate::scopes::{behind, following};
use expression_types::{BOOLEAN, INTEGER};
use resolved_tree::CodeNode;
use spark_base::Pos;
use std::alloc::AllocError;
use typed_expressions::Writer;
use typed_tree::{TypedCodeNode, TypedRows};

/// Adds the list of the statements that code means.
#[cycle(walk)]
fn list(
    writer: &Writer<'_>,
    code: usize,
    next: &mut u32,
    to: &mut TypedRows,
) -> Result<usize, AllocError>
    requires { code < length writer.now.reader.rows.now.1 }
    ensures code { IfOk result (λ n. HoldsCode to.new n
        (typed_code_list (statements (site writer.now) next.old (code_at writer.now.reader.rows.now code)))) }
    ensures next { OnOk result (next.new ≡ next.old + scope_count (code_at writer.now.reader.rows.now code)) }
    ensures grew { Grew to.old to.new }
{
    let mut made = Vec::new(writer.alloc);
    statements(writer, code, next, &mut made, to)?;
    to.code_list(&made)
}

/// Adds the list of the declarations and the statements of a body.
#[cycle(walk)]
pub fn body(
    writer: &Writer<'_>,
    items: usize,
    stmts: usize,
    next: &mut u32,
    to: &mut TypedRows,
) -> Result<usize, AllocError>
    requires items { items < length writer.now.reader.rows.now.1 }
    requires stmts { stmts < length writer.now.reader.rows.now.1 }
    ensures code { IfOk result (λ n. HoldsCode to.new n
        (typed_body (site writer.now) next.old (code_at writer.now.reader.rows.now items) (code_at writer.now.reader.rows.now stmts))) }
    ensures next { OnOk result (next.new ≡ next.old
        + (scope_count (code_at writer.now.reader.rows.now items) + scope_count (code_at writer.now.reader.rows.now stmts))) }
    ensures grew { Grew to.old to.new }
{
    let mut made = Vec::new(writer.alloc);
    statements(writer, items, next, &mut made, to)?;
    statements(writer, stmts, next, &mut made, to)?;
    to.code_list(&made)
}

/// Adds an `if` of its branches and what follows `else`.
#[cycle(walk)]
fn if_statement(
    writer: &Writer<'_>,
    branches: usize,
    otherwise: usize,
    next: &mut u32,
    to: &mut TypedRows,
) -> Result<usize, AllocError>
    requires branches { branches < length writer.now.reader.rows.now.1 }
    requires otherwise { otherwise < length writer.now.reader.rows.now.1 }
    ensures code { IfOk result (λ n. HoldsCode to.new n
        (If (typed_code_list (statements (site writer.now) next.old (code_at writer.now.reader.rows.now branches)))
        (typed_code_list (statements (site writer.now) (next.old + scope_count (code_at writer.now.reader.rows.now branches))
        (code_at writer.now.reader.rows.now otherwise))))) }
    ensures next { OnOk result (next.new ≡ next.old
        + (scope_count (code_at writer.now.reader.rows.now branches) + scope_count (code_at writer.now.reader.rows.now otherwise))) }
    ensures grew { Grew to.old to.new }
{
    let branches = list(writer, branches, next, to)?;
    let otherwise = list(writer, otherwise, next, to)?;
    to.push_code(TypedCodeNode::If {
        branches,
        otherwise,
    })
}

/// Adds a branch of an `if`.
#[cycle(walk)]
fn branch(
    writer: &Writer<'_>,
    pos: Pos,
    condition: usize,
    stmts: usize,
    next: &mut u32,
    to: &mut TypedRows,
) -> Result<usize, AllocError>
    requires condition { condition < length writer.now.reader.rows.now.0 }
    requires stmts { stmts < length writer.now.reader.rows.now.1 }
    ensures code { IfOk result (λ n. HoldsCode to.new n
        (Branch pos (typed_expression (site writer.now) boolean (tree_at writer.now.reader.rows.now condition))
        (typed_code_list (statements (site writer.now) next.old (code_at writer.now.reader.rows.now stmts))))) }
    ensures next { OnOk result (next.new ≡ next.old + scope_count (code_at writer.now.reader.rows.now stmts)) }
    ensures grew { Grew to.old to.new }
{
    let condition = writer.expression(BOOLEAN, condition, to)?;
    let stmts = list(writer, stmts, next, to)?;
    to.push_code(TypedCodeNode::Branch {
        pos,
        condition,
        stmts,
    })
}

/// Adds a `case`.
#[cycle(walk)]
fn case(
    writer: &Writer<'_>,
    pos: Pos,
    selector: usize,
    alternatives: usize,
    next: &mut u32,
    to: &mut TypedRows,
) -> Result<usize, AllocError>
    requires selector { selector < length writer.now.reader.rows.now.0 }
    requires alternatives { alternatives < length writer.now.reader.rows.now.1 }
    ensures code { IfOk result (λ n. HoldsCode to.new n
        (Case pos (typed_expression (site writer.now) integer (tree_at writer.now.reader.rows.now selector))
        (typed_code_list (statements (site writer.now) next.old (code_at writer.now.reader.rows.now alternatives))))) }
    ensures next { OnOk result (next.new ≡ next.old + scope_count (code_at writer.now.reader.rows.now alternatives)) }
    ensures grew { Grew to.old to.new }
{
    let selector = writer.expression(INTEGER, selector, to)?;
    let alternatives = list(writer, alternatives, next, to)?;
    to.push_code(TypedCodeNode::Case {
        pos,
        selector,
        alternatives,
    })
}

/// Adds an alternative of a `case`.
#[cycle(walk)]
fn alternative(
    writer: &Writer<'_>,
    list_of_choices: usize,
    stmts: usize,
    next: &mut u32,
    to: &mut TypedRows,
) -> Result<usize, AllocError>
    requires choices { list_of_choices < length writer.now.reader.rows.now.1 }
    requires stmts { stmts < length writer.now.reader.rows.now.1 }
    ensures code { IfOk result (λ n. HoldsCode to.new n
        (When (typed_choices (here writer.now.reader) (code_at writer.now.reader.rows.now list_of_choices))
        (typed_code_list (statements (site writer.now) next.old (code_at writer.now.reader.rows.now stmts))))) }
    ensures next { OnOk result (next.new ≡ next.old + scope_count (code_at writer.now.reader.rows.now stmts)) }
    ensures grew { Grew to.old to.new }
{
    let choices = choices(writer, list_of_choices, to)?;
    let stmts = list(writer, stmts, next, to)?;
    to.push_code(TypedCodeNode::When { choices, stmts })
}

/// Adds a plain loop.
#[cycle(walk)]
fn plain_loop(
    writer: &Writer<'_>,
    stmts: usize,
    next: &mut u32,
    to: &mut TypedRows,
) -> Result<usize, AllocError>
    requires { stmts < length writer.now.reader.rows.now.1 }
    ensures code { IfOk result (λ n. HoldsCode to.new n
        (Loop (typed_code_list (statements (site writer.now) next.old (code_at writer.now.reader.rows.now stmts))))) }
    ensures next { OnOk result (next.new ≡ next.old + scope_count (code_at writer.now.reader.rows.now stmts)) }
    ensures grew { Grew to.old to.new }
{
    let stmts = list(writer, stmts, next, to)?;
    to.push_code(TypedCodeNode::Loop { stmts })
}

/// Adds a `while` loop.
#[cycle(walk)]
fn while_loop(
    writer: &Writer<'_>,
    pos: Pos,
    condition: usize,
    stmts: usize,
    next: &mut u32,
    to: &mut TypedRows,
) -> Result<usize, AllocError>
    requires condition { condition < length writer.now.reader.rows.now.0 }
    requires stmts { stmts < length writer.now.reader.rows.now.1 }
    ensures code { IfOk result (λ n. HoldsCode to.new n
        (While pos (typed_expression (site writer.now) boolean (tree_at writer.now.reader.rows.now condition))
        (typed_code_list (statements (site writer.now) next.old (code_at writer.now.reader.rows.now stmts))))) }
    ensures next { OnOk result (next.new ≡ next.old + scope_count (code_at writer.now.reader.rows.now stmts)) }
    ensures grew { Grew to.old to.new }
{
    let condition = writer.expression(BOOLEAN, condition, to)?;
    let stmts = list(writer, stmts, next, to)?;
    to.push_code(TypedCodeNode::While {
        pos,
        condition,
        stmts,
    })
}

/// Adds a `for` loop: its parameter and its statements are in a scope of its own.
#[cycle(walk)]
fn for_loop(
    writer: &Writer<'_>,
    pos: Pos,
    parameter: usize,
    reverse: bool,
    bounds: usize,
    stmts: usize,
    next: &mut u32,
    to: &mut TypedRows,
) -> Result<usize, AllocError>
    requires parameter { parameter < length writer.now.reader.rows.now.1 }
    requires bounds { bounds < length writer.now.reader.rows.now.1 }
    requires stmts { stmts < length writer.now.reader.rows.now.1 }
    ensures code { IfOk result (λ n. HoldsCode to.new n
        (For pos (object_number (site writer.now) (declared_number (code_at writer.now.reader.rows.now parameter))) reverse
        (typed_range (site writer.now) (code_at writer.now.reader.rows.now bounds)).0
        (typed_range (site writer.now) (code_at writer.now.reader.rows.now bounds)).1
        (typed_code_list (statements (site writer.now) (next.old + 1) (code_at writer.now.reader.rows.now stmts))))) }
    ensures next { OnOk result (next.new ≡ next.old + (1 + scope_count (code_at writer.now.reader.rows.now stmts))) }
    ensures grew { Grew to.old to.new }
{
    let ends = range(writer, bounds, to)?;
    let inner = following(*next)?;
    *next = inner;
    let stmts = list(writer, stmts, next, to)?;
    to.push_code(TypedCodeNode::For {
        pos,
        parameter: writer.object_number(declared_number(writer.reader.rows, parameter)),
        reverse,
        low: ends.low,
        high: ends.high,
        stmts,
    })
}

/// Adds a block, which is a scope of its own.
#[cycle(walk)]
fn block(
    writer: &Writer<'_>,
    items: usize,
    stmts: usize,
    end: Pos,
    next: &mut u32,
    to: &mut TypedRows,
) -> Result<usize, AllocError>
    requires items { items < length writer.now.reader.rows.now.1 }
    requires stmts { stmts < length writer.now.reader.rows.now.1 }
    ensures code { IfOk result (λ n. HoldsCode to.new n
        (Block next.old (typed_body (site writer.now) (next.old + 1) (code_at writer.now.reader.rows.now items)
        (code_at writer.now.reader.rows.now stmts)) end)) }
    ensures next { OnOk result (next.new ≡ next.old + (1
        + (scope_count (code_at writer.now.reader.rows.now items) + scope_count (code_at writer.now.reader.rows.now stmts)))) }
    ensures grew { Grew to.old to.new }
{
    let scope = *next;
    *next = following(scope)?;
    let stmts = body(writer, items, stmts, next, to)?;
    to.push_code(TypedCodeNode::Block { scope, stmts, end })
}

/// Adds a statement, or a part of one, that holds others.
#[cycle(walk)]
#[tactic(auto, unfolding(typed_tree::specs::Statements::statements, typed_tree::specs::Statements::scope_count))]
fn compound(
    writer: &Writer<'_>,
    code: usize,
    next: &mut u32,
    to: &mut TypedRows,
) -> Result<usize, AllocError>
    requires { code < length writer.now.reader.rows.now.1 }
    ensures code { IfOk result (λ n. HoldsOne to.new n (is_compound (code_at writer.now.reader.rows.now code))
        (statements (site writer.now) next.old (code_at writer.now.reader.rows.now code))) }
    ensures next { OnOk result (IsTrue (is_compound (code_at writer.now.reader.rows.now code))
        → next.new ≡ next.old + scope_count (code_at writer.now.reader.rows.now code)) }
    ensures grew { Grew to.old to.new }
{
    match writer.reader.rows.code(code) {
        CodeNode::If {
            branches,
            otherwise,
            ..
        } => if_statement(writer, *branches, *otherwise, next, to),
        CodeNode::Branch {
            pos,
            condition,
            stmts,
        } => branch(writer, *pos, *condition, *stmts, next, to),
        CodeNode::Case {
            pos,
            selector,
            alternatives,
        } => case(writer, *pos, *selector, *alternatives, next, to),
        CodeNode::When { choices, stmts } => alternative(writer, *choices, *stmts, next, to),
        CodeNode::Loop { stmts, .. } => plain_loop(writer, *stmts, next, to),
        CodeNode::While {
            pos,
            condition,
            stmts,
        } => while_loop(writer, *pos, *condition, *stmts, next, to),
        CodeNode::For {
            pos,
            parameter,
            reverse,
            range,
            stmts,
        } => for_loop(writer, *pos, *parameter, *reverse, *range, *stmts, next, to),
        CodeNode::Block {
            items,
            stmts,
            end,
            ..
        } => block(writer, *items, *stmts, *end, next, to),
        _ => to.push_code(TypedCodeNode::NoMore),
    }
}

/// Adds the statements of one part of code and of another, after other code.
#[cycle(walk)]
fn both(
    writer: &Writer<'_>,
    first: usize,
    second: usize,
    next: &mut u32,
    made: &mut Vec<usize>,
    to: &mut TypedRows,
) -> Result<(), AllocError>
    requires first { first < length writer.now.reader.rows.now.1 }
    requires second { second < length writer.now.reader.rows.now.1 }
    requires made { All (λ k. k < length to.old.1) made.old.items }
    ensures code { OnOk result (HoldsAllCode to.new made.new.items (map (typed_code_at to.old) made.old.items
        ++ (statements (site writer.now) next.old (code_at writer.now.reader.rows.now first)
        ++ statements (site writer.now) (next.old + scope_count (code_at writer.now.reader.rows.now first))
        (code_at writer.now.reader.rows.now second)))) }
    ensures next { OnOk result (next.new ≡ next.old
        + (scope_count (code_at writer.now.reader.rows.now first) + scope_count (code_at writer.now.reader.rows.now second))) }
    ensures grew { Grew to.old to.new }
{
    statements(writer, first, next, made, to)?;
    statements(writer, second, next, made, to)
}

/// Adds the statements that code which is no list means, after other code. What declares no object
/// means none.
#[cycle(walk)]
#[tactic(auto, using(typed_tree::proofs::Grown::grew_on, crate::proofs::Lists::put_one, typed_tree::proofs::Grown::grew_none, std::proofs::lemmas::Grind::common_steps), unfolding(typed_tree::specs::Statements::statements, typed_tree::specs::Statements::scope_count))]
fn item(
    writer: &Writer<'_>,
    code: usize,
    next: &mut u32,
    made: &mut Vec<usize>,
    to: &mut TypedRows,
) -> Result<(), AllocError>
    requires code { code < length writer.now.reader.rows.now.1 }
    requires made { All (λ k. k < length to.old.1) made.old.items }
    ensures code { OnOk result (HoldsAllCode to.new made.new.items (map (typed_code_at to.old) made.old.items
        ++ statements (site writer.now) next.old (code_at writer.now.reader.rows.now code))) }
    ensures next { OnOk result (next.new ≡ next.old + scope_count (code_at writer.now.reader.rows.now code)) }
    ensures grew { Grew to.old to.new }
{
    match writer.reader.rows.code(code) {
        CodeNode::If { .. }
        | CodeNode::Branch { .. }
        | CodeNode::Case { .. }
        | CodeNode::When { .. }
        | CodeNode::Loop { .. }
        | CodeNode::While { .. }
        | CodeNode::For { .. }
        | CodeNode::Block { .. } => {
            let number = compound(writer, code, next, to)?;
            made.push(number)?;
            Ok(())
        }
        CodeNode::More { first, rest } => both(writer, *first, *rest, next, made, to),
        CodeNode::SubBody { .. } | CodeNode::Package { .. } | CodeNode::PackageBody { .. } => {
            *next = behind(writer.reader.rows, code, *next)?;
            Ok(())
        }
        _ => plain(writer, code, made, to),
    }
}

/// Adds the statements that code means, after other code. `next` is the number of the next scope
/// that begins. A list is gone along, so that the depth of calls is that of nesting.
#[cycle(walk)]
#[tactic(auto, using(typed_tree::proofs::Grown::grew_on, typed_tree::proofs::Grown::grew_none))]
pub fn statements(
    writer: &Writer<'_>,
    code: usize,
    next: &mut u32,
    made: &mut Vec<usize>,
    to: &mut TypedRows,
) -> Result<(), AllocError>
    requires code { code < length writer.now.reader.rows.now.1 }
    requires made { All (λ k. k < length to.old.1) made.old.items }
    ensures code { OnOk result (HoldsAllCode to.new made.new.items (map (typed_code_at to.old) made.old.items
        ++ statements (site writer.now) next.old (code_at writer.now.reader.rows.now code))) }
    ensures next { OnOk result (next.new ≡ next.old + scope_count (code_at writer.now.reader.rows.now code)) }
    ensures grew { Grew to.old to.new }
{
    let mut i = code;
    'parts: while let CodeNode::More { first, rest } = writer.reader.rows.code(i) {
        item(writer, *first, next, made, to)?;
        i = *rest;
    }
    item(writer, i, next, made, to)
}
