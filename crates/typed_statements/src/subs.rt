//! Subprograms.
#![tactic(auto, using(typed_tree::proofs::Grown::grew_on, typed_tree::proofs::Grown::grew_none, std::proofs::lemmas::Grind::common_steps))]

ghost use Rattle.std.specs.Prelude.{◌≡◌, ◌<◌, ◌+◌, ◌++◌, flat_map, length, map, IfOk, OnOk};
ghost use Rattle.std.specs.List.{All};
ghost use Rattle.resolved_tree.specs.Nodes.{code_at};
ghost use Rattle.typed_tree.specs.Nodes.{Grew};
ghost use Rattle.typed_tree.specs.Statements.{scope_count};
ghost use Rattle.typed_tree.specs.Programs.{formal_numbers, front_formals, subs_in, typed_sub};
ghost use Rattle.typed_expressions.specs.Sites.{site};
ghost use Rattle.typed_statements.specs.Bodies.{sub_at, HoldsSub, HoldsSubs};

use crate::declared::{declared_number, front_number, front_pos};
use crate::places::{in_hidden, in_subprogram};
use crate::scopes::{behind, following};
use crate::walk::body;
use resolved_tree::CodeNode;
use spark_base::{Listed, Pos};
use std::alloc::AllocError;
use typed_expressions::Writer;
use typed_tree::TypedRows;

/// A subprogram.
#[derive(Drop)]
pub struct Subprogram {
    /// The position of its identifier.
    pub pos: Pos,
    /// The position of its `end`.
    pub end: Pos,
    /// The numbers of its formals.
    pub formals: Listed<u32>,
    /// The type of a function's result.
    pub result: Option<u32>,
    /// The number of the list of its declarations and statements, among the typed code.
    pub body: usize,
}

/// Adds the numbers of the formals of one declaration.
fn formal_group(
    writer: &Writer<'_>,
    group: usize,
    found: &mut Listed<u32>,
) -> Result<(), AllocError>
    requires { group < length writer.now.reader.rows.now.1 }
    ensures { OnOk result (found.new ≡ found.old ++ formal_numbers (site writer.now) (code_at writer.now.reader.rows.now group)) }
{
    if let CodeNode::Formals { names, .. } = writer.reader.rows.code(group) {
        let mut i = *names;
        'names: while let CodeNode::More { first, rest } = writer.reader.rows.code(i) {
            found.push(writer.object_number(declared_number(writer.reader.rows, *first)))?;
            i = *rest;
        }
    }
    Ok(())
}

/// The numbers of the formals of a subprogram.
fn formals(writer: &Writer<'_>, front: usize) -> Result<Listed<u32>, AllocError>
    requires { front < length writer.now.reader.rows.now.1 }
    ensures { IfOk result (λ found. found
        ≡ flat_map (formal_numbers (site writer.now)) (front_formals (code_at writer.now.reader.rows.now front))) }
{
    let mut found = Listed::new(writer.alloc);
    if let CodeNode::Front { formals, .. } = writer.reader.rows.code(front) {
        let mut i = *formals;
        'groups: while let CodeNode::More { first, rest } = writer.reader.rows.code(i) {
            formal_group(writer, *first, &mut found)?;
            i = *rest;
        }
    }
    Ok(found)
}

/// Adds the body of a subprogram, which is a scope of its own.
fn sub(
    writer: &Writer<'_>,
    front: usize,
    items: usize,
    stmts: usize,
    end: Pos,
    next: &mut u32,
    to: &mut TypedRows,
) -> Result<Subprogram, AllocError>
    requires front { front < length writer.now.reader.rows.now.1 }
    requires items { items < length writer.now.reader.rows.now.1 }
    requires stmts { stmts < length writer.now.reader.rows.now.1 }
    ensures sub { IfOk result (λ made. HoldsSub to.new made
        (typed_sub (site writer.now) next.old (code_at writer.now.reader.rows.now front) (code_at writer.now.reader.rows.now items)
        (code_at writer.now.reader.rows.now stmts) end)) }
    ensures next { OnOk result (next.new ≡ next.old + (1
        + (scope_count (code_at writer.now.reader.rows.now items) + scope_count (code_at writer.now.reader.rows.now stmts)))) }
    ensures grew { Grew to.old to.new }
{
    *next = following(*next)?;
    let body = body(&in_subprogram(writer, front), items, stmts, next, to)?;
    let formals = formals(writer, front)?;
    Ok(Subprogram {
        pos: front_pos(writer.reader.rows, front),
        end,
        formals,
        result: writer
            .reader
            .result(front_number(writer.reader.rows, front)),
        body,
    })
}

/// Adds the subprograms whose bodies stand in two parts of code, after others.
#[cycle(subs)]
fn both(
    writer: &Writer<'_>,
    first: usize,
    second: usize,
    next: &mut u32,
    found: &mut Vec<Subprogram>,
    to: &mut TypedRows,
) -> Result<(), AllocError>
    requires first { first < length writer.now.reader.rows.now.1 }
    requires second { second < length writer.now.reader.rows.now.1 }
    requires found { All (λ b. b.body < length to.old.1) found.old.items }
    ensures subs { OnOk result (HoldsSubs to.new found.new.items (map (sub_at to.old) found.old.items
        ++ (subs_in (site writer.now) next.old (code_at writer.now.reader.rows.now first)
        ++ subs_in (site writer.now) (next.old + scope_count (code_at writer.now.reader.rows.now first))
        (code_at writer.now.reader.rows.now second)))) }
    ensures next { OnOk result (next.new ≡ next.old
        + (scope_count (code_at writer.now.reader.rows.now first) + scope_count (code_at writer.now.reader.rows.now second))) }
    ensures grew { Grew to.old to.new }
{
    subs(writer, first, next, found, to)?;
    subs(writer, second, next, found, to)
}

/// Adds the subprograms whose bodies stand in code that is no list, after others.
#[cycle(subs)]
#[tactic(auto, using(typed_tree::proofs::Grown::grew_on, typed_tree::proofs::Grown::grew_none, std::proofs::lemmas::Grind::common_steps), unfolding(typed_tree::specs::Programs::subs_in, typed_tree::specs::Statements::scope_count))]
fn subs_of_one(
    writer: &Writer<'_>,
    code: usize,
    next: &mut u32,
    found: &mut Vec<Subprogram>,
    to: &mut TypedRows,
) -> Result<(), AllocError>
    requires code { code < length writer.now.reader.rows.now.1 }
    requires found { All (λ b. b.body < length to.old.1) found.old.items }
    ensures subs { OnOk result (HoldsSubs to.new found.new.items (map (sub_at to.old) found.old.items
        ++ subs_in (site writer.now) next.old (code_at writer.now.reader.rows.now code))) }
    ensures next { OnOk result (next.new ≡ next.old + scope_count (code_at writer.now.reader.rows.now code)) }
    ensures grew { Grew to.old to.new }
{
    match writer.reader.rows.code(code) {
        CodeNode::SubBody {
            front,
            items,
            stmts,
            end,
        } => {
            let made = sub(writer, *front, *items, *stmts, *end, next, to)?;
            found.push(made)?;
            Ok(())
        }
        CodeNode::PackageBody { name, parts } => {
            let number = declared_number(writer.reader.rows, *name);
            subs(&in_hidden(writer, number), *parts, next, found, to)
        }
        CodeNode::More { first, rest } => both(writer, *first, *rest, next, found, to),
        _ => {
            *next = behind(writer.reader.rows, code, *next)?;
            Ok(())
        }
    }
}

/// Adds the subprograms whose bodies stand in code, after others. `next` is the number of the next
/// scope that begins.
#[cycle(subs)]
#[tactic(auto, using(typed_tree::proofs::Grown::grew_on, typed_tree::proofs::Grown::grew_none))]
pub fn subs(
    writer: &Writer<'_>,
    code: usize,
    next: &mut u32,
    found: &mut Vec<Subprogram>,
    to: &mut TypedRows,
) -> Result<(), AllocError>
    requires code { code < length writer.now.reader.rows.now.1 }
    requires found { All (λ b. b.body < length to.old.1) found.old.items }
    ensures subs { OnOk result (HoldsSubs to.new found.new.items (map (sub_at to.old) found.old.items
        ++ subs_in (site writer.now) next.old (code_at writer.now.reader.rows.now code))) }
    ensures next { OnOk result (next.new ≡ next.old + scope_count (code_at writer.now.reader.rows.now code)) }
    ensures grew { Grew to.old to.new }
{
    let mut i = code;
    'parts: while let CodeNode::More { first, rest } = writer.reader.rows.code(i) {
        subs_of_one(writer, *first, next, found, to)?;
        i = *rest;
    }
    subs_of_one(writer, i, next, found, to)
}
