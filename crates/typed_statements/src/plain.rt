//! Declarations, and statements that hold no others.
#![tactic(auto, using(typed_tree::proofs::Grown::grew_on, typed_tree::proofs::Grown::kept))]

ghost use Rattle.std.specs.Prelude.{◌≡◌, ◌<◌, ◌++◌, length, map, IfOk, OnOk};
ghost use Rattle.std.specs.List.{All};
ghost use Rattle.resolved_tree.specs.Nodes.{code_at, tree_at};
ghost use Rattle.type_definitions.specs.Statements.{target_reading};
ghost use Rattle.expression_types.specs.Here.{here};
ghost use Rattle.typed_tree.specs.Nodes.{typed_code_at, Grew, HoldsAllCode, HoldsCode};
ghost use Rattle.typed_tree.specs.Statements.{plain_statements, returned_type, type_read, typed_assign};
ghost use Rattle.typed_expressions.specs.Sites.{site};
ghost use Rattle.typed_statements.specs.Made.{is_simple, HoldsOne};

use crate::calls::call;
use crate::objects::{numbers, objects};
use crate::optional::optional;
use expression_types::{BOOLEAN, INTEGER, Reader};
use resolved_tree::{CodeNode, Node};
use std::alloc::AllocError;
use type_definitions::Reading;
use typed_expressions::Writer;
use typed_tree::{TypedCodeNode, TypedRows};

/// What the target of an assignment is.
fn target_reading(reader: &Reader<'_>, target: usize) -> Reading
    requires { target < length reader.now.rows.now.0 }
    ensures { result ≡ target_reading (here reader.now) (tree_at reader.now.rows.now target) }
{
    match reader.rows.node(target) {
        Node::Named { decl, rest, .. } => reader.reading_of(*decl, *rest),
        _ => Reading::Off,
    }
}

/// The type of a place, or Integer.
fn type_read(reading: Reading) -> u32
    ensures { result ≡ type_read reading }
{
    match reading {
        Reading::Place { of } => of,
        _ => INTEGER,
    }
}

/// Adds an assignment.
fn assign(
    writer: &Writer<'_>,
    target: usize,
    value: usize,
    to: &mut TypedRows,
) -> Result<usize, AllocError>
    requires target { target < length writer.now.reader.rows.now.0 }
    requires value { value < length writer.now.reader.rows.now.0 }
    ensures code { IfOk result (λ n. HoldsCode to.new n
        (typed_assign (site writer.now) (tree_at writer.now.reader.rows.now target) (tree_at writer.now.reader.rows.now value))) }
    ensures grew { Grew to.old to.new }
{
    let pos = writer.reader.position(target);
    let want = type_read(target_reading(&writer.reader, target));
    let target = writer.expression(INTEGER, target, to)?;
    let value = writer.expression(want, value, to)?;
    to.push_code(TypedCodeNode::Assign { pos, target, value })
}

/// The type that a `return` gives a value of.
fn returned_type(reader: &Reader<'_>) -> u32
    ensures { result ≡ returned_type (here reader.now) reader.now.sub }
{
    match reader.sub {
        None => INTEGER,
        Some(f) => reader.result_type(f),
    }
}

/// Adds a statement that holds no others.
fn simple(writer: &Writer<'_>, code: usize, to: &mut TypedRows) -> Result<usize, AllocError>
    requires { code < length writer.now.reader.rows.now.1 }
    ensures code { IfOk result (λ n. HoldsOne to.new n (is_simple (code_at writer.now.reader.rows.now code))
        (plain_statements (site writer.now) (code_at writer.now.reader.rows.now code))) }
    ensures grew { Grew to.old to.new }
{
    match writer.reader.rows.code(code) {
        CodeNode::Assign { target, value } => assign(writer, *target, *value, to),
        CodeNode::Call { name } => call(writer, *name, to),
        CodeNode::Exit { pos, condition } => {
            let condition = optional(writer, BOOLEAN, *condition, to)?;
            to.push_code(TypedCodeNode::Exit {
                pos: *pos,
                condition,
            })
        }
        CodeNode::Return { pos, value } => {
            let value = optional(writer, returned_type(&writer.reader), *value, to)?;
            to.push_code(TypedCodeNode::Return { pos: *pos, value })
        }
        CodeNode::Skip { pos } => to.push_code(TypedCodeNode::Skip { pos: *pos }),
        _ => to.push_code(TypedCodeNode::NoMore),
    }
}

/// Adds declarations, or a statement that holds no others, after other code.
#[tactic(auto, using(typed_tree::proofs::Grown::grew_on, crate::proofs::Lists::put_one, typed_tree::proofs::Grown::grew_none, std::proofs::lemmas::Grind::common_steps))]
pub fn plain(
    writer: &Writer<'_>,
    code: usize,
    made: &mut Vec<usize>,
    to: &mut TypedRows,
) -> Result<(), AllocError>
    requires code { code < length writer.now.reader.rows.now.1 }
    requires made { All (λ k. k < length to.old.1) made.old.items }
    ensures code { OnOk result (HoldsAllCode to.new made.new.items (map (typed_code_at to.old) made.old.items
        ++ plain_statements (site writer.now) (code_at writer.now.reader.rows.now code))) }
    ensures grew { Grew to.old to.new }
{
    match writer.reader.rows.code(code) {
        CodeNode::Objects {
            names,
            of,
            value,
            ..
        } => objects(writer, *names, *of, *value, made, to),
        CodeNode::Numbers { names, value } => numbers(writer, *names, *value, made, to),
        CodeNode::Skip { .. }
        | CodeNode::Assign { .. }
        | CodeNode::Call { .. }
        | CodeNode::Exit { .. }
        | CodeNode::Return { .. } => {
            let number = simple(writer, code, to)?;
            made.push(number)?;
            Ok(())
        }
        _ => Ok(()),
    }
}
