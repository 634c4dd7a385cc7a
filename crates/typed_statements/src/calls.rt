//! Call statements.
#![tactic(auto, using(typed_tree::proofs::Grown::grew_on, typed_tree::proofs::Grown::kept))]

ghost use Rattle.std.specs.Prelude.{◌≡◌, ◌<◌, length, IfOk};
ghost use Rattle.resolved_tree.specs.Nodes.{tree_at};
ghost use Rattle.type_definitions.specs.Entries.{entry_of};
ghost use Rattle.type_definitions.specs.Expressions.{call_arguments};
ghost use Rattle.typed_tree.specs.Trees.{Output};
ghost use Rattle.typed_tree.specs.Nodes.{Grew, Holds, HoldsCode};
ghost use Rattle.typed_tree.specs.Expressions.{typed_first};
ghost use Rattle.typed_tree.specs.Statements.{call_of, predefined_call, typed_call, typed_text};
ghost use Rattle.typed_expressions.specs.Sites.{site};

use crate::optional::alone;
use expression_types::INTEGER;
use resolved_tree::Node;
use spark_base::Pos;
use std::alloc::AllocError;
use type_definitions::{Entry, Predefined};
use typed_expressions::Writer;
use typed_tree::{TypedCodeNode, TypedNode, TypedRows};

/// Adds the first actual after the name of a call, of a type.
#[tactic(auto, unfolding(typed_tree::specs::Expressions::typed_first))]
fn first_actual(
    writer: &Writer<'_>,
    want: u32,
    rest: usize,
    to: &mut TypedRows,
) -> Result<usize, AllocError>
    requires { rest < length writer.now.reader.rows.now.0 }
    ensures tree { IfOk result (λ n. Holds to.new n
        (typed_first (site writer.now) want (call_arguments (tree_at writer.now.reader.rows.now rest)))) }
    ensures grew { Grew to.old to.new }
{
    if let Node::More { first, .. } = writer.reader.rows.node(rest) {
        if let Node::Applied { args } = writer.reader.rows.node(*first) {
            return writer.first(want, *args, to);
        }
    }
    to.push(TypedNode::Null)
}

/// Adds a call that writes a string expression.
fn output(
    writer: &Writer<'_>,
    pos: Pos,
    rest: usize,
    line: bool,
    to: &mut TypedRows,
) -> Result<usize, AllocError>
    requires { rest < length writer.now.reader.rows.now.0 }
    ensures code { IfOk result (λ n. HoldsCode to.new n
        (Output pos (typed_text (site writer.now) (call_arguments (tree_at writer.now.reader.rows.now rest))) line)) }
    ensures grew { Grew to.old to.new }
{
    let first = first_actual(writer, INTEGER, rest, to)?;
    let text = alone(first, to)?;
    to.push_code(TypedCodeNode::Output { pos, text, line })
}

/// Adds a call of what is predefined.
fn predefined_call(
    writer: &Writer<'_>,
    pos: Pos,
    which: Predefined,
    rest: usize,
    to: &mut TypedRows,
) -> Result<usize, AllocError>
    requires { rest < length writer.now.reader.rows.now.0 }
    ensures code { IfOk result (λ n. HoldsCode to.new n
        (predefined_call (site writer.now) pos which (call_arguments (tree_at writer.now.reader.rows.now rest)))) }
    ensures grew { Grew to.old to.new }
{
    match which {
        Predefined::Put => output(writer, pos, rest, false, to),
        Predefined::PutLine => output(writer, pos, rest, true, to),
        Predefined::NewLine => {
            let text = to.push(TypedNode::NoMore)?;
            to.push_code(TypedCodeNode::Output {
                pos,
                text,
                line: true,
            })
        }
        Predefined::Get => {
            let target = first_actual(writer, INTEGER, rest, to)?;
            to.push_code(TypedCodeNode::Input { pos, target })
        }
        Predefined::EndOfFile | Predefined::Deallocation => {
            to.push_code(TypedCodeNode::Skip { pos })
        }
    }
}

/// Adds a call of what a name denotes.
fn call_of(
    writer: &Writer<'_>,
    pos: Pos,
    decl: u32,
    rest: usize,
    to: &mut TypedRows,
) -> Result<usize, AllocError>
    requires { rest < length writer.now.reader.rows.now.0 }
    ensures code { IfOk result (λ n. HoldsCode to.new n
        (call_of (site writer.now) pos decl (entry_of writer.now.reader.known.now decl) (tree_at writer.now.reader.rows.now rest))) }
    ensures grew { Grew to.old to.new }
{
    match writer.reader.known.entries.as_slice().get(decl as usize) {
        Some(Entry::Subprogram { .. }) => {
            let actuals = writer.actuals(decl, rest, to)?;
            to.push_code(TypedCodeNode::Call {
                pos,
                sub: writer.sub_number(decl),
                actuals,
            })
        }
        Some(Entry::Instance { name }) => {
            let name = first_actual(writer, *name, rest, to)?;
            to.push_code(TypedCodeNode::Release { pos, name })
        }
        Some(Entry::Predefined { which }) => predefined_call(writer, pos, *which, rest, to),
        _ => to.push_code(TypedCodeNode::Skip { pos }),
    }
}

/// Adds a call statement.
pub fn call(writer: &Writer<'_>, name: usize, to: &mut TypedRows) -> Result<usize, AllocError>
    requires { name < length writer.now.reader.rows.now.0 }
    ensures code { IfOk result (λ n. HoldsCode to.new n
        (typed_call (site writer.now) (tree_at writer.now.reader.rows.now name))) }
    ensures grew { Grew to.old to.new }
{
    match writer.reader.rows.node(name) {
        Node::Named { pos, decl, rest } => call_of(writer, *pos, *decl, *rest, to),
        _ => {
            let pos = writer.reader.position(name);
            to.push_code(TypedCodeNode::Skip { pos })
        }
    }
}
