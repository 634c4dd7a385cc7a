//! Ranges of loops.
#![tactic(auto, using(typed_tree::proofs::Grown::grew_on, typed_tree::proofs::Grown::kept))]

ghost use Rattle.std.specs.Prelude.{◌≡◌, ◌<◌, length, IfOk};
ghost use Rattle.resolved_tree.specs.Nodes.{code_at, tree_at};
ghost use Rattle.type_definitions.specs.Entries.{integer};
ghost use Rattle.typed_tree.specs.Trees.{Literal, Null, Number};
ghost use Rattle.typed_tree.specs.Nodes.{Grew};
ghost use Rattle.typed_tree.specs.Expressions.{typed_expression};
ghost use Rattle.typed_tree.specs.Statements.{array_seen, bounds_seen, range_of, typed_range};
ghost use Rattle.expression_types.specs.Here.{here};
ghost use Rattle.typed_expressions.specs.Sites.{site};
ghost use Rattle.typed_statements.specs.Made.{HoldsEnds};

use expression_types::{INTEGER, Reader};
use resolved_tree::{CodeNode, Node};
use std::alloc::AllocError;
use type_definitions::{Reading, View};
use typed_expressions::Writer;
use typed_tree::{TypedNode, TypedRows};

/// The bounds of a range.
#[derive(Clone, Copy)]
pub struct Ends {
    pub low: usize,
    pub high: usize,
}

/// Adds two numbers.
fn numbers(low: i32, high: i32, to: &mut TypedRows) -> Result<Ends, AllocError>
    ensures ends { IfOk result (λ ends. HoldsEnds to.new ends (Number low, Number high)) }
    ensures grew { Grew to.old to.new }
{
    let low = to.push(TypedNode::Number { value: low })?;
    let high = to.push(TypedNode::Number { value: high })?;
    Ok(Ends { low, high })
}

/// Adds two literals.
fn literals(low: u32, high: u32, to: &mut TypedRows) -> Result<Ends, AllocError>
    ensures ends { IfOk result (λ ends. HoldsEnds to.new ends (Literal low, Literal high)) }
    ensures grew { Grew to.old to.new }
{
    let low = to.push(TypedNode::Literal { position: low })?;
    let high = to.push(TypedNode::Literal { position: high })?;
    Ok(Ends { low, high })
}

/// Adds what stands for the bounds of what has none.
fn nothing(to: &mut TypedRows) -> Result<Ends, AllocError>
    ensures ends { IfOk result (λ ends. HoldsEnds to.new ends (Null, Null)) }
    ensures grew { Grew to.old to.new }
{
    let none = to.push(TypedNode::Null)?;
    Ok(Ends {
        low: none,
        high: none,
    })
}

/// Adds the first and the last value of a type or an array.
fn bounds_seen(view: View, to: &mut TypedRows) -> Result<Ends, AllocError>
    ensures ends { IfOk result (λ ends. HoldsEnds to.new ends (bounds_seen view)) }
    ensures grew { Grew to.old to.new }
{
    match view {
        View::Whole { low, high } => numbers(low, high, to),
        View::Listed { low, high } => literals(low, high, to),
        View::Elements { low, high, .. } => numbers(low, high, to),
        View::Hidden | View::Access { .. } | View::Fields => nothing(to),
    }
}

/// The array of A'Range: an object or a type.
fn array_seen(reader: &Reader<'_>, decl: u32, reading: Reading) -> View
    ensures { result ≡ array_seen (here reader.now) decl reading }
{
    match reading {
        Reading::Place { of } => reader.seen(of),
        _ => reader.seen(decl),
    }
}

/// Adds the bounds of A'Range.
fn range_of(writer: &Writer<'_>, name: usize, to: &mut TypedRows) -> Result<Ends, AllocError>
    requires { name < length writer.now.reader.rows.now.0 }
    ensures ends { IfOk result (λ ends. HoldsEnds to.new ends
        (range_of (here writer.now.reader) (tree_at writer.now.reader.rows.now name))) }
    ensures grew { Grew to.old to.new }
{
    let reader = writer.reader;
    match reader.rows.node(name) {
        Node::Named { decl, rest, .. } => {
            let reading = reader.reading_of(*decl, *rest);
            bounds_seen(array_seen(&reader, *decl, reading), to)
        }
        _ => nothing(to),
    }
}

/// Adds two bounds.
fn bounds(
    writer: &Writer<'_>,
    low: usize,
    high: usize,
    to: &mut TypedRows,
) -> Result<Ends, AllocError>
    requires low { low < length writer.now.reader.rows.now.0 }
    requires high { high < length writer.now.reader.rows.now.0 }
    ensures ends { IfOk result (λ ends. HoldsEnds to.new ends (
      typed_expression (site writer.now) integer (tree_at writer.now.reader.rows.now low),
      typed_expression (site writer.now) integer (tree_at writer.now.reader.rows.now high),
    )) }
    ensures grew { Grew to.old to.new }
{
    let low = writer.expression(INTEGER, low, to)?;
    let high = writer.expression(INTEGER, high, to)?;
    Ok(Ends { low, high })
}

/// Adds the bounds of a range.
pub fn range(writer: &Writer<'_>, range: usize, to: &mut TypedRows) -> Result<Ends, AllocError>
    requires { range < length writer.now.reader.rows.now.1 }
    ensures ends { IfOk result (λ ends. HoldsEnds to.new ends
        (typed_range (site writer.now) (code_at writer.now.reader.rows.now range))) }
    ensures grew { Grew to.old to.new }
{
    let reader = writer.reader;
    match reader.rows.code(range) {
        CodeNode::Bounds { low, high } => bounds(writer, *low, *high, to),
        CodeNode::Constrained { low, high, .. } => bounds(writer, *low, *high, to),
        CodeNode::Marked { mark } => bounds_seen(reader.full(reader.marked(*mark)), to),
        CodeNode::RangeOf { name } => range_of(writer, *name, to),
        _ => nothing(to),
    }
}
