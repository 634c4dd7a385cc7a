//! Lists of no expression or one.
#![tactic(auto, using(typed_tree::proofs::Grown::grew_on, typed_tree::proofs::Grown::kept))]

ghost use Rattle.std.specs.Prelude.{◌≡◌, ◌<◌, length, IfOk};
ghost use Rattle.resolved_tree.specs.Nodes.{tree_at};
ghost use Rattle.typed_tree.specs.Trees.{More, NoMore};
ghost use Rattle.typed_tree.specs.Nodes.{typed_at, Grew, Holds};
ghost use Rattle.typed_tree.specs.Expressions.{typed_optional};
ghost use Rattle.typed_expressions.specs.Sites.{site};

use resolved_tree::Node;
use std::alloc::AllocError;
use typed_expressions::Writer;
use typed_tree::{TypedNode, TypedRows};

/// Adds the list of one expression.
pub fn alone(e: usize, to: &mut TypedRows) -> Result<usize, AllocError>
    requires { e < length to.old.0 }
    ensures tree { IfOk result (λ n. Holds to.new n (More (typed_at to.old e) NoMore)) }
    ensures grew { Grew to.old to.new }
{
    let rest = to.push(TypedNode::NoMore)?;
    to.push(TypedNode::More { first: e, rest })
}

/// Adds a list of no expression or one, of a type.
pub fn optional(
    writer: &Writer<'_>,
    want: u32,
    list: usize,
    to: &mut TypedRows,
) -> Result<usize, AllocError>
    requires { list < length writer.now.reader.rows.now.0 }
    ensures tree { IfOk result (λ n. Holds to.new n
        (typed_optional (site writer.now) want (tree_at writer.now.reader.rows.now list))) }
    ensures grew { Grew to.old to.new }
{
    match writer.reader.rows.node(list) {
        Node::More { first, .. } => {
            let value = writer.expression(want, *first, to)?;
            alone(value, to)
        }
        _ => to.push(TypedNode::NoMore),
    }
}
