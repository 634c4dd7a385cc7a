//! Operators with two operands.
ghost use Rattle.std.specs.Prelude.{◌≡◌, ◌<◌, length, IfOk};
ghost use Rattle.typed_tree.specs.Nodes.{typed_at, Grew, Holds};
ghost use Rattle.typed_tree.specs.Trees.{Short};
ghost use Rattle.typed_tree.specs.Expressions.{compared, operands};

use resolved_tree::Operator;
use spark_base::Pos;
use std::alloc::AllocError;
use typed_tree::{ShortCircuit, TypedNode, TypedRows};

/// An operand: whether it is `null`, the position of its first token, and its number.
#[derive(Clone, Copy)]
pub struct Operand {
    pub is_null: bool,
    pub pos: Pos,
    pub number: usize,
}

/// Adds a comparison.
fn compared(
    operator: Operator,
    equal: bool,
    left: Operand,
    right: Operand,
    to: &mut TypedRows,
) -> Result<usize, AllocError>
    requires left { left.number < length to.old.0 }
    requires right { right.number < length to.old.0 }
    ensures tree { IfOk result (λ n. Holds to.new n
        (compared operator equal left.is_null right.is_null (typed_at to.old left.number) (typed_at to.old right.number))) }
    ensures grew { Grew to.old to.new }
{
    match (left.is_null, right.is_null) {
        (true, _) => to.push(TypedNode::IsNull {
            equal,
            name: right.number,
        }),
        (false, true) => to.push(TypedNode::IsNull {
            equal,
            name: left.number,
        }),
        (false, false) => to.push(TypedNode::Binary {
            operator,
            left: left.number,
            right: right.number,
        }),
    }
}

/// Adds a short circuit.
fn short(
    operator: ShortCircuit,
    left: Operand,
    right: Operand,
    to: &mut TypedRows,
) -> Result<usize, AllocError>
    requires left { left.number < length to.old.0 }
    requires right { right.number < length to.old.0 }
    ensures tree { IfOk result (λ n. Holds to.new n
        (Short operator left.pos (typed_at to.old left.number) right.pos (typed_at to.old right.number))) }
    ensures grew { Grew to.old to.new }
{
    to.push(TypedNode::Short {
        operator,
        left_pos: left.pos,
        left: left.number,
        right_pos: right.pos,
        right: right.number,
    })
}

/// Adds an operator with its operands.
pub fn operands(
    operator: Operator,
    left: Operand,
    right: Operand,
    to: &mut TypedRows,
) -> Result<usize, AllocError>
    requires left { left.number < length to.old.0 }
    requires right { right.number < length to.old.0 }
    ensures tree { IfOk result (λ n. Holds to.new n
        (operands operator left.pos right.pos left.is_null right.is_null (typed_at to.old left.number) (typed_at to.old right.number))) }
    ensures grew { Grew to.old to.new }
{
    match operator {
        Operator::AndThen => short(ShortCircuit::AndThen, left, right, to),
        Operator::OrElse => short(ShortCircuit::OrElse, left, right, to),
        Operator::Equal => compared(operator, true, left, right, to),
        Operator::NotEqual => compared(operator, false, left, right, to),
        _ => to.push(TypedNode::Binary {
            operator,
            left: left.number,
            right: right.number,
        }),
    }
}
