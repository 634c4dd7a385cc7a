//! Operators (Ada 2012, 4.5).
ghost use Rattle.std.specs.Prelude.{◌≡◌};
ghost use Rattle.type_definitions.specs.Expressions.{is_arithmetic, is_logical, is_equality, is_join, operator_gives, operand_type, unary_type};

use crate::look_up::{BOOLEAN, INTEGER};
use resolved_tree::{Operator, UnaryOperator};
use type_definitions::Own;

/// Whether it takes numbers and gives one.
pub fn is_arithmetic(operator: Operator) -> bool
    ensures { result ≡ is_arithmetic operator }
{
    matches!(
        operator,
        Operator::Add
            | Operator::Subtract
            | Operator::Multiply
            | Operator::Divide
            | Operator::Modulo
            | Operator::Remainder
    )
}

/// Whether it is a logical operator or a short circuit.
pub fn is_logical(operator: Operator) -> bool
    ensures { result ≡ is_logical operator }
{
    matches!(
        operator,
        Operator::And | Operator::Or | Operator::Xor | Operator::AndThen | Operator::OrElse
    )
}

/// Whether it is `=` or `/=`.
pub fn is_equality(operator: Operator) -> bool
    ensures { result ≡ is_equality operator }
{
    matches!(operator, Operator::Equal | Operator::NotEqual)
}

/// Whether it is `&`.
pub fn is_join(operator: Operator) -> bool
    ensures { result ≡ is_join operator }
{
    matches!(operator, Operator::Concatenate)
}

/// What its result is.
pub fn operator_gives(operator: Operator) -> Own
    ensures { result ≡ operator_gives operator }
{
    if is_join(operator) {
        Own::Text
    } else if is_arithmetic(operator) {
        Own::Of { of: INTEGER }
    } else {
        Own::Of { of: BOOLEAN }
    }
}

/// The type of the operands of an arithmetic or logical operator.
pub fn operand_type(operator: Operator) -> u32
    ensures { result ≡ operand_type operator }
{
    if is_arithmetic(operator) {
        INTEGER
    } else {
        BOOLEAN
    }
}

/// The type of the operand of an operator with one, and of its result.
pub fn unary_type(operator: UnaryOperator) -> u32
    ensures { result ≡ unary_type operator }
{
    match operator {
        UnaryOperator::Not => BOOLEAN,
        _ => INTEGER,
    }
}
