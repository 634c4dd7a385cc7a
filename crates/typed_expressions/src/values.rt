//! Values of scalar types.
ghost use Rattle.std.specs.Prelude.{◌≡◌, IfOk};
ghost use Rattle.type_definitions.specs.Statics.{as_integer};
ghost use Rattle.type_definitions.specs.Gathered.{natural_of};
ghost use Rattle.typed_tree.specs.Nodes.{Grew, Holds};
ghost use Rattle.typed_tree.specs.Expressions.{number, value_of_type, within_integer};

use expression_types::INTEGER;
use std::alloc::AllocError;
use typed_tree::{TypedNode, TypedRows};

/// A number of Integer: 0 where it is none.
fn within_integer(value: i64) -> i32
    ensures { result ≡ within_integer (as_integer value) }
{
    match i32::try_from(value) {
        Ok(number) => number,
        Err(_) => 0,
    }
}

/// Adds a number.
pub fn number(value: i64, to: &mut TypedRows) -> Result<usize, AllocError>
    ensures tree { IfOk result (λ n. Holds to.new n (number value)) }
    ensures grew { Grew to.old to.new }
{
    let value = within_integer(value);
    to.push(TypedNode::Number { value })
}

/// The position of a literal: what can't be one is out of memory.
fn natural_of(value: i64) -> Result<u32, AllocError>
    ensures { IfOk result (λ n. n ≡ natural_of value) }
{
    if value < 0 {
        return Ok(0);
    }
    match u32::try_from(value) {
        Ok(position) => Ok(position),
        Err(_) => Err(AllocError),
    }
}

/// Adds a value of Integer or of an enumeration.
pub fn value_of_type(of: u32, value: i64, to: &mut TypedRows) -> Result<usize, AllocError>
    ensures tree { IfOk result (λ n. Holds to.new n (value_of_type of value)) }
    ensures grew { Grew to.old to.new }
{
    if of == INTEGER {
        return number(value, to);
    }
    let position = natural_of(value)?;
    to.push(TypedNode::Literal { position })
}
