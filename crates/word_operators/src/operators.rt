//! Operators on words.
ghost use Rattle.std.specs.Prelude.{◌≡◌, ◌+◌, ◌*◌, ◌-ℤ◌, true, false, unsigned_abs};
ghost use Rattle.run_values.specs.Arithmetic.{is_integer, modulus};
ghost use Rattle.code_rows.specs.Stops.{shown};
ghost use Rattle.run_codes.specs.Flat as flat;
ghost use Rattle.run_codes.specs.Flat.{is_broken};

use code_rows::{Exception, Stop};
use resolved_tree::{Operator, UnaryOperator};

/// A value, or Constraint_Error where there is none.
fn given(value: Option<i32>) -> Result<i64, Stop>
    ensures { flat.given value ≡ shown result }
{
    match value {
        Some(value) => Ok(value as i64),
        None => Err(Stop::Raises(Exception::ConstraintError)),
    }
}

/// A word that is a value of Integer, as one.
fn number(w: i64) -> i32
    requires { is_integer w ≡ true }
    ensures { result ≡ w }
{
    w as i32
}

/// The position of a truth.
pub fn truth(b: bool) -> i64
    ensures { result ≡ flat.truth b }
{
    b as i64
}

/// `A mod B`, where it is a value of Integer: the remainder, where no number is below zero.
#[inline(always)]
fn modulo(a: i32, b: i32) -> Option<i32>
    ensures { result ≡ modulus a b }
{
    if 0 <= a && 0 < b {
        return run_values::remainder(a, b);
    }
    run_values::modulo(a, b)
}

/// The value of an operator on two numbers or positions, or Constraint_Error.
#[inline(always)]
fn applied(operator: Operator, a: i32, b: i32) -> Result<i64, Stop>
    requires { is_broken (flat.applied operator a b) ≡ false }
    ensures { flat.applied operator a b ≡ shown result }
{
    match operator {
        Operator::Add => given(run_values::add(a, b)),
        Operator::Subtract => given(run_values::sub(a, b)),
        Operator::Multiply => given(run_values::mul(a, b)),
        Operator::Divide => given(run_values::div(a, b)),
        Operator::Modulo => given(modulo(a, b)),
        Operator::Remainder => given(run_values::remainder(a, b)),
        Operator::Equal => Ok(truth(a == b)),
        Operator::NotEqual => Ok(truth(a != b)),
        Operator::Less => Ok(truth(a < b)),
        Operator::LessEqual => Ok(truth(a <= b)),
        Operator::Greater => Ok(truth(b < a)),
        Operator::GreaterEqual => Ok(truth(b <= a)),
        Operator::And => Ok(truth(a > 0 && b > 0)),
        Operator::Or => Ok(truth(a > 0 || b > 0)),
        _ => Ok(truth((a > 0) != (b > 0))),
    }
}

/// The value of an operator on two words that are numbers.
#[inline(always)]
pub fn operated(operator: Operator, left: i64, right: i64) -> Result<i64, Stop>
    requires { is_broken (flat.operated operator left right) ≡ false }
    ensures { flat.operated operator left right ≡ shown result }
{
    applied(operator, number(left), number(right))
}

/// The value of an operator on one number.
fn applied_alone(operator: UnaryOperator, operand: i32) -> Result<i64, Stop>
    ensures { flat.applied_alone operator operand ≡ shown result }
{
    match operator {
        UnaryOperator::Plus => Ok(operand as i64),
        UnaryOperator::Minus => given(run_values::neg(operand)),
        UnaryOperator::Abs => given(run_values::abs(operand)),
        UnaryOperator::Not => Ok(truth(operand <= 0)),
    }
}

/// The value of an operator on one word that is a number.
pub fn operated_alone(operator: UnaryOperator, operand: i64) -> Result<i64, Stop>
    requires { is_broken (flat.operated_alone operator operand) ≡ false }
    ensures { flat.operated_alone operator operand ≡ shown result }
{
    applied_alone(operator, number(operand))
}

/// Whether a word is within bounds.
fn is_between(word: i64, low: i32, high: i32) -> bool
    ensures { result ≡ flat.is_between low high word }
{
    low as i64 <= word && word <= high as i64
}

/// How many elements stand before the one with an index.
fn elements_before(index: i64, low: i32, high: i32) -> u64
    requires { flat.is_between low high index ≡ true }
    ensures { result ≡ unsigned_abs (index -ℤ low) }
{
    (index - low as i64) as u64
}

/// The offset of an element after so many others of a size.
fn offset_behind(count: u64, size: u32) -> i64
    requires { is_broken (flat.offset (count * size)) ≡ false }
    ensures { flat.offset (count * size) ≡ flat.Given result }
{
    (count * size as u64) as i64
}

/// An index between bounds, as an offset.
pub fn scaled(index: i64, low: i32, high: i32, size: u32) -> Result<i64, Stop>
    requires { is_broken (flat.scaled low high size index) ≡ false }
    ensures { flat.scaled low high size index ≡ shown result }
{
    if is_between(index, low, high) {
        Ok(offset_behind(elements_before(index, low, high), size))
    } else {
        Err(Stop::Raises(Exception::ConstraintError))
    }
}

/// The sum of two offsets.
pub fn plus(left: i64, right: i64) -> i64
    requires { is_broken (flat.offset (unsigned_abs left + unsigned_abs right)) ≡ false }
    ensures { flat.offset (unsigned_abs left + unsigned_abs right) ≡ flat.Given result }
{
    (left.unsigned_abs() + right.unsigned_abs()) as i64
}

/// A word within bounds, or Constraint_Error.
pub fn within(word: i64, low: i32, high: i32) -> Result<i64, Stop>
    ensures { flat.checked low high word ≡ shown result }
{
    if is_between(word, low, high) {
        Ok(word)
    } else {
        Err(Stop::Raises(Exception::ConstraintError))
    }
}
