//! The step of a point.
ghost use Rattle.std.specs.Prelude.{◌≡◌};
ghost use Rattle.slot_goings.specs.Groups.{group_of};
ghost use Rattle.slot_tells.specs.slot_parts.Stages.{IsAt};
ghost use Rattle.slot_tells.specs.slot_parts.Steps.{StepsOf, as_going};

use crate::calls::{step_call, step_fall, step_finish};
use crate::changes::{step_values, step_words};
use crate::holds::step_hold;
use code_rows::{Codes, Does, Point};
use slot_called::Passing;
use slot_goings::{Group, grouped};
use slot_heap::Store;
use slot_tells::{Parts, step_input, step_left, step_output, step_right};
use slot_turns::{Halt, no_memory};
use std::alloc::Global;
use type_layouts::Layouts;

/// The run goes on after such a step.
fn goes(led: Result<(), Halt>) -> Result<bool, Halt>
    ensures { result ≡ as_going led }
{
    match led {
        Ok(()) => Ok(true),
        Err(halt) => Err(halt),
    }
}

/// A point that changes more than the memory.
#[inline(never)]
fn step_other<R: Store>(
    alloc: Global,
    codes: &Codes,
    table: &Layouts,
    parts: &mut Parts<R>,
    passing: &mut Passing,
    point: Point,
    k: usize,
) -> Result<bool, Halt>
    requires { IsAt R.Means codes.now table.now point k parts.old }
    ensures { StepsOf R.Means codes.now table.now point result parts.old parts.new }
{
    match point.does {
        Does::Call { sub, actuals, next } => goes(step_call(
            codes, table, parts, passing, point, k, sub, actuals, next,
        )),
        Does::Output { texts, line, next } => goes(step_output(
            alloc, codes, table, parts, point, k, texts, line, next,
        )),
        Does::Input {
            place,
            low,
            high,
            next,
        } => goes(step_input(codes, table, parts, point, k, place, low, high, next)),
        Does::EvaluateLeft {
            operand,
            or_else,
            next,
            decided,
        } => goes(step_left(
            codes, table, parts, point, k, operand, or_else, next, decided,
        )),
        Does::EvaluateRight { operand, next } => {
            goes(step_right(codes, table, parts, point, k, operand, next))
        }
        Does::Hold { value, of, next } => {
            goes(step_hold(codes, table, parts, point, k, value, of, next))
        }
        Does::Finish => step_finish(codes, table, parts, point, k),
        Does::Fall => step_fall(codes, table, parts, point, k),
        _ => Err(no_memory()),
    }
}

/// The step of a point, which takes the values that wait from a number on: whether the run goes on.
#[inline(always)]
pub fn step_point<R: Store>(
    alloc: Global,
    codes: &Codes,
    table: &Layouts,
    parts: &mut Parts<R>,
    passing: &mut Passing,
    point: &Point,
    k: usize,
) -> Result<bool, Halt>
    requires { IsAt R.Means codes.now table.now point.now k parts.old }
    ensures { StepsOf R.Means codes.now table.now point.now result parts.old parts.new }
{
    match grouped(point.does) {
        Group::Words => goes(step_words(codes, table, parts, point, k)),
        Group::Values => goes(step_values(codes, table, parts, point, k)),
        Group::Others => step_other(alloc, codes, table, parts, passing, *point, k),
    }
}
