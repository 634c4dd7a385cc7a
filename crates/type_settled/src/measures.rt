//! Types measured as far as they are looked at.
ghost use Rattle.std.specs.Prelude.{◌≡◌, ℕ, false, IfOk, IsTrue, length, get_or};
ghost use Rattle.type_settled.specs.Measures.{AreEnough, marked, measure_in, some_below};
ghost use Rattle.type_settled.specs.Orders.{is_done};

use crate::measure::{Measure, is_marked, measure_of};
use crate::order::{Order, is_done};
use crate::reach::reached;
use crate::rounds::rounds;
use crate::visits::measured_in_order;
use std::alloc::{AllocError, Global};
use type_definitions::Info;

/// What is measured of all types. Where a type isn't done, it is known that it is unsound or that
/// an unsound type is in it.
#[derive(Drop)]
pub struct Measures {
    /// The measure of each type that is done.
    pub values: Vec<Measure>,
    /// Whether a type is done. Those beyond the list are.
    pub done: Vec<bool>,
}

/// The measure of a type that is done; of another one, that an unsound type is in it.
pub fn measure_in(measures: &Measures, t: u32) -> Measure
    ensures { result ≡ measure_in measures.now t }
{
    if is_done(&measures.done, t as usize) {
        measure_of(&measures.values, t)
    } else {
        Measure::unsound()
    }
}

/// Whether each type that isn't done is marked, or has a marked type in it.
fn are_marked(done: &[bool], unsound: &[bool], made: &[bool]) -> bool
    ensures { IsTrue result → (t : ℕ) → is_done done.now t ≡ false → marked unsound.now t ≡ false
        → IsTrue (marked made.now t) }
{
    'types: for (t, is_done) in done.iter().enumerate() {
        if !*is_done && !is_marked(unsound, t) && !is_marked(made, t) {
            return false;
        }
    }
    true
}

/// Whether each type that isn't done is marked, or has a marked type in it.
fn is_rest_unsound(
    alloc: Global,
    table: &[Info],
    unsound: &[bool],
    order: &Order,
) -> Result<bool, AllocError>
    ensures { IfOk result (λ r. IsTrue r → (t : ℕ) → is_done order.now.done.items t ≡ false
        → marked unsound.now t ≡ false
        → IsTrue (some_below (length table.now) (marked unsound.now) table.now t)) }
{
    if order.is_whole() {
        return Ok(true);
    }
    let Some(made) = reached(alloc, table, unsound, true)? else {
        return Ok(false);
    };
    Ok(are_marked(&order.done, unsound, &made))
}

/// The measures of all types that are looked at, where those that are marked are unsound. Only
/// where a type has itself in it and no unsound one are all measured in rounds.
pub fn measured(alloc: Global, table: &[Info], unsound: &[bool]) -> Result<Measures, AllocError>
    ensures { IfOk result (λ made. AreEnough (marked unsound.now) table.now made) }
{
    let order = measured_in_order(alloc, table, unsound)?;
    let is_enough = is_rest_unsound(alloc, table, unsound, &order)?;
    if is_enough {
        return Ok(Measures {
            values: order.values,
            done: order.done,
        });
    }
    let values = rounds(alloc, table, unsound)?;
    let done = Vec::new(alloc);
    Ok(Measures { values, done })
}
