//! Actuals, as they are evaluated before a call.
ghost use Rattle.std.specs.Prelude.{◌≡◌, ◌<◌, ◌++◌, ◌∷◌, [], length, map, OnOk, IsTrue};
ghost use Rattle.std.specs.List.{list_all};
ghost use Rattle.code_rows.specs.Rows.{code_at, place_of, is_place_below};
ghost use Rattle.code_rows.specs.Points.{actual_of, is_actual_there, AreSound};
ghost use Rattle.code_rows.specs.Values.{fill_at, are_within};
ghost use Rattle.run_codes.specs.Codes as codes;
ghost use Rattle.run_codes.specs.Flat.{kinds};
ghost use Rattle.slot_memory.specs.Memory.{elsewhere};
ghost use Rattle.slot_memory.specs.Spots.{spot_of};
ghost use Rattle.slot_calls.specs.Calls.{passed_of, AreWithin, Passable, PassedOne, PassableAll, PassedAll, Testable, Tests};

use code_rows::{Actual, Exception, Fills, Nodes, Place, Rows, Stop};
use slot_hand::Hand;
use slot_heap::Store;
use slot_memory::{Memory, Spot};
use slot_values::fill;
use slot_words::{operand, spot};
use spark_base::Pos;
use std::alloc::AllocError;
use type_bounds::fits;
use type_layouts::Layouts;
use word_operators::within;

/// What is known of an actual before the call: the words at hand of its value, from one index to
/// another, or its place with its type.
#[derive(Clone, Copy)]
pub enum Pass {
    Value { first: usize, end: usize },
    From { spot: Spot, of: u32 },
    To { spot: Spot, of: u32, pos: Pos },
}

/// A value is passed: its words are appended to those at hand.
#[tactic(auto, using(crate::proofs::Values::value_rules))]
fn pass_value<R: Store>(
    table: &Layouts,
    nodes: &Nodes,
    fills: &Fills,
    memory: &mut Memory<R>,
    hand: &mut Hand,
    value: u32,
) -> Result<Pass, Stop>
    requires within { IsTrue (are_within nodes.now fills.now) }
    requires there { value < length fills.now }
    requires whole { Passable R.Means memory.old table.now (codes.ByValue (fill_at nodes.now fills.now value)) }
    ensures passed { PassedOne R.Means memory.old table.now (codes.ByValue (fill_at nodes.now fills.now value)) result hand.old hand.new memory.new }
    ensures elsewhere { elsewhere memory.new ≡ elsewhere memory.old }
{
    let first = hand.len();
    fill(table, nodes, fills, memory, hand, value)?;
    let end = hand.len();
    Ok(Pass::Value { first, end })
}

/// What a place of a type holds fits the type of a formal.
#[tactic(auto, using(crate::proofs::Fitting::test_rules))]
fn test_held<R: Store>(
    table: &Layouts,
    memory: &Memory<R>,
    hand: &mut Hand,
    spot: Spot,
    of: u32,
    formal: u32,
) -> Result<(), Stop>
    requires { Testable R.Means memory.now (spot_of spot) (kinds table.now of) }
    ensures tests { Tests R.Means memory.now table.now formal (spot_of spot) (kinds table.now of) result }
    ensures hand { OnOk result (hand.new ≡ hand.old) }
{
    let first = hand.len();
    hand.push_held(table, memory, spot, of)?;
    let fit = fits(table.table(), formal, &hand.words()[first..]);
    hand.cut(first);
    if fit {
        Ok(())
    } else {
        Err(Stop::Raises(Exception::ConstraintError))
    }
}

/// A place is passed whose value a formal gets, if it fits.
#[tactic(auto, using(crate::proofs::Values::from_rules))]
fn pass_from<R: Store>(
    table: &Layouts,
    nodes: &Nodes,
    memory: &Memory<R>,
    hand: &mut Hand,
    place: Place,
    of: u32,
    formal: u32,
) -> Result<Pass, Stop>
    requires there { IsTrue (is_place_below (length nodes.now) place) }
    requires whole { Passable R.Means memory.now table.now (codes.From (place_of (code_at nodes.now) place) of formal) }
    ensures { PassedOne R.Means memory.now table.now (codes.From (place_of (code_at nodes.now) place) of formal) result hand.old hand.new memory.now }
{
    let found = spot(nodes, memory, place)?;
    test_held(table, memory, hand, found.same(), of, formal)?;
    Ok(Pass::From { spot: found, of })
}

/// A place is passed that an `out` formal is copied back to.
#[tactic(auto, using(crate::proofs::Values::to_rules))]
fn pass_to<R: Store>(
    table: &Layouts,
    nodes: &Nodes,
    memory: &Memory<R>,
    hand: &Hand,
    place: Place,
    of: u32,
    pos: Pos,
) -> Result<Pass, Stop>
    requires there { IsTrue (is_place_below (length nodes.now) place) }
    requires whole { Passable R.Means memory.now table.now (codes.To (place_of (code_at nodes.now) place) of pos) }
    ensures { PassedOne R.Means memory.now table.now (codes.To (place_of (code_at nodes.now) place) of pos) result hand.now hand.now memory.now }
{
    let found = spot(nodes, memory, place)?;
    Ok(Pass::To {
        spot: found,
        of,
        pos,
    })
}

/// A scalar word within bounds is passed.
#[tactic(auto, using(crate::proofs::Values::word_rules))]
fn pass_word<R: Store>(
    table: &Layouts,
    nodes: &Nodes,
    memory: &Memory<R>,
    hand: &mut Hand,
    value: u32,
    low: i32,
    high: i32,
) -> Result<Pass, Stop>
    requires there { value < length nodes.now }
    requires whole { Passable R.Means memory.now table.now (codes.ByValue (codes.Checked (code_at nodes.now value) low high)) }
    ensures { PassedOne R.Means memory.now table.now (codes.ByValue (codes.Checked (code_at nodes.now value) low high)) result hand.old hand.new memory.now }
{
    let first = hand.len();
    let given = operand(nodes, memory, value)?;
    let kept = within(given, low, high)?;
    hand.push(kept)?;
    let end = hand.len();
    Ok(Pass::Value { first, end })
}

/// An actual is passed. The words of a value are appended to those at hand.
pub fn pass_actual<R: Store>(
    table: &Layouts,
    rows: &Rows,
    memory: &mut Memory<R>,
    hand: &mut Hand,
    actual: Actual,
) -> Result<Pass, Stop>
    requires sound { AreSound rows.now }
    requires there { IsTrue (is_actual_there rows.now actual) }
    requires whole { Passable R.Means memory.old table.now (actual_of rows.now actual) }
    ensures passed { PassedOne R.Means memory.old table.now (actual_of rows.now actual) result hand.old hand.new memory.new }
    ensures elsewhere { elsewhere memory.new ≡ elsewhere memory.old }
{
    match actual {
        Actual::Word { value, low, high } => {
            pass_word(table, &rows.nodes, memory, hand, value, low, high)
        }
        Actual::Value { value } => pass_value(table, &rows.nodes, &rows.fills, memory, hand, value),
        Actual::From { place, of, formal } => {
            pass_from(table, &rows.nodes, memory, hand, place, of, formal)
        }
        Actual::To { place, of, pos } => {
            pass_to(table, &rows.nodes, memory, hand, place, of, pos)
        }
    }
}

/// One more is passed.
fn push_pass(passes: &mut Vec<Pass>, pass: Pass) -> Result<(), AllocError>
    ensures { OnOk result (passes.new.items ≡ passes.old.items ++ pass ∷ []) }
{
    match pass {
        Pass::Value { first, end } => passes.push(Pass::Value { first, end })?,
        Pass::From { spot, of } => passes.push(Pass::From { spot, of })?,
        Pass::To { spot, of, pos } => passes.push(Pass::To { spot, of, pos })?,
    }
    Ok(())
}

/// Actuals are passed in order.
#[tactic(auto, using(crate::proofs::Passing::all_rules))]
pub fn pass_actuals<R: Store>(
    table: &Layouts,
    rows: &Rows,
    memory: &mut Memory<R>,
    hand: &mut Hand,
    actuals: &[Actual],
    passes: &mut Vec<Pass>,
) -> Result<(), Stop>
    requires sound { AreSound rows.now }
    requires there { IsTrue (list_all (is_actual_there rows.now) actuals.now) }
    requires none { passes.old.items ≡ [] }
    requires whole { PassableAll R.Means memory.old table.now (map (actual_of rows.now) actuals.now) }
    ensures passed { PassedAll R.Means memory.old table.now (map (actual_of rows.now) actuals.now) result (map (passed_of hand.new) passes.new.items) memory.new }
    ensures within { OnOk result (AreWithin (length hand.new) passes.new.items) }
    ensures elsewhere { elsewhere memory.new ≡ elsewhere memory.old }
{
    'actuals: for i in 0..actuals.len() {
        match pass_actual(table, rows, memory, hand, actuals[i]) {
            Ok(pass) => push_pass(passes, pass)?,
            Err(stop) => return Err(stop),
        }
    }
    Ok(())
}
