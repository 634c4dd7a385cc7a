//! Values of any type that are assigned.
ghost use Rattle.std.specs.Prelude.{◌≡◌, ◌<◌, false, length, IfSome, IsTrue};
ghost use Rattle.code_rows.specs.Rows.{code_at, place_of, is_place_below};
ghost use Rattle.code_rows.specs.Values.{fill_at, are_within};
ghost use Rattle.run_codes.specs.Codes.{MovedPointer};
ghost use Rattle.run_codes.specs.Flat.{is_broken};
ghost use Rattle.run_results.specs.Results.{leaks_of};
ghost use Rattle.handled_runs.specs.Assigned.{checked_at, assigned};
ghost use Rattle.slot_memory.specs.Memory.{Knows, Always, elsewhere};
ghost use Rattle.slot_memory.specs.Spots.{spot_of};
ghost use Rattle.slot_hand.specs.Leaks.{Finds};
ghost use Rattle.slot_places.specs.Steps.{Leavable, Leaving, stored_settled, Assignable, Assigning};

use crate::pointers::{assign_moved, put_settled};
use code_rows::{Fill, Fills, Nodes, Place, Stop};
use run_results::Leak;
use slot_hand::Hand;
use slot_heap::Store;
use slot_memory::{Memory, Spot};
use slot_values::fill;
use slot_words::spot;
use spark_base::Pos;
use type_layouts::Layouts;

/// Appends the failed leak checks of a spot of a type, where there are checks.
#[tactic(auto, using(crate::proofs::Assigning::none_found))]
pub(crate) fn check<R: Store>(
    table: &Layouts,
    memory: &Memory<R>,
    hand: &mut Hand,
    spot: Spot,
    of: u32,
    checks: Option<Pos>,
    leaks: &mut Vec<Leak>,
) -> Result<(), Stop>
    requires { Knows R.Means memory.now (λ s. is_broken (checked_at table.now s (spot_of spot) of checks) ≡ false) }
    ensures leaks { Always R.Means memory.now (λ s. is_broken (checked_at table.now s (spot_of spot) of checks) ≡ false → Finds (checked_at table.now s (spot_of spot) of checks) result (leaks_of leaks.old.items) (leaks_of leaks.new.items)) }
    ensures hand { hand.new ≡ hand.old }
{
    match checks {
        Some(pos) => hand.push_leaks(table, memory, spot, of, pos, leaks),
        None => Ok(()),
    }
}

/// What was moved out is gone, and after leak checks the words at hand are stored at a spot of a type.
fn store_checked<R: Store>(
    table: &Layouts,
    memory: &mut Memory<R>,
    hand: &mut Hand,
    spot: Spot,
    of: u32,
    checks: Option<Pos>,
    leaks: &mut Vec<Leak>,
) -> Result<(), Stop>
    requires { Leavable R.Means memory.old (stored_settled table.now (spot_of spot) of checks hand.old) }
    ensures stored { Leaving R.Means memory.old (stored_settled table.now (spot_of spot) of checks hand.old) result (leaks_of leaks.old.items) (leaks_of leaks.new.items) memory.new }
    ensures elsewhere { elsewhere memory.new ≡ elsewhere memory.old }
{
    memory.settle();
    check(table, memory, hand, spot.same(), of, checks, leaks)?;
    hand.store(table, memory, spot, of, 0)
}

/// The words at hand are stored at a place of a type, which is found before the leak checks.
#[inline(never)]
fn any_place<R: Store>(
    table: &Layouts,
    nodes: &Nodes,
    memory: &mut Memory<R>,
    hand: &mut Hand,
    place: Place,
    of: u32,
    checks: Option<Pos>,
    leaks: &mut Vec<Leak>,
) -> Result<(), Stop>
    requires place { IsTrue (is_place_below (length nodes.now) place) }
    requires whole { Leavable R.Means memory.old (assigned table.now (place_of (code_at nodes.now) place) of checks hand.old) }
    ensures stored { Leaving R.Means memory.old (assigned table.now (place_of (code_at nodes.now) place) of checks hand.old) result (leaks_of leaks.old.items) (leaks_of leaks.new.items) memory.new }
    ensures elsewhere { elsewhere memory.new ≡ elsewhere memory.old }
{
    let found = spot(nodes, memory, place)?;
    store_checked(table, memory, hand, found, of, checks, leaks)
}

/// The same. One access value needs no list of words where an object of a named access type in the
/// frame is assigned.
#[inline(always)]
fn place_words<R: Store>(
    table: &Layouts,
    nodes: &Nodes,
    memory: &mut Memory<R>,
    hand: &mut Hand,
    place: Place,
    of: u32,
    checks: Option<Pos>,
    leaks: &mut Vec<Leak>,
) -> Result<(), Stop>
    requires place { IsTrue (is_place_below (length nodes.now) place) }
    requires whole { Leavable R.Means memory.old (assigned table.now (place_of (code_at nodes.now) place) of checks hand.old) }
    ensures stored { Leaving R.Means memory.old (assigned table.now (place_of (code_at nodes.now) place) of checks hand.old) result (leaks_of leaks.old.items) (leaks_of leaks.new.items) memory.new }
    ensures elsewhere { elsewhere memory.new ≡ elsewhere memory.old }
{
    if let Place::Local { at } = place {
        if hand.len() == 1 {
            if table.is_pointer(of) {
                let word = hand.words()[0];
                return put_settled(table, memory, word, at, of, checks, leaks);
            }
        }
    }
    any_place(table, nodes, memory, hand, place, of, checks, leaks)
}

/// A value of a type is made, and its words are stored at a place, which is found then.
#[inline(always)]
fn assign_words<R: Store>(
    table: &Layouts,
    nodes: &Nodes,
    fills: &Fills,
    memory: &mut Memory<R>,
    hand: &mut Hand,
    place: Place,
    value: u32,
    of: u32,
    checks: Option<Pos>,
    leaks: &mut Vec<Leak>,
) -> Result<(), Stop>
    requires within { IsTrue (are_within nodes.now fills.now) }
    requires place { IsTrue (is_place_below (length nodes.now) place) }
    requires value { value < length fills.now }
    requires whole { Assignable R.Means memory.old table.now (place_of (code_at nodes.now) place) (fill_at nodes.now fills.now value) of checks }
    ensures assigned { Assigning R.Means memory.old table.now (place_of (code_at nodes.now) place) (fill_at nodes.now fills.now value) of checks result (leaks_of leaks.old.items) (leaks_of leaks.new.items) memory.new }
    ensures elsewhere { elsewhere memory.new ≡ elsewhere memory.old }
{
    hand.clear();
    fill(table, nodes, fills, memory, hand, value)?;
    place_words(table, nodes, memory, hand, place, of, checks, leaks)
}

/// The place that a value is moved out of, where it is one access value.
#[inline(always)]
fn moved_from(nodes: &Nodes, fills: &Fills, value: u32) -> Option<Place>
    requires within { IsTrue (are_within nodes.now fills.now) }
    requires there { value < length fills.now }
    ensures { IfSome result (λ from. IsTrue (is_place_below (length nodes.now) from) × (fill_at nodes.now fills.now value ≡ MovedPointer (place_of (code_at nodes.now) from))) }
{
    match fills.fill(value, nodes) {
        Fill::MovedPointer { place } => Some(place),
        _ => None,
    }
}

/// A value of a type is assigned to a place, which is found after the value is made.
#[inline(always)]
pub fn assign<R: Store>(
    table: &Layouts,
    nodes: &Nodes,
    fills: &Fills,
    memory: &mut Memory<R>,
    hand: &mut Hand,
    place: Place,
    value: u32,
    of: u32,
    checks: Option<Pos>,
    leaks: &mut Vec<Leak>,
) -> Result<(), Stop>
    requires within { IsTrue (are_within nodes.now fills.now) }
    requires place { IsTrue (is_place_below (length nodes.now) place) }
    requires value { value < length fills.now }
    requires whole { Assignable R.Means memory.old table.now (place_of (code_at nodes.now) place) (fill_at nodes.now fills.now value) of checks }
    ensures assigned { Assigning R.Means memory.old table.now (place_of (code_at nodes.now) place) (fill_at nodes.now fills.now value) of checks result (leaks_of leaks.old.items) (leaks_of leaks.new.items) memory.new }
    ensures elsewhere { elsewhere memory.new ≡ elsewhere memory.old }
{
    if let Place::Local { at } = place {
        if let Some(from) = moved_from(nodes, fills, value) {
            if memory.is_settled() {
                if table.is_pointer(of) {
                    return assign_moved(table, nodes, memory, from, at, of, checks, leaks);
                }
            }
        }
    }
    assign_words(
        table, nodes, fills, memory, hand, place, value, of, checks, leaks,
    )
}
