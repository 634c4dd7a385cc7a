//! Points that may have leak checks.
ghost use Rattle.std.specs.Prelude.{◌≡◌, [], IsTrue};
ghost use Rattle.code_rows.specs.Points.{AreSound, is_does_there};
ghost use Rattle.run_results.specs.Results.{leaks_of};
ghost use Rattle.slot_memory.specs.Memory.{elsewhere};
ghost use Rattle.slot_goings.specs.Changes.{ValuesChange, CanChange, Changing};

use code_rows::{Does, Place, Rows, Stop};
use run_results::Leak;
use slot_hand::{Hand, push_leak};
use slot_heap::Store;
use slot_memory::Memory;
use slot_places::{assign, end_scope, release};
use slot_points::end_pointer;
use spark_base::Pos;
use type_layouts::Layouts;

/// A value of a type is assigned to a place.
#[inline(always)]
#[tactic(auto, using(crate::proofs::Left::values_rules))]
fn assign_value<R: Store>(
    table: &Layouts,
    rows: &Rows,
    memory: &mut Memory<R>,
    hand: &mut Hand,
    found: &mut Vec<Leak>,
    point: Pos,
    place: Place,
    value: u32,
    of: u32,
    pos: Option<Pos>,
    next: u32,
) -> Result<u32, Stop>
    requires sound { AreSound rows.now }
    requires there { IsTrue (is_does_there rows.now (Does.Assign place value of pos next)) }
    requires none { found.old.items ≡ [] }
    requires whole { CanChange R.Means memory.old (ValuesChange table.now rows.now point (Does.Assign place value of pos next)) }
    ensures left { Changing R.Means memory.old (ValuesChange table.now rows.now point (Does.Assign place value of pos next)) result (leaks_of found.new.items) memory.new }
    ensures elsewhere { elsewhere memory.new ≡ elsewhere memory.old }
{
    let nodes = &rows.nodes;
    let fills = &rows.fills;
    match assign(
        table, nodes, fills, memory, hand, place, value, of, pos, found,
    ) {
        Ok(()) => Ok(next),
        Err(stop) => Err(stop),
    }
}

/// The access value at a place is released.
#[inline(always)]
#[tactic(auto, using(crate::proofs::Left::values_rules))]
fn release_place<R: Store>(
    table: &Layouts,
    rows: &Rows,
    memory: &mut Memory<R>,
    hand: &mut Hand,
    found: &mut Vec<Leak>,
    point: Pos,
    place: Place,
    of: u32,
    pos: Pos,
    next: u32,
) -> Result<u32, Stop>
    requires there { IsTrue (is_does_there rows.now (Does.Release place of pos next)) }
    requires none { found.old.items ≡ [] }
    requires whole { CanChange R.Means memory.old (ValuesChange table.now rows.now point (Does.Release place of pos next)) }
    ensures left { Changing R.Means memory.old (ValuesChange table.now rows.now point (Does.Release place of pos next)) result (leaks_of found.new.items) memory.new }
    ensures elsewhere { elsewhere memory.new ≡ elsewhere memory.old }
{
    match release(table, &rows.nodes, memory, hand, place, of, pos, found) {
        Ok(()) => Ok(next),
        Err(stop) => Err(stop),
    }
}

/// The scope of an object of a named access type ends.
#[inline(always)]
#[tactic(auto, using(crate::proofs::Left::values_rules))]
fn leave_pointer<R: Store>(
    table: &Layouts,
    rows: &Rows,
    memory: &mut Memory<R>,
    found: &mut Vec<Leak>,
    point: Pos,
    at: u32,
    next: u32,
) -> Result<u32, Stop>
    requires none { found.old.items ≡ [] }
    requires whole { CanChange R.Means memory.old (ValuesChange table.now rows.now point (Does.EndPointer at next)) }
    ensures left { Changing R.Means memory.old (ValuesChange table.now rows.now point (Does.EndPointer at next)) result (leaks_of found.new.items) memory.new }
    ensures elsewhere { elsewhere memory.new ≡ elsewhere memory.old }
{
    let word = end_pointer(memory, at);
    match push_leak(memory, word, point, found) {
        Ok(()) => Ok(next),
        Err(stop) => Err(stop),
    }
}

/// The scope of an object of another type ends.
#[inline(always)]
#[tactic(auto, using(crate::proofs::Left::values_rules))]
fn leave_scope<R: Store>(
    table: &Layouts,
    rows: &Rows,
    memory: &mut Memory<R>,
    hand: &mut Hand,
    found: &mut Vec<Leak>,
    point: Pos,
    at: u32,
    of: u32,
    next: u32,
) -> Result<u32, Stop>
    requires none { found.old.items ≡ [] }
    requires whole { CanChange R.Means memory.old (ValuesChange table.now rows.now point (Does.EndScope at of next)) }
    ensures left { Changing R.Means memory.old (ValuesChange table.now rows.now point (Does.EndScope at of next)) result (leaks_of found.new.items) memory.new }
    ensures elsewhere { elsewhere memory.new ≡ elsewhere memory.old }
{
    match end_scope(table, memory, hand, at, of, point, found) {
        Ok(()) => Ok(next),
        Err(stop) => Err(stop),
    }
}

/// A point that may have leak checks: where it leads. The leaks that are found are appended to
/// `found`, where there were none.
#[inline(always)]
#[tactic(auto, using(crate::proofs::Left::no_change))]
pub fn change_values<R: Store>(
    table: &Layouts,
    rows: &Rows,
    memory: &mut Memory<R>,
    hand: &mut Hand,
    found: &mut Vec<Leak>,
    point: Pos,
    does: &Does,
) -> Result<u32, Stop>
    requires sound { AreSound rows.now }
    requires there { IsTrue (is_does_there rows.now does.now) }
    requires none { found.old.items ≡ [] }
    requires whole { CanChange R.Means memory.old (ValuesChange table.now rows.now point does.now) }
    ensures left { Changing R.Means memory.old (ValuesChange table.now rows.now point does.now) result (leaks_of found.new.items) memory.new }
    ensures elsewhere { elsewhere memory.new ≡ elsewhere memory.old }
{
    match *does {
        Does::Assign {
            place,
            value,
            of,
            pos,
            next,
        } => assign_value(
            table, rows, memory, hand, found, point, place, value, of, pos, next,
        ),
        Does::Release {
            place,
            of,
            pos,
            next,
        } => release_place(
            table, rows, memory, hand, found, point, place, of, pos, next,
        ),
        Does::EndPointer { at, next } => leave_pointer(table, rows, memory, found, point, at, next),
        Does::EndScope { at, of, next } => {
            leave_scope(table, rows, memory, hand, found, point, at, of, next)
        }
        _ => Err(Stop::Memory),
    }
}
