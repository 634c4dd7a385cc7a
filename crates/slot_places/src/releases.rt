//! Cells that are released.
ghost use Rattle.std.specs.Prelude.{◌≡◌, length, suc, unsigned_abs, IsTrue};
ghost use Rattle.code_rows.specs.Rows.{code_at, place_of, is_place_below};
ghost use Rattle.run_results.specs.Results.{leaks_of};
ghost use Rattle.handled_runs.specs.Released.{released};
ghost use Rattle.slot_memory.specs.Memory.{elsewhere};
ghost use Rattle.slot_memory.specs.Spots.{spot_of};
ghost use Rattle.slot_places.specs.Steps.{Leavable, Leaving, named_at};

use code_rows::{Nodes, Place, Stop};
use run_results::Leak;
use run_values::{Handle, Kind};
use slot_hand::Hand;
use slot_heap::Store;
use slot_memory::{Memory, Spot};
use slot_words::spot;
use spark_base::Pos;
use type_layouts::Layouts;

/// A cell is freed after its leak checks, and its name, which stands at a spot, becomes null.
fn release_cell<R: Store>(
    table: &Layouts,
    memory: &mut Memory<R>,
    hand: &mut Hand,
    spot: Spot,
    cell: Handle,
    of: u32,
    pos: Pos,
    leaks: &mut Vec<Leak>,
) -> Result<(), Stop>
    requires { Leavable R.Means memory.old (named_at table.now of pos (spot_of spot) (suc cell)) }
    ensures released { Leaving R.Means memory.old (named_at table.now of pos (spot_of spot) (suc cell)) result (leaks_of leaks.old.items) (leaks_of leaks.new.items) memory.new }
    ensures elsewhere { elsewhere memory.new ≡ elsewhere memory.old }
{
    hand.push_leaks(table, memory, Spot::Cell { cell, at: 0 }, of, pos, leaks)?;
    memory.put_at(spot, Kind::Access, 0);
    memory.free(cell);
    Ok(())
}

/// The cell that an access value designates is released. Nothing is done to null.
fn release_word<R: Store>(
    table: &Layouts,
    memory: &mut Memory<R>,
    hand: &mut Hand,
    spot: Spot,
    word: i64,
    of: u32,
    pos: Pos,
    leaks: &mut Vec<Leak>,
) -> Result<(), Stop>
    requires { Leavable R.Means memory.old (named_at table.now of pos (spot_of spot) (unsigned_abs word)) }
    ensures released { Leaving R.Means memory.old (named_at table.now of pos (spot_of spot) (unsigned_abs word)) result (leaks_of leaks.old.items) (leaks_of leaks.new.items) memory.new }
    ensures elsewhere { elsewhere memory.new ≡ elsewhere memory.old }
{
    if word == 0 {
        return Ok(());
    }
    let cell = Handle::new(word.unsigned_abs() - 1);
    release_cell(table, memory, hand, spot, cell, of, pos, leaks)
}

/// The access value at a place is released. The place is found first.
#[inline(always)]
pub fn release<R: Store>(
    table: &Layouts,
    nodes: &Nodes,
    memory: &mut Memory<R>,
    hand: &mut Hand,
    place: Place,
    of: u32,
    pos: Pos,
    leaks: &mut Vec<Leak>,
) -> Result<(), Stop>
    requires place { IsTrue (is_place_below (length nodes.now) place) }
    requires whole { Leavable R.Means memory.old (released table.now (place_of (code_at nodes.now) place) of pos) }
    ensures released { Leaving R.Means memory.old (released table.now (place_of (code_at nodes.now) place) of pos) result (leaks_of leaks.old.items) (leaks_of leaks.new.items) memory.new }
    ensures elsewhere { elsewhere memory.new ≡ elsewhere memory.old }
{
    let found = spot(nodes, memory, place)?;
    let word = memory.word_at(found.same(), Kind::Access);
    release_word(table, memory, hand, found, word, of, pos, leaks)
}
