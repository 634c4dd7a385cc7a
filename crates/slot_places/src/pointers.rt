//! Access values that go to the frame one at a time, without a list of words or moves.
ghost use Rattle.std.specs.Prelude.{◌≡◌, ◌∷◌, [], false, true, length, IsTrue};
ghost use Rattle.code_rows.specs.Rows.{code_at, place_of, is_place_below};
ghost use Rattle.run_codes.specs.Codes.{MovedPointer, InFrame};
ghost use Rattle.run_codes.specs.Flat.{is_broken};
ghost use Rattle.run_codes.specs.Lowered.{no_index};
ghost use Rattle.run_results.specs.Results.{leaks_of};
ghost use Rattle.handled_runs.specs.Assigned.{checked_at, assigned};
ghost use Rattle.handled_runs.specs.Leaks.{leaks_at};
ghost use Rattle.slot_memory.specs.Memory.{Knows, Always, elsewhere};
ghost use Rattle.slot_memory.specs.Spots.{spot_of};
ghost use Rattle.type_words.specs.Pointers as pointers;
ghost use Rattle.slot_hand.specs.Leaks.{Finds};
ghost use Rattle.slot_places.specs.Steps.{Leavable, Leaving, stored_checked, Assignable, Assigning};

use code_rows::{Nodes, Place, Stop};
use run_results::Leak;
use run_values::Kind;
use slot_hand::push_leak;
use slot_heap::Store;
use slot_memory::{Memory, Spot};
use slot_words::spot;
use spark_base::Pos;
use type_layouts::Layouts;

/// Appends the leak check of a spot of a named access type, if it fails. That of null doesn't.
#[inline(always)]
fn check_word<R: Store>(
    table: &Layouts,
    memory: &Memory<R>,
    spot: Spot,
    of: u32,
    pos: Pos,
    leaks: &mut Vec<Leak>,
) -> Result<(), Stop>
    requires pointer { pointers.is_pointer table.now of ≡ true }
    requires whole { Knows R.Means memory.now (λ s. is_broken (leaks_at table.now s (spot_of spot) of pos) ≡ false) }
    ensures { Always R.Means memory.now (λ s. is_broken (leaks_at table.now s (spot_of spot) of pos) ≡ false → Finds (leaks_at table.now s (spot_of spot) of pos) result (leaks_of leaks.old.items) (leaks_of leaks.new.items)) }
{
    let word = memory.word_at(spot, Kind::Access);
    if word == 0 {
        return Ok(());
    }
    push_leak(memory, word, pos, leaks)
}

/// The same, where there are checks.
#[inline(always)]
fn check_pointer<R: Store>(
    table: &Layouts,
    memory: &Memory<R>,
    spot: Spot,
    of: u32,
    checks: Option<Pos>,
    leaks: &mut Vec<Leak>,
) -> Result<(), Stop>
    requires pointer { pointers.is_pointer table.now of ≡ true }
    requires whole { Knows R.Means memory.now (λ s. is_broken (checked_at table.now s (spot_of spot) of checks) ≡ false) }
    ensures { Always R.Means memory.now (λ s. is_broken (checked_at table.now s (spot_of spot) of checks) ≡ false → Finds (checked_at table.now s (spot_of spot) of checks) result (leaks_of leaks.old.items) (leaks_of leaks.new.items)) }
{
    match checks {
        Some(pos) => check_word(table, memory, spot, of, pos, leaks),
        None => Ok(()),
    }
}

/// After its leak check an access value is put at a spot of a named access type.
#[inline(always)]
fn put_checked<R: Store>(
    table: &Layouts,
    memory: &mut Memory<R>,
    spot: Spot,
    word: i64,
    of: u32,
    checks: Option<Pos>,
    leaks: &mut Vec<Leak>,
) -> Result<(), Stop>
    requires pointer { pointers.is_pointer table.now of ≡ true }
    requires whole { Leavable R.Means memory.old (stored_checked table.now (spot_of spot) of checks (word ∷ [])) }
    ensures stored { Leaving R.Means memory.old (stored_checked table.now (spot_of spot) of checks (word ∷ [])) result (leaks_of leaks.old.items) (leaks_of leaks.new.items) memory.new }
    ensures elsewhere { elsewhere memory.new ≡ elsewhere memory.old }
{
    check_pointer(table, memory, spot.same(), of, checks, leaks)?;
    memory.put_at(spot, Kind::Access, word);
    Ok(())
}

/// An access value is put at an offset in the frame, where an object of a named access type stands.
/// What was moved out is gone before.
#[inline(always)]
pub(crate) fn put_settled<R: Store>(
    table: &Layouts,
    memory: &mut Memory<R>,
    word: i64,
    at: u32,
    of: u32,
    checks: Option<Pos>,
    leaks: &mut Vec<Leak>,
) -> Result<(), Stop>
    requires pointer { pointers.is_pointer table.now of ≡ true }
    requires whole { Leavable R.Means memory.old (assigned table.now (InFrame at no_index) of checks (word ∷ [])) }
    ensures stored { Leaving R.Means memory.old (assigned table.now (InFrame at no_index) of checks (word ∷ [])) result (leaks_of leaks.old.items) (leaks_of leaks.new.items) memory.new }
    ensures elsewhere { elsewhere memory.new ≡ elsewhere memory.old }
{
    let there = memory.local_spot(at, 0);
    memory.settle();
    put_checked(table, memory, there, word, of, checks, leaks)
}

/// An access value is moved out of a place to an offset in the frame, where an object of a named
/// access type stands. Nothing else is moved.
#[inline(always)]
pub(crate) fn assign_moved<R: Store>(
    table: &Layouts,
    nodes: &Nodes,
    memory: &mut Memory<R>,
    from: Place,
    at: u32,
    of: u32,
    checks: Option<Pos>,
    leaks: &mut Vec<Leak>,
) -> Result<(), Stop>
    requires place { IsTrue (is_place_below (length nodes.now) from) }
    requires pointer { pointers.is_pointer table.now of ≡ true }
    requires settled { memory.old.moves ≡ [] }
    requires whole { Assignable R.Means memory.old table.now (InFrame at no_index) (MovedPointer (place_of (code_at nodes.now) from)) of checks }
    ensures assigned { Assigning R.Means memory.old table.now (InFrame at no_index) (MovedPointer (place_of (code_at nodes.now) from)) of checks result (leaks_of leaks.old.items) (leaks_of leaks.new.items) memory.new }
    ensures elsewhere { elsewhere memory.new ≡ elsewhere memory.old }
{
    let found = spot(nodes, memory, from)?;
    let word = memory.word_at(found.same(), Kind::Access);
    let to = memory.local_spot(at, 0);
    memory.take_out(found);
    put_checked(table, memory, to, word, of, checks, leaks)
}
