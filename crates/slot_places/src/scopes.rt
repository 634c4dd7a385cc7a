//! The ends of the scopes of objects.
ghost use Rattle.std.specs.Prelude.{◌≡◌, ◌≤◌, ◌+◌, false, length, OnOk, OnErr, IsErrOf};
ghost use Rattle.run_codes.specs.Flat.{InStack, is_broken, default_words};
ghost use Rattle.run_results.specs.Results.{leaks_of};
ghost use Rattle.handled_runs.specs.Leaks.{leaks_at};
ghost use Rattle.handled_steps.specs.Steps.{put_words};
ghost use Rattle.slot_memory.specs.Memory.{Knows, Always, Changes, elsewhere};
ghost use Rattle.slot_hand.specs.Leaks.{Finds};
ghost use Rattle.slot_places.specs.Steps.{Leavable, Leaving, ended_scope};

use code_rows::Stop;
use run_results::Leak;
use slot_hand::Hand;
use slot_heap::Store;
use slot_memory::Memory;
use spark_base::Pos;
use type_layouts::Layouts;

/// Puts words at an offset in the frame.
fn put_words<R: Store>(memory: &mut Memory<R>, at: u32, words: &[i64])
    requires room { memory.old.base + at ≤ length memory.old.stack }
    requires whole { Knows R.Means memory.old (λ s. is_broken (put_words s at words.now) ≡ false) }
    ensures put { Changes R.Means memory.old (λ s. put_words s at words.now) memory.new }
    ensures elsewhere { elsewhere memory.new ≡ elsewhere memory.old }
{
    let spot = memory.local_spot(at, 0);
    memory.store_words(spot, &[], words)
}

/// The object of a type at an offset in the frame is without a value.
fn put_default<R: Store>(
    table: &Layouts,
    memory: &mut Memory<R>,
    hand: &mut Hand,
    at: u32,
    of: u32,
) -> Result<(), Stop>
    requires room { memory.old.base + at ≤ length memory.old.stack }
    requires whole { Knows R.Means memory.old (λ s. is_broken (put_words s at (default_words table.now of)) ≡ false) }
    ensures put { OnOk result (Changes R.Means memory.old (λ s. put_words s at (default_words table.now of)) memory.new) }
    ensures memory { OnErr result (IsErrOf result Stop.Memory) }
    ensures elsewhere { elsewhere memory.new ≡ elsewhere memory.old }
{
    hand.clear();
    hand.push_default(table, of)?;
    put_words(memory, at, hand.words());
    Ok(())
}

/// Appends the failed leak checks of the object of a type at an offset in the frame.
fn check<R: Store>(
    table: &Layouts,
    memory: &Memory<R>,
    hand: &mut Hand,
    at: u32,
    of: u32,
    pos: Pos,
    leaks: &mut Vec<Leak>,
) -> Result<(), Stop>
    requires room { memory.now.base + at ≤ length memory.now.stack }
    requires whole { Knows R.Means memory.now (λ s. is_broken (leaks_at table.now s (InStack (memory.now.base + at)) of pos) ≡ false) }
    ensures { Always R.Means memory.now (λ s. is_broken (leaks_at table.now s (InStack (memory.now.base + at)) of pos) ≡ false → Finds (leaks_at table.now s (InStack (memory.now.base + at)) of pos) result (leaks_of leaks.old.items) (leaks_of leaks.new.items)) }
{
    let spot = memory.local_spot(at, 0);
    hand.push_leaks(table, memory, spot, of, pos, leaks)
}

/// The scope of an object of a type ends: after its leak checks it is without a value.
pub fn end_scope<R: Store>(
    table: &Layouts,
    memory: &mut Memory<R>,
    hand: &mut Hand,
    at: u32,
    of: u32,
    pos: Pos,
    leaks: &mut Vec<Leak>,
) -> Result<(), Stop>
    requires { Leavable R.Means memory.old (ended_scope table.now at of pos) }
    ensures ended { Leaving R.Means memory.old (ended_scope table.now at of pos) result (leaks_of leaks.old.items) (leaks_of leaks.new.items) memory.new }
    ensures elsewhere { elsewhere memory.new ≡ elsewhere memory.old }
{
    check(table, memory, hand, at, of, pos, leaks)?;
    put_default(table, memory, hand, at, of)
}
