//! The formals of a call, one after the other.
ghost use Rattle.std.specs.Prelude.{◌≡◌, ◌≤◌, ◌+◌, ◌-◌, ◌++◌, [], false, length, take, drop, map, IfOk, OnOk, OnErr, IsErrOf};
ghost use Rattle.run_codes.specs.Flat.{is_broken, kinds as kinds_of, InStack};
ghost use Rattle.run_codes.specs.Points.{FromSpot};
ghost use Rattle.handled_runs.specs.Changes.{stored};
ghost use Rattle.slot_memory.specs.Memory.{Knows, Changes, elsewhere};
ghost use Rattle.slot_memory.specs.Spots.{spot_of};
ghost use Rattle.slot_calls.specs.Calls.{IsWithin, AreWithin, passed_of};
ghost use Rattle.slot_entries.specs.Entries.{stacked_words};
ghost use Rattle.slot_formals.specs.Formals.{placed_one, placed, rows_of, returned};
ghost use Rattle.slot_formals.specs.Leads.{Gives};

use code_rows::Stop;
use run_values::Kind;
use slot_calls::Pass;
use slot_frames::Frames;
use slot_hand::Hand;
use slot_heap::Store;
use slot_memory::{Memory, Spot};
use type_layouts::Layouts;
use type_words::push_kinds;

// ---- one formal

/// The words at hand of a value.
fn value_words(hand: &Hand, first: usize, end: usize) -> &[i64]
    requires { end ≤ length hand.now }
    ensures { result.now ≡ take (end - first) (drop first hand.now) }
{
    if first <= end {
        &hand.words()[first..end]
    } else {
        &[]
    }
}

/// A formal gets a value.
fn store_value<R: Store>(memory: &mut Memory<R>, hand: &Hand, at: usize, first: usize, end: usize)
    requires within { end ≤ length hand.now }
    requires whole { Knows R.Means memory.old (λ s. is_broken (stored s (InStack at) [] (take (end - first) (drop first hand.now))) ≡ false) }
    ensures stored { Changes R.Means memory.old (λ s. stored s (InStack at) [] (take (end - first) (drop first hand.now))) memory.new }
    ensures elsewhere { elsewhere memory.new ≡ elsewhere memory.old }
{
    memory.store_words(
        Spot::Stack { index: at },
        &[],
        value_words(hand, first, end),
    );
}

/// A formal gets what a place of a type holds.
fn store_held<R: Store>(
    table: &Layouts,
    memory: &mut Memory<R>,
    hand: &mut Hand,
    at: usize,
    spot: Spot,
    of: u32,
) -> Result<(), Stop>
    requires { Gives R.Means memory.old (placed_one table.now at (FromSpot (spot_of spot) of)) }
    ensures placed { OnOk result (Changes R.Means memory.old (placed_one table.now at (FromSpot (spot_of spot) of)) memory.new) }
    ensures hand { OnOk result (hand.new ≡ hand.old) }
    ensures elsewhere { elsewhere memory.new ≡ elsewhere memory.old }
    ensures memory { OnErr result (IsErrOf result Stop.Memory) }
{
    let from = hand.len();
    hand.push_held(table, memory, spot, of)?;
    memory.store_words(Spot::Stack { index: at }, &[], &hand.words()[from..]);
    hand.cut(from);
    Ok(())
}

/// A formal at an index of the stack gets what is passed.
fn store_formal<R: Store>(
    table: &Layouts,
    memory: &mut Memory<R>,
    hand: &mut Hand,
    at: usize,
    pass: &Pass,
) -> Result<(), Stop>
    requires within { IsWithin (length hand.old) pass.now }
    requires whole { Gives R.Means memory.old (placed_one table.now at (passed_of hand.old pass.now)) }
    ensures placed { OnOk result (Changes R.Means memory.old (placed_one table.now at (passed_of hand.old pass.now)) memory.new) }
    ensures hand { OnOk result (hand.new ≡ hand.old) }
    ensures elsewhere { elsewhere memory.new ≡ elsewhere memory.old }
    ensures memory { OnErr result (IsErrOf result Stop.Memory) }
{
    match pass {
        Pass::Value { first, end } => {
            store_value(memory, hand, at, *first, *end);
            Ok(())
        }
        Pass::From { spot, of } => store_held(table, memory, hand, at, spot.same(), *of),
        Pass::To { .. } => Ok(()),
    }
}

// ---- what is copied back

/// A formal at an offset is copied back to the place that is passed, if one is.
fn push_return(frames: &mut Frames, at: u32, formal: u32, pass: &Pass) -> Result<(), Stop>
    ensures pushed { OnOk result (frames.new ≡ record frames.old { returns = frames.old.returns ++ rows_of at formal pass.now }) }
    ensures words { stacked_words frames.new ≡ stacked_words frames.old }
    ensures memory { OnErr result (IsErrOf result Stop.Memory) }
{
    match pass {
        Pass::Value { .. } => {}
        Pass::From { spot, of } => frames.push_return(at, formal, spot.same(), *of)?,
        Pass::To { spot, of, .. } => frames.push_return(at, formal, spot.same(), *of)?,
    }
    Ok(())
}

/// The offset after a formal.
fn next_offset(table: &Layouts, kinds: &mut Vec<Kind>, at: u32, formal: u32) -> Result<u32, Stop>
    ensures offset { IfOk result (λ next. next ≡ at + length (kinds_of table.now formal)) }
    ensures memory { OnErr result (IsErrOf result Stop.Memory) }
{
    kinds.clear();
    push_kinds(table.table(), formal, kinds)?;
    let Ok(words) = u32::try_from(kinds.len()) else {
        return Err(Stop::Memory);
    };
    match at.checked_add(words) {
        Some(next) => Ok(next),
        None => Err(Stop::Memory),
    }
}

// ---- all formals

/// A formal at an offset of the frame that begins at an index gets what is passed. The offset of the
/// next one.
fn pass_formal<R: Store>(
    table: &Layouts,
    memory: &mut Memory<R>,
    hand: &mut Hand,
    kinds: &mut Vec<Kind>,
    frames: &mut Frames,
    base: usize,
    at: u32,
    formal: u32,
    pass: &Pass,
) -> Result<u32, Stop>
    requires within { IsWithin (length hand.old) pass.now }
    requires whole { Gives R.Means memory.old (placed_one table.now (base + at) (passed_of hand.old pass.now)) }
    ensures offset { IfOk result (λ next. next ≡ at + length (kinds_of table.now formal)) }
    ensures placed { OnOk result (Changes R.Means memory.old (placed_one table.now (base + at) (passed_of hand.old pass.now)) memory.new) }
    ensures returns { OnOk result (frames.new ≡ record frames.old { returns = frames.old.returns ++ rows_of at formal pass.now }) }
    ensures words { stacked_words frames.new ≡ stacked_words frames.old }
    ensures hand { OnOk result (hand.new ≡ hand.old) }
    ensures elsewhere { elsewhere memory.new ≡ elsewhere memory.old }
    ensures memory { OnErr result (IsErrOf result Stop.Memory) }
{
    let Some(index) = base.checked_add(at as usize) else {
        return Err(Stop::Memory);
    };
    store_formal(table, memory, hand, index, pass)?;
    push_return(frames, at, formal, pass)?;
    next_offset(table, kinds, at, formal)
}

/// The formals of a frame that begins at an index get what is passed.
pub(crate) fn pass_formals<R: Store>(
    table: &Layouts,
    memory: &mut Memory<R>,
    hand: &mut Hand,
    kinds: &mut Vec<Kind>,
    frames: &mut Frames,
    base: usize,
    formals: &[u32],
    passes: &[Pass],
) -> Result<(), Stop>
    requires within { AreWithin (length hand.old) passes.now }
    requires whole { Gives R.Means memory.old (placed table.now base formals.now (map (passed_of hand.old) passes.now)) }
    ensures placed { OnOk result (Changes R.Means memory.old (placed table.now base formals.now (map (passed_of hand.old) passes.now)) memory.new) }
    ensures returns { OnOk result (frames.new ≡ record frames.old { returns = frames.old.returns ++ returned table.now 0 formals.now passes.now }) }
    ensures words { stacked_words frames.new ≡ stacked_words frames.old }
    ensures hand { OnOk result (hand.new ≡ hand.old) }
    ensures elsewhere { elsewhere memory.new ≡ elsewhere memory.old }
    ensures memory { OnErr result (IsErrOf result Stop.Memory) }
{
    let mut at = 0u32;
    'formals: for i in 0..formals.len().min(passes.len()) {
        at = pass_formal(
            table, memory, hand, kinds, frames, base, at, formals[i], &passes[i],
        )?;
    }
    Ok(())
}
