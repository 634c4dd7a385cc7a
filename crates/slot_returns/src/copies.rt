//! What is copied back when a call ends.
ghost use Rattle.std.specs.Prelude.{◌≡◌, ◌+◌, false, IsTrue, OnErr, IfOk, IsErrOf};
ghost use Rattle.run_codes.specs.Flat.{InStack, is_broken};
ghost use Rattle.slot_memory.specs.Memory.{Knows, elsewhere};
ghost use Rattle.slot_memory.specs.Spots.{spot_of};
ghost use Rattle.slot_frames.specs.Frames.{return_of};
ghost use Rattle.slot_returns.specs.Backs.{copied, fitting, Takes, Checks, IsBelow, Copies};

use code_rows::{Exception, Stop};
use slot_frames::Return;
use slot_hand::Hand;
use slot_heap::Store;
use slot_memory::{Memory, Spot};
use type_bounds::fits;
use type_layouts::Layouts;

/// The place at an offset in the frame.
fn frame_spot<R: Store>(memory: &Memory<R>, at: u32) -> Result<Spot, Stop>
    ensures spot { IfOk result (λ s. spot_of s ≡ InStack (memory.now.base + at)) }
    ensures memory { OnErr result (IsErrOf result Stop.Memory) }
{
    match memory.base().checked_add(at as usize) {
        Some(index) => Ok(Spot::Stack { index }),
        None => Err(Stop::Memory),
    }
}

/// What a formal holds is at hand, if it fits where it is copied back to.
fn take_one<R: Store>(
    table: &Layouts,
    memory: &Memory<R>,
    hand: &mut Hand,
    back: Return,
) -> Result<(), Stop>
    requires { Knows R.Means memory.now (λ s. is_broken (fitting table.now (return_of back) s.base s.stack) ≡ false) }
    ensures { Takes (fitting table.now (return_of back) memory.now.base memory.now.stack) result hand.new }
{
    let found = frame_spot(memory, back.at)?;
    hand.clear();
    hand.push_held(table, memory, found, back.from)?;
    if !fits(table.table(), back.of, hand.words()) {
        return Err(Stop::Raises(Exception::ConstraintError));
    }
    Ok(())
}

/// Whether so many words at a place lie below an index of the stack, or in a cell.
fn is_below(place: Spot, count: usize, base: usize) -> bool
    ensures { IsTrue result → IsBelow (spot_of place) count base }
{
    match place {
        Spot::Stack { index } => count <= base && index <= base - count,
        Spot::Cell { cell: _, at: _ } => true,
    }
}

/// Whether a formal can be copied back: else it doesn't fit.
pub fn check_one<R: Store>(
    table: &Layouts,
    memory: &Memory<R>,
    hand: &mut Hand,
    formal: Return,
) -> Result<(), Stop>
    requires { Knows R.Means memory.now (λ s. is_broken (fitting table.now (return_of formal) s.base s.stack) ≡ false) }
    ensures { Checks table.now (return_of formal) memory.now.base memory.now.stack result }
{
    take_one(table, memory, hand, formal)?;
    // no call copies back into its own frame
    if !is_below(formal.to.same(), hand.len(), memory.base()) {
        return Err(Stop::Memory);
    }
    Ok(())
}

/// A formal is copied back. What it holds is tested first.
pub fn copy_one<R: Store>(
    table: &Layouts,
    memory: &mut Memory<R>,
    hand: &mut Hand,
    back: Return,
) -> Result<(), Stop>
    requires { Knows R.Means memory.old (λ s. is_broken (copied table.now (return_of back) s) ≡ false) }
    ensures copied { Copies R.Means memory.old (copied table.now (return_of back)) result memory.new }
    ensures elsewhere { elsewhere memory.new ≡ elsewhere memory.old }
{
    take_one(table, memory, hand, back)?;
    hand.store(table, memory, back.to.same(), back.of, 0)
}
