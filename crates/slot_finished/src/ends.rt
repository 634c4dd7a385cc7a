//! The ends of calls.
ghost use Rattle.std.specs.Prelude.{◌≡◌, OnOk, OnErr, IsErrOf};
ghost use Rattle.slot_memory.specs.Answers.{LentOn};
ghost use Rattle.slot_memory.specs.Memory.{elsewhere};
ghost use Rattle.slot_frames.specs.Frames.{IsStacked};
ghost use Rattle.slot_frames.specs.Parts.{own_returns};
ghost use Rattle.slot_entries.specs.Entries.{stacked_words};
ghost use Rattle.slot_returns.specs.Backs.{CanCopy, CanStore, StoresAll, ChecksAll, CopiesAll};
ghost use Rattle.slot_finished.specs.Ends.{Finishes};

use code_rows::Stop;
use slot_entries::leave;
use slot_frames::Frames;
use slot_hand::Hand;
use slot_heap::Store;
use slot_memory::Memory;
use slot_returns::{check_one, copy_one};
use type_layouts::Layouts;

/// Whether the formals of the frame that runs fit where they are copied back to, each of them.
fn check_own<R: Store>(
    table: &Layouts,
    memory: &Memory<R>,
    hand: &mut Hand,
    frames: &Frames,
) -> Result<(), Stop>
    requires { CanCopy R.Means memory.now table.now (own_returns frames.now) }
    ensures { ChecksAll memory.now table.now (own_returns frames.now) result }
{
    'formals: for i in frames.frame().returns..frames.returning() {
        check_one(table, memory, hand, frames.back(i))?;
    }
    Ok(())
}

/// They are copied back in order.
fn store_own<R: Store>(
    table: &Layouts,
    memory: &mut Memory<R>,
    hand: &mut Hand,
    frames: &Frames,
) -> Result<(), Stop>
    requires { CanStore R.Means memory.old table.now (own_returns frames.now) }
    ensures stored { OnOk result (StoresAll R.Means memory.old table.now (own_returns frames.now) memory.new) }
    ensures memory { OnErr result (IsErrOf result Stop.Memory) }
    ensures elsewhere { elsewhere memory.new ≡ elsewhere memory.old }
{
    'returns: for i in frames.frame().returns..frames.returning() {
        copy_one(table, memory, hand, frames.back(i))?;
    }
    Ok(())
}

/// The formals of the frame that runs are copied back, all of them or none. One alone is checked as it
/// is copied.
fn copy_own<R: Store>(
    table: &Layouts,
    memory: &mut Memory<R>,
    hand: &mut Hand,
    frames: &Frames,
) -> Result<(), Stop>
    requires { CanCopy R.Means memory.old table.now (own_returns frames.now) }
    ensures copied { CopiesAll R.Means memory.old table.now (own_returns frames.now) result memory.new }
    ensures elsewhere { elsewhere memory.new ≡ elsewhere memory.old }
{
    let first = frames.frame().returns;
    let count = frames.returning().saturating_sub(first);
    if count == 0 {
        return Ok(());
    }
    if count == 1 {
        return copy_one(table, memory, hand, frames.back(first));
    }
    check_own(table, memory, hand, frames)?;
    store_own(table, memory, hand, frames)
}

/// The end of a call: formals are copied back, and the frame that waited runs. Whether others wait: if
/// none does, the main procedure has ended. Where a formal doesn't fit, none is copied back.
pub fn finish<R: Store>(
    table: &Layouts,
    memory: &mut Memory<R>,
    frames: &mut Frames,
    hand: &mut Hand,
    words: &mut u64,
) -> Result<bool, Stop>
    requires stacked { IsStacked frames.old memory.old.waits }
    requires words { words.old ≡ stacked_words frames.old }
    requires can { CanCopy R.Means memory.old table.now (own_returns frames.old) }
    ensures finished { Finishes R.Means memory.old table.now (own_returns frames.old) result frames.old memory.new frames.new }
    ensures lent { LentOn result memory.old memory.new }
    ensures words { words.new ≡ stacked_words frames.new }
{
    copy_own(table, memory, hand, frames)?;
    leave(memory, frames, words)
}
