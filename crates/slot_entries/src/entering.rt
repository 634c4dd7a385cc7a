//! Frames that begin to run.
ghost use Rattle.std.specs.Prelude.{◌≡◌, ◌≤◌, ◌+◌, ◌++◌, ◌∷◌, [], length, take, OnOk, OnErr, IsErrOf};
ghost use Rattle.slot_frames.specs.Frames.{word_at};
ghost use Rattle.slot_entries.specs.Entries.{stacked_words};

use code_rows::{Stop, Sub};
use slot_frames::{Frame, Frames};
use slot_heap::Store;
use slot_memory::Memory;

/// The values that wait from a number on are gone.
pub fn drop_taken<R: Store>(memory: &mut Memory<R>, frames: &mut Frames, k: usize)
    requires { word_at frames.old.waits k (length memory.old.waits) ≤ length memory.old.waits }
    ensures memory { let first = word_at frames.old.waits k (length memory.old.waits) in memory.new ≡ record memory.old { waits = take first memory.old.waits; taken = first } }
    ensures frames { frames.new ≡ record frames.old { waits = take k frames.old.waits } }
{
    let first = frames.first_word(k, memory.waiting_words());
    memory.cut_waits(first);
    frames.cut_waits(k);
}

/// The frame of a subprogram, which begins at an index of the stack, runs, and the one that ran waits.
/// What is copied back at its end are the places from a number on.
pub fn begin<R: Store>(
    memory: &mut Memory<R>,
    frames: &mut Frames,
    words: &mut u64,
    sub: Sub,
    base: usize,
    returned: usize,
) -> Result<(), Stop>
    requires { words.old ≡ stacked_words frames.old }
    ensures memory { OnOk result (memory.new ≡ record memory.old { base = base }) }
    ensures frames { OnOk result (frames.new ≡ record frames.old { frame = record { base = base; next = sub.first; words = sub.words; waits = length frames.old.waits; returns = returned }; outer = frames.old.outer ++ frames.old.frame ∷ [] }) }
    ensures words { words.new ≡ stacked_words frames.new }
    ensures stop { OnErr result (IsErrOf result Stop.Memory) }
    ensures unchanged { OnErr result (memory.new ≡ memory.old) }
{
    let Some(all) = words.checked_add(sub.words) else {
        return Err(Stop::Memory);
    };
    frames.enter(Frame {
        base,
        next: sub.first,
        words: sub.words,
        waits: frames.waiting(),
        returns: returned,
    })?;
    memory.enter(base);
    *words = all;
    Ok(())
}
