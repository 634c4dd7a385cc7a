//! The frame of a call runs.
ghost use Rattle.std.specs.Prelude.{◌≡◌, ◌≤◌, ◌++◌, ◌∷◌, [], length, take, OnOk, OnErr, IsErrOf};
ghost use Rattle.slot_frames.specs.Frames.{word_at};
ghost use Rattle.slot_entries.specs.Entries.{stacked_words, entered_kept};

use code_rows::{Stop, Sub};
use slot_entries::{begin, drop_taken};
use slot_frames::Frames;
use slot_heap::Store;
use slot_memory::Memory;

/// The values that wait from a number on are gone, the frame that ran goes on at a point, and the
/// frame of a subprogram, which begins at an index of the stack, runs. What is copied back at its end
/// are the places from a number on.
pub(crate) fn enter<R: Store>(
    memory: &mut Memory<R>,
    frames: &mut Frames,
    words: &mut u64,
    k: usize,
    next: u32,
    sub: Sub,
    base: usize,
    returned: usize,
) -> Result<(), Stop>
    requires below { word_at frames.old.waits k (length memory.old.waits) ≤ length memory.old.waits }
    requires words { words.old ≡ stacked_words frames.old }
    ensures memory { OnOk result (memory.new ≡ entered_kept frames.old k base memory.old) }
    ensures frames { OnOk result (frames.new ≡ record {
      frame = record { base = base; next = sub.first; words = sub.words; waits = length (take k frames.old.waits); returns = returned };
      outer = frames.old.outer ++ record frames.old.frame { next = next } ∷ [];
      waits = take k frames.old.waits;
      returns = frames.old.returns;
    }) }
    ensures words { OnOk result (words.new ≡ stacked_words frames.new) }
    ensures stop { OnErr result (IsErrOf result Stop.Memory) }
{
    drop_taken(memory, frames, k);
    frames.go(next);
    begin(memory, frames, words, sub, base, returned)
}
