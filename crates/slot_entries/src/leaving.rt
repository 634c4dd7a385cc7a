//! Frames that end.
ghost use Rattle.std.specs.Prelude.{◌≡◌};
ghost use Rattle.slot_frames.specs.Frames.{IsStacked};
ghost use Rattle.slot_entries.specs.Entries.{stacked_words, Leaves};

use code_rows::Stop;
use slot_frames::Frames;
use slot_heap::Store;
use slot_memory::Memory;

/// The frame that runs is gone, with the values that wait in it, and the one that waited runs.
/// Whether others wait.
pub fn leave<R: Store>(
    memory: &mut Memory<R>,
    frames: &mut Frames,
    words: &mut u64,
) -> Result<bool, Stop>
    requires stacked { IsStacked frames.old memory.old.waits }
    requires words { words.old ≡ stacked_words frames.old }
    ensures left { Leaves result memory.old memory.new frames.old frames.new }
    ensures words { words.new ≡ stacked_words frames.new }
    ensures input { memory.new.input ≡ memory.old.input }
{
    let frame = frames.frame();
    let first = frames.first_word(frame.waits, memory.waiting_words());
    memory.cut_frames(frame.base);
    memory.cut_waits(first);
    if !frames.leave() {
        return Err(Stop::Memory);
    }
    memory.enter(frames.frame().base);
    *words = words.saturating_sub(frame.words);
    Ok(frames.is_inner())
}
