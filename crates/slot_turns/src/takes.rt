//! The values that a point takes.
ghost use Rattle.std.specs.Prelude.{◌≡◌, [], length, IfSome, IsTrue};
ghost use Rattle.code_rows.specs.Points.{some, is_range};
ghost use Rattle.slot_frames.specs.Frames.{word_at, IsStacked, AreLatest};

use code_rows::{Codes, Range};
use slot_frames::Frames;
use slot_heap::Store;
use slot_memory::Memory;

/// No value is taken.
fn take_none<R: Store>(memory: &mut Memory<R>, frames: &Frames) -> usize
    requires stacked { IsStacked frames.now memory.old.waits }
    ensures latest { AreLatest frames.now [] result }
    ensures taken { memory.new ≡ record memory.old { taken = word_at frames.now.waits result (length memory.old.waits) } }
{
    memory.take_from(memory.waiting_words());
    frames.waiting()
}

/// The values that wait are taken from a number on, which have some types. None: no such values wait.
pub fn take<R: Store>(
    codes: &Codes,
    memory: &mut Memory<R>,
    frames: &Frames,
    takes: Range,
) -> Option<usize>
    requires range { IsTrue (is_range codes.now.types.items takes) }
    requires stacked { IsStacked frames.now memory.old.waits }
    ensures latest { IfSome result (λ k. AreLatest frames.now (some codes.now.types.items takes) k) }
    ensures taken { IfSome result (λ k. memory.new ≡ record memory.old { taken = word_at frames.now.waits k (length memory.old.waits) }) }
{
    if takes.count == 0 {
        return Some(take_none(memory, frames));
    }
    let first = takes.first as usize;
    let k = frames.latest(&codes.types[first..first + takes.count as usize])?;
    let index = frames.first_word(k, memory.waiting_words());
    memory.take_from(index);
    Some(k)
}
