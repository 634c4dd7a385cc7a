//! What is kept of a run beside its program.
ghost use Rattle.std.specs.Prelude.{◌≡◌};

use run_results::Leak;
use slot_frames::Frames;
use slot_hand::Hand;
use slot_heap::Store;
use slot_memory::Memory;

/// The memory and the frames of a run with the words that count for all of them, what is at hand
/// while a point is evaluated, and what wasn't told yet.
pub struct Parts<'r, R> {
    pub memory: Memory<'r, R>,
    pub frames: Frames,
    pub words: u64,
    pub hand: Hand,
    // the leaks of one point
    pub found: Vec<Leak>,
    pub output: Vec<u8>,
    pub leaks: Vec<Leak>,
}

impl<'r, R: Store> Parts<'r, R> {
    /// The store is given back.
    pub fn into_store(self) -> &'r mut R
        ensures lent { result.ghost_name ≡ self.entry.memory.heap.lent }
        ensures store { result.now ≡ self.entry.memory.heap.store }
    {
        let Self {
            memory,
            frames: _,
            words: _,
            hand: _,
            found: _,
            output: _,
            leaks: _,
        } = self;
        memory.into_store()
    }
}

impl<R> Drop for Parts<'_, R> {
    fn drop(self) {
        let Self {
            memory: _,
            frames: _,
            words: _,
            hand: _,
            found: _,
            output: _,
            leaks: _,
        } = self;
    }
}
