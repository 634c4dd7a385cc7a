//! What a run asks of its heap.
ghost use Rattle.std.specs.Prelude.{◌≡◌, ◌<◌, ◌^◌, None, true, length, IfOk, OnErr};
ghost use Rattle.run_values.specs.Values.{kind as kind_of};
ghost use Rattle.slot_heap.specs.Heaps.{Heap, Knows, Always, Becomes, Holds, HasWord, IsOfSize, words_at, allocated, written, released};
ghost use Rattle.slot_heap.specs.Words.{slot_values, are_slot_words};

use run_values::{Handle, Kind, Value};
use std::alloc::AllocError;

/// A heap: a finite map from live handles to lists of values, and for each size in words a number
/// of slots. It tests nothing: conditions on its calls take the place of tests.
///
/// A store may keep less than the heap that it means, such as words without their kinds. So each
/// clause speaks of every heap that it means.
pub trait Store {
    /// The store means this heap.
    ghost Means: { Self → Heap → Type 0 };

    /// A new cell with the values of these words, which are of these kinds. Its handle wasn't live.
    /// It takes a slot of its size that is free, and where none is, a new one. Where memory is out,
    /// no cell is made.
    fn allocate(&mut self, kinds: &[Kind], words: &[i64]) -> Result<Handle, AllocError>
        requires some { 0 < length words.now }
        requires fit { are_slot_words kinds.now words.now ≡ true }
        requires few { Knows Means self.old (λ m. length m.slots < 2 ^ 62) }
        ensures new { IfOk result (λ h. Always Means self.old (λ m. words_at m.cells h ≡ None)) }
        ensures allocated { IfOk result (λ h. Becomes Means self.old self.new (λ m. allocated m h (slot_values kinds.now words.now))) }
        ensures unchanged { OnErr result (Becomes Means self.old self.new (λ m. m)) };

    /// The word at this place of the cell, which is of this kind.
    fn read(&self, h: Handle, at: u32, kind: Kind) -> Value
        requires { Knows Means self.now (λ m. Holds m h at kind) }
        ensures { Always Means self.now (λ m. Holds m h at kind → HasWord m h at result) };

    /// Puts a word in the place of one of its kind.
    fn write(&mut self, h: Handle, at: u32, v: Value)
        requires { Knows Means self.old (λ m. Holds m h at (kind_of v)) }
        ensures { (m : Heap) → Means self.old m → Holds m h at (kind_of v) → Means self.new (written m h at v) };

    /// Frees the cell, which has so many words. Its slot is free then. This takes no memory.
    fn free(&mut self, h: Handle, size: u32)
        requires { Knows Means self.old (λ m. IsOfSize m h size) }
        ensures { (m : Heap) → Means self.old m → IsOfSize m h size → Means self.new (released m h) };

    /// How many slots there are, of all sizes.
    fn slots(&self) -> u64
        ensures { Always Means self.now (λ m. result ≡ length m.slots) };
}
