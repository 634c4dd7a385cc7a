//! Words of kinds at spots.
ghost use Rattle.std.specs.Prelude.{◌≡◌, [], ◌∷◌, false};
ghost use Rattle.run_codes.specs.Flat.{InStack, InCell, Given, is_broken};
ghost use Rattle.handled_runs.specs.Slots.{Slots, held};
ghost use Rattle.handled_runs.specs.Changes.{stored};
ghost use Rattle.slot_memory.specs.Memory.{Knows, Always, Changes, elsewhere};
ghost use Rattle.slot_memory.specs.Spots.{spot_of};
ghost use Rattle.slot_memory.specs.Answers.{Appends};

use crate::cells::push_range;
use crate::memory::Memory;
use crate::spot::Spot;
use code_rows::Stop;
use run_values::{Handle, Kind};
use slot_heap::Store;

impl<'s, R: Store> Memory<'s, R> {
    // ---- in the stack

    /// Appends words at an index of the stack.
    fn push_in_stack(&self, index: usize, kinds: &[Kind], words: &mut Vec<i64>) -> Result<(), Stop>
        requires { Knows R.Means self.now (λ s. is_broken (held s (InStack index) kinds.now) ≡ false) }
        ensures { Always R.Means self.now (λ s. is_broken (held s (InStack index) kinds.now) ≡ false → Appends (held s (InStack index) kinds.now) result words.old.items words.new.items) }
    {
        // a spot without words may be anywhere
        if kinds.is_empty() {
            return Ok(());
        }
        push_range(self.stack.as_slice(), index, kinds.len(), words)?;
        Ok(())
    }

    /// Stores words from an index of the stack on.
    fn store_in_stack(&mut self, index: usize, kinds: &[Kind], words: &[i64])
        requires { Knows R.Means self.old (λ s. is_broken (stored s (InStack index) kinds.now words.now) ≡ false) }
        ensures stored { Changes R.Means self.old (λ s. stored s (InStack index) kinds.now words.now) self.new }
        ensures elsewhere { elsewhere self.new ≡ elsewhere self.old }
    {
        self.stack[index..index + words.len()].copy_from_slice(words);
    }

    // ---- in cells

    /// Appends words from an offset on in a cell.
    fn push_in_cell(
        &self,
        cell: Handle,
        at: u32,
        kinds: &[Kind],
        words: &mut Vec<i64>,
    ) -> Result<(), Stop>
        requires { Knows R.Means self.now (λ s. is_broken (held s (InCell cell at) kinds.now) ≡ false) }
        ensures { Always R.Means self.now (λ s. is_broken (held s (InCell cell at) kinds.now) ≡ false → Appends (held s (InCell cell at) kinds.now) result words.old.items words.new.items) }
    {
        self.heap.push_words(cell, at, kinds, words)?;
        Ok(())
    }

    /// Stores words from an offset on in a cell.
    fn store_in_cell(&mut self, cell: Handle, at: u32, kinds: &[Kind], words: &[i64])
        requires { Knows R.Means self.old (λ s. is_broken (stored s (InCell cell at) kinds.now words.now) ≡ false) }
        ensures stored { Changes R.Means self.old (λ s. stored s (InCell cell at) kinds.now words.now) self.new }
        ensures elsewhere { elsewhere self.new ≡ elsewhere self.old }
    {
        self.heap.store_words(cell, at, kinds, words);
    }

    // ---- one word

    /// The word of a kind at a spot.
    #[inline(always)]
    pub fn word_at(&self, spot: Spot, kind: Kind) -> i64
        requires { Knows R.Means self.now (λ s. is_broken (held s (spot_of spot) (kind ∷ [])) ≡ false) }
        ensures { Always R.Means self.now (λ s. is_broken (held s (spot_of spot) (kind ∷ [])) ≡ false → held s (spot_of spot) (kind ∷ []) ≡ Given (result ∷ [])) }
    {
        match spot {
            Spot::Stack { index } => self.stack[index],
            Spot::Cell { cell, at } => self.heap.word(cell, at, kind),
        }
    }

    /// Puts a word of a kind at a spot.
    #[inline(always)]
    pub fn put_at(&mut self, spot: Spot, kind: Kind, word: i64)
        requires { Knows R.Means self.old (λ s. is_broken (stored s (spot_of spot) (kind ∷ []) (word ∷ [])) ≡ false) }
        ensures stored { Changes R.Means self.old (λ s. stored s (spot_of spot) (kind ∷ []) (word ∷ [])) self.new }
        ensures elsewhere { elsewhere self.new ≡ elsewhere self.old }
    {
        match spot {
            Spot::Stack { index } => self.store_in_stack(index, &[kind], &[word]),
            Spot::Cell { cell, at } => self.store_in_cell(cell, at, &[kind], &[word]),
        }
    }

    // ---- words of kinds

    /// Appends the words of some kinds at a spot.
    pub fn push_words(&self, spot: Spot, kinds: &[Kind], words: &mut Vec<i64>) -> Result<(), Stop>
        requires { Knows R.Means self.now (λ s. is_broken (held s (spot_of spot) kinds.now) ≡ false) }
        ensures { Always R.Means self.now (λ s. is_broken (held s (spot_of spot) kinds.now) ≡ false → Appends (held s (spot_of spot) kinds.now) result words.old.items words.new.items) }
    {
        match spot {
            Spot::Stack { index } => self.push_in_stack(index, kinds, words),
            Spot::Cell { cell, at } => self.push_in_cell(cell, at, kinds, words),
        }
    }

    /// Stores words of some kinds at a spot.
    pub fn store_words(&mut self, spot: Spot, kinds: &[Kind], words: &[i64])
        requires { Knows R.Means self.old (λ s. is_broken (stored s (spot_of spot) kinds.now words.now) ≡ false) }
        ensures stored { Changes R.Means self.old (λ s. stored s (spot_of spot) kinds.now words.now) self.new }
        ensures elsewhere { elsewhere self.new ≡ elsewhere self.old }
    {
        match spot {
            Spot::Stack { index } => self.store_in_stack(index, kinds, words),
            Spot::Cell { cell, at } => self.store_in_cell(cell, at, kinds, words),
        }
    }
}
