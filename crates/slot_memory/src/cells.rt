//! Words of kinds in cells.
ghost use Rattle.std.specs.Prelude.{◌≡◌, ◌≤◌, ◌<◌, ◌+◌, ◌-◌, ◌++◌, ◌∷◌, [], true, length, take, drop, map, IsSomeAnd, OnOk, OnErr, IsErrOf};
ghost use Rattle.run_codes.specs.Flat.{most_offsets};
ghost use Rattle.slot_heap.specs.Heaps as heaps;
ghost use Rattle.slot_heap.specs.Heaps.{Holds, word_at, words_at, written};
ghost use Rattle.handled_runs.specs.Slots.{slot_word};
ghost use Rattle.handled_runs.specs.Changes.{slot_value, slot_values, written_all};
ghost use Rattle.handled_runs.specs.Fits.{is_slot_word, are_slot_words};
ghost use Rattle.slot_memory.specs.Cells.{Have};

use crate::heap::Heap;
use code_rows::Stop;
use run_values::{Handle, Kind};
use slot_heap::{Store, value_of, word_of};

impl<'s, R: Store> Heap<'s, R> {
    /// The word of a kind at an offset in a live cell.
    pub fn word(&self, cell: Handle, at: u32, kind: Kind) -> i64
        requires { heaps.Knows R.Means self.now.store (λ m. Holds m cell at kind) }
        ensures { heaps.Always R.Means self.now.store (λ m. Holds m cell at kind → IsSomeAnd (word_at m cell at) (λ v. result ≡ slot_word v)) }
    {
        word_of(self.get(cell, at, kind))
    }

    /// Puts a word of a kind at an offset in a live cell.
    pub fn put(&mut self, cell: Handle, at: u32, kind: Kind, word: i64)
        requires there { heaps.Knows R.Means self.old.store (λ m. Holds m cell at kind) }
        requires word { is_slot_word kind word ≡ true }
        ensures written { (m : heaps.Heap) → R.Means self.old.store m → Holds m cell at kind → R.Means self.new.store (written m cell at (slot_value kind word)) }
        ensures unchanged { self.new ≡ record self.old { store = self.new.store } }
    {
        self.set(cell, at, value_of(kind, word));
    }

    /// Appends the words of some kinds from an offset on in a live cell.
    pub fn push_words(
        &self,
        cell: Handle,
        at: u32,
        kinds: &[Kind],
        words: &mut Vec<i64>,
    ) -> Result<(), Stop>
        requires there { heaps.Knows R.Means self.now.store (λ m. Have m cell at kinds.now) }
        requires offsets { at + length kinds.now < most_offsets }
        ensures pushed { OnOk result (heaps.Always R.Means self.now.store (λ m. Have m cell at kinds.now → IsSomeAnd (words_at m.cells cell) (λ ws. words.new.items ≡ words.old.items ++ take (length kinds.now) (drop at (map slot_word ws))))) }
        ensures memory { OnErr result (IsErrOf result Stop.Memory) }
    {
        'kinds: for i in 0..kinds.len() {
            words.push(self.word(cell, at + i as u32, kinds[i]))?;
        }
        Ok(())
    }

    /// Stores words of some kinds from an offset on in a live cell.
    pub fn store_words(&mut self, cell: Handle, at: u32, kinds: &[Kind], words: &[i64])
        requires there { heaps.Knows R.Means self.old.store (λ m. Have m cell at kinds.now) }
        requires offsets { at + length kinds.now < most_offsets }
        requires words { are_slot_words kinds.now words.now ≡ true }
        ensures stored { (m : heaps.Heap) → R.Means self.old.store m → Have m cell at kinds.now → R.Means self.new.store (written_all m cell at (slot_values kinds.now words.now)) }
        ensures unchanged { self.new ≡ record self.old { store = self.new.store } }
    {
        'kinds: for i in 0..kinds.len() {
            self.put(cell, at + i as u32, kinds[i], words[i]);
        }
    }
}

/// Appends so many of the words from an index on.
pub(crate) fn push_range(
    all: &[i64],
    first: usize,
    count: usize,
    words: &mut Vec<i64>,
) -> Result<(), Stop>
    requires some { 0 < count }
    requires room { count ≤ length all.now - first }
    ensures pushed { OnOk result (words.new.items ≡ words.old.items ++ take count (drop first all.now)) }
    ensures memory { OnErr result (IsErrOf result Stop.Memory) }
    ensures unchanged { OnErr result (words.new.items ≡ words.old.items) }
{
    words.extend_from_slice(&all[first..][..count])?;
    Ok(())
}
