//! The cells of a run, with what is counted of them.
ghost use Rattle.std.specs.Prelude.{◌≡◌, ◌<◌, ◌≤◌, ◌+◌, ◌-◌, ◌++◌, ◌^◌, [], true, length, replicate, get_or, IfOk, OnOk};
ghost use Rattle.run_values.specs.Values.{kind as kind_of};
ghost use Rattle.machine.specs.Evaluate.{heap_words};
ghost use Rattle.run_codes.specs.Flat.{most_cells};
ghost use Rattle.slot_heap.specs.Heaps as heaps;
ghost use Rattle.slot_heap.specs.Heaps.{Holds, HasWord, written};
ghost use Rattle.slot_heap.specs.Words.{slot_values, are_slot_words};
ghost use Rattle.slot_memory.specs.Cells.{KnowsCells, IsMadeAs, IsFreed};
ghost use Rattle.slot_memory.specs.Given.{CanGive, IsGivenUp};

use run_values::{Handle, Kind, Value};
use slot_heap::Store;
use std::alloc::{AllocError, Global};
use std::marker::Model;

/// The most words of all cells that aren't freed.
pub(crate) const HEAP_WORDS: u64 = 16_777_216;

/// No more cells than these are made.
pub(crate) const MOST_CELLS: u64 = 144_115_188_075_855_872;

/// The cells, how many were made and freed, and how many words the others have.
pub struct Heap<'s, R> {
    store: &'s mut R,
    // how many words the cell of each handle has, and its number from 1
    lengths: Vec<u32>,
    numbers: Vec<u64>,
    made: u64,
    freed: u64,
    live: u64,
}

impl<'s, R> Model for Heap<'s, R> {
    ghost use Rattle.slot_memory.specs.Cells.{Cells};

    ghost Value = { Cells R };

    ghost view = { λ h. record {
      store = h.store.now;
      lent = h.store.ghost_name;
      lengths = h.lengths.items;
      numbers = h.numbers.items;
      made = h.made;
      freed = h.freed;
      live = h.live;
    } };
}

impl<R> Drop for Heap<'_, R> {
    fn drop(self) {
        let Self {
            store: _,
            lengths: _,
            numbers: _,
            made: _,
            freed: _,
            live: _,
        } = self;
    }
}

impl<'s, R: Store> Heap<'s, R> {
    /// The store is given back.
    pub fn into_store(self) -> &'s mut R
        ensures lent { result.ghost_name ≡ self.entry.lent }
        ensures store { result.now ≡ self.entry.store }
    {
        let Self {
            store,
            lengths: _,
            numbers: _,
            made: _,
            freed: _,
            live: _,
        } = self;
        store
    }

    /// No cells.
    pub fn new(alloc: Global, store: &'s mut R) -> Heap<'s, R>
        ensures { result ≡ record { store = store.entry.now; lent = store.entry.ghost_name; lengths = []; numbers = []; made = 0; freed = 0; live = 0 } }
    {
        Heap {
            store,
            lengths: Vec::new(alloc),
            numbers: Vec::new(alloc),
            made: 0,
            freed: 0,
            live: 0,
        }
    }

    /// The word of a kind at a place of a live cell.
    pub fn get(&self, cell: Handle, at: u32, kind: Kind) -> Value
        requires { heaps.Knows R.Means self.now.store (λ m. Holds m cell at kind) }
        ensures { heaps.Always R.Means self.now.store (λ m. Holds m cell at kind → HasWord m cell at result) }
    {
        self.store.read(cell, at, kind)
    }

    /// Puts a word in the place of one of its kind, in a live cell.
    pub fn set(&mut self, cell: Handle, at: u32, value: Value)
        requires { heaps.Knows R.Means self.old.store (λ m. Holds m cell at (kind_of value)) }
        ensures written { (m : heaps.Heap) → R.Means self.old.store m → Holds m cell at (kind_of value) → R.Means self.new.store (written m cell at value) }
        ensures unchanged { self.new ≡ record self.old { store = self.new.store } }
    {
        self.store.write(cell, at, value);
    }

    /// The number of the cell of a handle, from 1.
    pub fn number_at(&self, handle: usize) -> u64
        ensures { result ≡ get_or self.now.numbers handle 0 }
    {
        match self.numbers.get(handle) {
            Some(number) => *number,
            None => 0,
        }
    }

    /// How many cells were made.
    pub fn made(&self) -> u64
        ensures { result ≡ self.now.made }
    {
        self.made
    }

    /// How many cells were freed.
    pub fn freed(&self) -> u64
        ensures { result ≡ self.now.freed }
    {
        self.freed
    }

    /// How many words the cells have that aren't freed.
    pub fn live(&self) -> u64
        ensures { result ≡ self.now.live }
    {
        self.live
    }

    /// How many slots there are.
    pub fn slots(&self) -> u64
        ensures { heaps.Always R.Means self.now.store (λ m. result ≡ length m.slots) }
    {
        self.store.slots()
    }

    /// A handle has a row from now on.
    fn reach(&mut self, index: usize) -> Result<(), AllocError>
        requires { index < 2 ^ 62 }
        ensures lengths { OnOk result (self.new.lengths ≡ self.old.lengths ++ replicate (index + 1 - length self.old.lengths) 0) }
        ensures numbers { OnOk result (self.new.numbers ≡ self.old.numbers ++ replicate (index + 1 - length self.old.numbers) 0) }
        ensures unchanged { self.new ≡ record self.old { lengths = self.new.lengths; numbers = self.new.numbers } }
    {
        if self.lengths.len() <= index {
            self.lengths.resize(index + 1, 0)?;
        }
        if self.numbers.len() <= index {
            self.numbers.resize(index + 1, 0)?;
        }
        Ok(())
    }

    /// A new cell of words of some kinds, where it isn't one too many and has room.
    pub fn allocate(&mut self, kinds: &[Kind], words: &[i64]) -> Result<Handle, AllocError>
        requires some { 0 < length words.now }
        requires fit { are_slot_words kinds.now words.now ≡ true }
        requires words { self.old.live + length words.now ≤ heap_words }
        requires cells { self.old.made < most_cells }
        requires known { KnowsCells R.Means self.old (λ m. m ≡ m) }
        ensures made { IfOk result (λ h. IsMadeAs R.Means self.old h (slot_values kinds.now words.now) self.new) }
        ensures lent { self.new.lent ≡ self.old.lent }
    {
        let handle = self.store.allocate(kinds, words)?;
        let index = handle.number() as usize;
        self.reach(index)?;
        self.made += 1;
        self.lengths[index] = words.len() as u32;
        self.numbers[index] = self.made;
        self.live += words.len() as u64;
        Ok(handle)
    }

    /// Frees a live cell.
    pub fn free(&mut self, cell: Handle)
        requires { KnowsCells R.Means self.old (λ m. heaps.IsLive m cell) }
        ensures freed { IsFreed R.Means self.old cell self.new }
        ensures lent { self.new.lent ≡ self.old.lent }
    {
        let words = self.lengths[cell.number() as usize];
        self.store.free(cell, words);
        self.freed += 1;
        self.live = self.live.saturating_sub(u64::from(words));
    }

    /// The cells with greater numbers than one are freed, as a step is given up that made them.
    pub fn give_up(&mut self, made: u64)
        requires { CanGive R.Means self.old made }
        ensures { IsGivenUp R.Means self.old made self.new }
    {
        let handles = self.numbers.len();
        'handles: for i in 0..handles {
            if self.number_at(i) > made {
                self.free(Handle::new(i as u64));
            }
        }
    }
}
