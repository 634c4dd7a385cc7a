//! The words of a run: those of all frames, those of values that wait, and the cells.
ghost use Rattle.std.specs.Prelude.{◌≡◌, ◌+◌, ◌≤◌, [], false, length, drop, slice_get, set, unsigned_abs};
ghost use Rattle.code_rows.specs.Stops.{shown};
ghost use Rattle.run_codes.specs.Flat.{InStack, Given, found, is_broken};
ghost use Rattle.run_values.specs.Items as items;
ghost use Rattle.handled_runs.specs.Slots.{behind, cell_spot};
ghost use Rattle.slot_memory.specs.Memory.{Knows, Always};
ghost use Rattle.slot_memory.specs.Spots.{spot_of, shown_spot};

use crate::heap::Heap;
use crate::spot::{Move, Spot};
use code_rows::{Exception, Stop};
use run_values::{Handle, Kind, at_end};
use slot_heap::Store;
use std::alloc::Global;
use std::marker::Model;

/// The words of all frames, those of values that wait, the cells, and the input.
pub struct Memory<'s, R> {
    pub(crate) stack: Vec<i64>,
    // where the frame that runs begins
    pub(crate) base: usize,
    // words of values that wait, and where those begin that the point takes
    pub(crate) waits: Vec<i64>,
    pub(crate) taken: usize,
    pub(crate) heap: Heap<'s, R>,
    // what the point moves
    pub(crate) moves: Vec<Move>,
    pub(crate) input: &'s [u8],
    // where the rest of the input begins
    pub(crate) read: usize,
}

impl<'s, R> Model for Memory<'s, R> {
    ghost use Rattle.std.specs.Prelude.{◌≤◌, length};
    ghost use Rattle.slot_memory.specs.Memory.{Kept};
    ghost use Rattle.slot_memory.specs.Moves.{moved_spots};

    ghost Value = { Kept R };

    ghost view = { λ m. record {
      stack = m.stack.items;
      base = m.base;
      waits = m.waits.items;
      taken = m.taken;
      heap = m.heap;
      moves = moved_spots m.moves.items;
      input = m.input.now;
      read = m.read;
    } };

    ghost invariant = { λ m. (m.taken ≤ length m.waits.items) × (m.read ≤ length m.input.now) };
}

impl<R> Drop for Memory<'_, R> {
    fn drop(self) {
        let Self {
            stack: _,
            base: _,
            waits: _,
            taken: _,
            heap: _,
            moves: _,
            input: _,
            read: _,
        } = self;
    }
}

impl<'s, R: Store> Memory<'s, R> {
    /// The store is given back.
    pub fn into_store(self) -> &'s mut R
        ensures lent { result.ghost_name ≡ self.entry.heap.lent }
        ensures store { result.now ≡ self.entry.heap.store }
    {
        let Self {
            stack: _,
            base: _,
            waits: _,
            taken: _,
            heap,
            moves: _,
            input: _,
            read: _,
        } = self;
        heap.into_store()
    }

    /// No words.
    pub fn new(alloc: Global, store: &'s mut R, input: &'s [u8]) -> Memory<'s, R>
        ensures stack { result.stack ≡ [] }
        ensures base { result.base ≡ 0 }
        ensures waits { result.waits ≡ [] }
        ensures heap { result.heap ≡ record { store = store.entry.now; lent = store.entry.ghost_name; lengths = []; numbers = []; made = 0; freed = 0; live = 0 } }
        ensures moves { result.moves ≡ [] }
        ensures input { result.input ≡ input.now }
        ensures read { result.read ≡ 0 }
    {
        Memory {
            stack: Vec::new(alloc),
            base: 0,
            waits: Vec::new(alloc),
            taken: 0,
            heap: Heap::new(alloc, store),
            moves: Vec::new(alloc),
            input,
            read: 0,
        }
    }

    // ---- words

    /// The word at an offset in the frame.
    #[inline(always)]
    pub fn local(&self, at: u32) -> i64
        requires { is_broken (found (slice_get self.now.stack (self.now.base + at))) ≡ false }
        ensures { found (slice_get self.now.stack (self.now.base + at)) ≡ Given result }
    {
        self.stack[self.base + at as usize]
    }

    /// The word at two offsets in the frame.
    pub fn local_at(&self, at: u32, index: i64) -> i64
        requires { is_broken (found (slice_get self.now.stack (self.now.base + at + unsigned_abs index))) ≡ false }
        ensures { found (slice_get self.now.stack (self.now.base + at + unsigned_abs index)) ≡ Given result }
    {
        self.stack[self.base + at as usize + index.unsigned_abs() as usize]
    }

    /// The word at an offset among the package objects.
    pub fn global(&self, at: u32) -> i64
        requires { is_broken (found (slice_get self.now.stack at)) ≡ false }
        ensures { found (slice_get self.now.stack at) ≡ Given result }
    {
        self.stack[at as usize]
    }

    /// The word at two offsets among the package objects.
    pub fn global_at(&self, at: u32, index: i64) -> i64
        requires { is_broken (found (slice_get self.now.stack (at + unsigned_abs index))) ≡ false }
        ensures { found (slice_get self.now.stack (at + unsigned_abs index)) ≡ Given result }
    {
        self.stack[at as usize + index.unsigned_abs() as usize]
    }

    /// The word at an offset among those that the point takes.
    pub fn waiting(&self, at: u32) -> i64
        requires { is_broken (found (slice_get (drop self.now.taken self.now.waits) at)) ≡ false }
        ensures { found (slice_get (drop self.now.taken self.now.waits) at) ≡ Given result }
    {
        self.waits.as_slice()[self.taken..][at as usize]
    }

    /// The word of a kind at an offset in the cell that an access value designates.
    #[inline(always)]
    pub fn behind(&self, pointer: i64, at: u64, kind: Kind) -> Result<i64, Stop>
        requires { Knows R.Means self.now (λ s. is_broken (behind s at kind pointer) ≡ false) }
        ensures { Always R.Means self.now (λ s. is_broken (behind s at kind pointer) ≡ false → behind s at kind pointer ≡ shown result) }
    {
        if pointer == 0 {
            return Err(Stop::Raises(Exception::ConstraintError));
        }
        let cell = Handle::new(pointer.unsigned_abs() - 1);
        Ok(self.heap.word(cell, at as u32, kind))
    }

    /// Puts a word at an offset in the frame.
    #[inline(always)]
    pub fn put(&mut self, at: u32, word: i64)
        requires { is_broken (found (slice_get self.old.stack (self.old.base + at))) ≡ false }
        ensures { self.new ≡ record self.old { stack = set self.old.stack (self.old.base + at) word } }
    {
        let index = self.base + at as usize;
        self.stack[index] = word;
    }

    // ---- places

    /// The place at two offsets in the frame.
    #[inline(always)]
    pub fn local_spot(&self, at: u32, index: i64) -> Spot
        requires { self.now.base + at + unsigned_abs index ≤ length self.now.stack }
        ensures { spot_of result ≡ InStack (self.now.base + at + unsigned_abs index) }
    {
        Spot::Stack {
            index: self.base + at as usize + index.unsigned_abs() as usize,
        }
    }

    /// The place at two offsets among the package objects.
    #[inline(always)]
    pub fn global_spot(&self, at: u32, index: i64) -> Spot
        requires { at + unsigned_abs index ≤ length self.now.stack }
        ensures { spot_of result ≡ InStack (at + unsigned_abs index) }
    {
        Spot::Stack {
            index: at as usize + index.unsigned_abs() as usize,
        }
    }

    /// The place at an offset in the cell that an access value designates.
    #[inline(always)]
    pub fn spot_behind(&self, pointer: i64, at: u64) -> Result<Spot, Stop>
        requires { Knows R.Means self.now (λ s. is_broken (cell_spot s at (unsigned_abs pointer)) ≡ false) }
        ensures { Always R.Means self.now (λ s. is_broken (cell_spot s at (unsigned_abs pointer)) ≡ false → cell_spot s at (unsigned_abs pointer) ≡ shown_spot result) }
    {
        if pointer == 0 {
            return Err(Stop::Raises(Exception::ConstraintError));
        }
        let cell = Handle::new(pointer.unsigned_abs() - 1);
        Ok(Spot::Cell {
            cell,
            at: at as u32,
        })
    }

    // ---- input

    /// Whether the input is at its end.
    pub fn at_end(&self) -> bool
        ensures { result ≡ items.at_end (drop self.now.read self.now.input) }
    {
        at_end(self.input, self.read)
    }
}
