//! Cells, frames, values that wait, and the input.
ghost use Rattle.std.specs.Prelude.{◌≡◌, ◌≤◌, ◌+◌, ◌-◌, ◌++◌, true, false, length, take, drop, OnOk, OnErr, IsErrOf};
ghost use Rattle.run_codes.specs.Flat.{is_broken, some_words};
ghost use Rattle.slot_heap.specs.Heaps.{IsLive};
ghost use Rattle.slot_heap.specs.Words.{slot_values, are_slot_words};
ghost use Rattle.slot_memory.specs.Memory.{IsKnown, Knows, Always, elsewhere};
ghost use Rattle.slot_memory.specs.Answers.{Appends, Allocates, Frees, number_of};
ghost use Rattle.slot_memory.specs.Given.{CanGive, IsGivenUp};

use crate::cells::push_range;
use crate::heap::{HEAP_WORDS, MOST_CELLS};
use crate::memory::Memory;
use code_rows::{Exception, Stop};
use run_values::{Handle, Kind, Value};
use slot_heap::{Store, word_of};

impl<'s, R: Store> Memory<'s, R> {
    // ---- cells

    /// A new cell with words of some kinds, as an access value. One without words isn't made.
    pub fn allocate(&mut self, kinds: &[Kind], words: &[i64]) -> Result<i64, Stop>
        requires known { IsKnown R.Means self.old }
        requires fit { are_slot_words kinds.now words.now ≡ true }
        ensures made { Always R.Means self.old (λ s. Allocates R.Means s (slot_values kinds.now words.now) result self.new) }
        ensures elsewhere { elsewhere self.new ≡ elsewhere self.old }
    {
        if words.is_empty() {
            return Err(Stop::Memory);
        }
        let count = words.len() as u64;
        if count > HEAP_WORDS.saturating_sub(self.heap.live()) {
            return Err(Stop::Raises(Exception::StorageError));
        }
        if self.heap.made() >= MOST_CELLS {
            return Err(Stop::Memory);
        }
        let handle = self.heap.allocate(kinds, words)?;
        Ok(word_of(Value::Cell(handle)))
    }

    /// The number of the cell that an access value designates, from 1.
    pub fn number_of(&self, word: i64) -> Option<u64>
        ensures { Always R.Means self.now (λ s. result ≡ number_of s.numbers word) }
    {
        if word <= 0 {
            return None;
        }
        Some(self.heap.number_at(word as usize - 1))
    }

    /// Frees a live cell.
    pub fn free(&mut self, cell: Handle)
        requires { Knows R.Means self.old (λ s. IsLive s.heap cell) }
        ensures freed { Always R.Means self.old (λ s. Frees R.Means s cell self.new) }
        ensures elsewhere { elsewhere self.new ≡ elsewhere self.old }
    {
        self.heap.free(cell)
    }

    /// The cells with greater numbers than one are freed, as a step is given up that made them.
    pub fn give_up(&mut self, made: u64)
        requires { CanGive R.Means self.old.heap made }
        ensures given_up { IsGivenUp R.Means self.old.heap made self.new.heap }
        ensures rest { self.new ≡ record self.old { heap = self.new.heap } }
    {
        self.heap.give_up(made);
    }

    /// How many cells were made.
    pub fn made(&self) -> u64
        ensures { result ≡ self.now.heap.made }
    {
        self.heap.made()
    }

    /// How many cells were freed, with all that were made since there were so many.
    pub fn freed_with(&self, made: u64) -> u64
        requires { IsKnown R.Means self.now }
        ensures { result ≡ self.now.heap.freed + (self.now.heap.made - made) }
    {
        self.heap.freed() + self.heap.made().saturating_sub(made)
    }

    /// How many slots there are.
    pub fn slots(&self) -> u64
        requires { IsKnown R.Means self.now }
        ensures { Always R.Means self.now (λ s. result ≡ length s.heap.slots) }
    {
        self.heap.slots()
    }

    // ---- frames

    /// How many words all frames have.
    pub fn top(&self) -> usize
        ensures { result ≡ length self.now.stack }
    {
        self.stack.len()
    }

    /// Where the frame that runs begins.
    pub fn base(&self) -> usize
        ensures { result ≡ self.now.base }
    {
        self.base
    }

    /// Words come after those of all frames.
    pub fn push_frame(&mut self, words: &[i64]) -> Result<(), Stop>
        ensures pushed { OnOk result (self.new ≡ record self.old { stack = self.old.stack ++ words.now }) }
        ensures memory { OnErr result (IsErrOf result Stop.Memory) }
        ensures unchanged { OnErr result (self.new ≡ self.old) }
    {
        self.stack.extend_from_slice(words)?;
        Ok(())
    }

    /// The words of all frames up to an index are left.
    pub fn cut_frames(&mut self, top: usize)
        ensures { self.new ≡ record self.old { stack = take top self.old.stack } }
    {
        self.stack.truncate(top);
    }

    /// The frame that begins there runs.
    pub fn enter(&mut self, base: usize)
        ensures { self.new ≡ record self.old { base = base } }
    {
        self.base = base;
    }

    // ---- values that wait

    /// How many words wait in all frames.
    pub fn waiting_words(&self) -> usize
        ensures { result ≡ length self.now.waits }
    {
        self.waits.len()
    }

    /// The point takes the words that wait from an index on.
    pub fn take_from(&mut self, index: usize)
        requires { index ≤ length self.old.waits }
        ensures { self.new ≡ record self.old { taken = index } }
    {
        self.taken = index;
    }

    /// The words that wait up to an index are left, and the point takes none.
    pub fn cut_waits(&mut self, index: usize)
        requires { index ≤ length self.old.waits }
        ensures { self.new ≡ record self.old { waits = take index self.old.waits; taken = index } }
    {
        self.waits.truncate(index);
        self.taken = index;
    }

    /// Some words wait after the others.
    pub fn wait(&mut self, words: &[i64]) -> Result<(), Stop>
        ensures pushed { OnOk result (self.new ≡ record self.old { waits = self.old.waits ++ words.now }) }
        ensures memory { OnErr result (IsErrOf result Stop.Memory) }
        ensures unchanged { OnErr result (self.new ≡ self.old) }
    {
        self.waits.extend_from_slice(words)?;
        Ok(())
    }

    /// Appends so many words of those that the point takes, from an offset on.
    pub fn push_waiting(&self, at: u32, count: u32, words: &mut Vec<i64>) -> Result<(), Stop>
        requires { is_broken (some_words count (drop at (drop self.now.taken self.now.waits))) ≡ false }
        ensures appended { Appends (some_words count (drop at (drop self.now.taken self.now.waits))) result words.old.items words.new.items }
        ensures unchanged { OnErr result (words.new.items ≡ words.old.items) }
    {
        if count == 0 {
            return Ok(());
        }
        push_range(
            &self.waits.as_slice()[self.taken..],
            at as usize,
            count as usize,
            words,
        )?;
        Ok(())
    }

    // ---- input

    /// The input.
    pub fn input(&self) -> &[u8]
        ensures { result.now ≡ self.now.input }
    {
        self.input
    }

    /// Where the rest of the input begins.
    pub fn read(&self) -> usize
        ensures { result ≡ self.now.read }
    {
        self.read
    }

    /// The input is read up to there.
    pub fn read_to(&mut self, end: usize)
        requires { end ≤ length self.old.input }
        ensures { self.new ≡ record self.old { read = end } }
    {
        self.read = end;
    }
}
