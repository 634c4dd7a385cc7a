//! Words at hand, and what spots of types hold.
ghost use Rattle.std.specs.Prelude.{◌≡◌, ◌≤◌, ◌++◌, ◌∷◌, [], false, length, take, drop, OnOk, OnErr, IsErrOf};
ghost use Rattle.machine.specs.Words.{access_offsets};
ghost use Rattle.run_codes.specs.Flat.{Given, is_broken, kinds, default_words, some_words, repeated};
ghost use Rattle.run_results.specs.Results.{leaks_of};
ghost use Rattle.handled_runs.specs.Slots.{held};
ghost use Rattle.handled_runs.specs.Changes.{stored, moving};
ghost use Rattle.handled_runs.specs.Leaks.{leaks_at};
ghost use Rattle.slot_memory.specs.Memory.{Knows, Always, Changes, elsewhere};
ghost use Rattle.slot_memory.specs.Spots.{spot_of};
ghost use Rattle.slot_memory.specs.Answers.{Appends};
ghost use Rattle.slot_hand.specs.Outcomes.{Makeable, Made};
ghost use Rattle.slot_hand.specs.Leaks.{Finds};

use crate::spots::{find_leak, find_leaks, find_pointers, make, take_kinds, take_offsets};
use crate::words::push_repeated;
use code_rows::Stop;
use run_results::Leak;
use run_values::Kind;
use slot_heap::Store;
use slot_memory::{Memory, Spot};
use spark_base::Pos;
use std::alloc::Global;
use std::marker::Model;
use type_layouts::Layouts;
use type_words::push_defaults;

/// Words at hand, and room for what is worked on beside them. Contracts see the words.
pub struct Hand {
    words: Vec<i64>,
    // what stands at a spot
    found: Vec<i64>,
    kinds: Vec<Kind>,
    offsets: Vec<u32>,
}

impl Model for Hand {
    ghost use Rattle.std.specs.Prelude.{List, ℤ};

    ghost Value = { List ℤ };

    ghost view = { λ h. h.words.items };
}

impl Drop for Hand {
    fn drop(self) {
        let Self {
            words: _,
            found: _,
            kinds: _,
            offsets: _,
        } = self;
    }
}

impl Hand {
    /// No words.
    pub fn new(alloc: Global) -> Hand
        ensures { result ≡ [] }
    {
        Hand {
            words: Vec::new(alloc),
            found: Vec::new(alloc),
            kinds: Vec::new(alloc),
            offsets: Vec::new(alloc),
        }
    }

    /// How many words are at hand.
    pub fn len(&self) -> usize
        ensures { result ≡ length self.now }
    {
        self.words.len()
    }

    /// The words at hand.
    pub fn words(&self) -> &[i64]
        ensures { result.now ≡ self.now }
    {
        self.words.as_slice()
    }

    /// No words are at hand.
    pub fn clear(&mut self)
        ensures { self.new ≡ [] }
    {
        self.words.clear();
    }

    /// The first words are left.
    pub fn cut(&mut self, count: usize)
        ensures { self.new ≡ take count self.old }
    {
        self.words.truncate(count);
    }

    /// One word more.
    pub fn push(&mut self, word: i64) -> Result<(), Stop>
        ensures pushed { OnOk result (self.new ≡ self.old ++ word ∷ []) }
        ensures memory { OnErr result (IsErrOf result Stop.Memory) }
        ensures unchanged { OnErr result (self.new ≡ self.old) }
    {
        self.words.push(word)?;
        Ok(())
    }

    /// Appends the words of an object of a type without a value.
    pub fn push_default(&mut self, table: &Layouts, of: u32) -> Result<(), Stop>
        ensures pushed { OnOk result (self.new ≡ self.old ++ default_words table.now of) }
        ensures memory { OnErr result (IsErrOf result Stop.Memory) }
    {
        push_defaults(table.table(), of, &mut self.words)?;
        Ok(())
    }

    /// Appends so many words of those that the point takes, from an offset on.
    pub fn push_waiting<R: Store>(
        &mut self,
        memory: &Memory<R>,
        at: u32,
        count: u32,
    ) -> Result<(), Stop>
        requires { is_broken (some_words count (drop at (drop memory.now.taken memory.now.waits))) ≡ false }
        ensures { Appends (some_words count (drop at (drop memory.now.taken memory.now.waits))) result self.old self.new }
    {
        memory.push_waiting(at, count, &mut self.words)
    }

    /// Appends what a spot of a type holds.
    pub fn push_held<R: Store>(
        &mut self,
        table: &Layouts,
        memory: &Memory<R>,
        spot: Spot,
        of: u32,
    ) -> Result<(), Stop>
        requires { Knows R.Means memory.now (λ s. is_broken (held s (spot_of spot) (kinds table.now of)) ≡ false) }
        ensures { Always R.Means memory.now (λ s. is_broken (held s (spot_of spot) (kinds table.now of)) ≡ false → Appends (held s (spot_of spot) (kinds table.now of)) result self.old self.new) }
    {
        if let Some(kinds) = table.kinds(of) {
            return memory.push_words(spot, kinds, &mut self.words);
        }
        take_kinds(table, of, &mut self.kinds)?;
        memory.push_words(spot, &self.kinds, &mut self.words)
    }

    /// Stores the words at hand from an index on at a spot of a type.
    pub fn store<R: Store>(
        &mut self,
        table: &Layouts,
        memory: &mut Memory<R>,
        spot: Spot,
        of: u32,
        from: usize,
    ) -> Result<(), Stop>
        requires from { from ≤ length self.old }
        requires whole { Knows R.Means memory.old (λ s. is_broken (stored s (spot_of spot) (kinds table.now of) (drop from self.old)) ≡ false) }
        ensures stored { OnOk result (Changes R.Means memory.old (λ s. stored s (spot_of spot) (kinds table.now of) (drop from self.old)) memory.new) }
        ensures memory { OnErr result (IsErrOf result Stop.Memory) }
        ensures unchanged { OnErr result (memory.new ≡ memory.old) }
        ensures elsewhere { elsewhere memory.new ≡ elsewhere memory.old }
        ensures hand { self.new ≡ self.old }
    {
        if let Some(kinds) = table.kinds(of) {
            memory.store_words(spot, kinds, &self.words[from..]);
            return Ok(());
        }
        take_kinds(table, of, &mut self.kinds)?;
        memory.store_words(spot, &self.kinds, &self.words[from..]);
        Ok(())
    }

    /// The access parts of a spot of a type are moved out. They stand there until what is moved is
    /// settled.
    pub fn move_out<R: Store>(
        &mut self,
        table: &Layouts,
        memory: &mut Memory<R>,
        spot: Spot,
        of: u32,
    ) -> Result<(), Stop>
        ensures moved { OnOk result (Changes R.Means memory.old (λ s. Given (moving s (spot_of spot) (kinds table.now of) (access_offsets table.now of))) memory.new) }
        ensures memory { OnErr result (IsErrOf result Stop.Memory) }
        ensures elsewhere { elsewhere memory.new ≡ elsewhere memory.old }
        ensures hand { self.new ≡ self.old }
    {
        if let Some(offsets) = table.offsets(of) {
            return memory.move_out(spot, offsets);
        }
        take_offsets(table, of, &mut self.offsets)?;
        memory.move_out(spot, &self.offsets)
    }

    /// The words at hand from an index on become a cell of a type, and its name comes in their place.
    pub fn make<R: Store>(
        &mut self,
        table: &Layouts,
        memory: &mut Memory<R>,
        of: u32,
        from: usize,
    ) -> Result<(), Stop>
        requires from { from ≤ length self.old }
        requires whole { Makeable R.Means memory.old (kinds table.now of) (drop from self.old) }
        ensures made { Made R.Means memory.old (kinds table.now of) (drop from self.old) result (take from self.old) self.new memory.new }
        ensures elsewhere { elsewhere memory.new ≡ elsewhere memory.old }
    {
        if let Some(kinds) = table.kinds(of) {
            return make(memory, kinds, from, &mut self.words);
        }
        take_kinds(table, of, &mut self.kinds)?;
        make(memory, &self.kinds, from, &mut self.words)
    }

    /// The words at hand from an index on come so many times.
    pub fn repeat(&mut self, from: usize, count: u32) -> Result<(), Stop>
        requires { from ≤ length self.old }
        ensures pushed { OnOk result (self.new ≡ take from self.old ++ repeated count (drop from self.old)) }
        ensures memory { OnErr result (IsErrOf result Stop.Memory) }
    {
        self.found.clear();
        self.found.extend_from_slice(&self.words[from..])?;
        self.words.truncate(from);
        push_repeated(&self.found, count, &mut self.words)
    }

    /// Appends the failed leak checks of a spot with words of a type, of which nothing is kept.
    #[inline(never)]
    fn search_leaks<R: Store>(
        &mut self,
        table: &Layouts,
        memory: &Memory<R>,
        spot: Spot,
        of: u32,
        pos: Pos,
        leaks: &mut Vec<Leak>,
    ) -> Result<(), Stop>
        requires { Knows R.Means memory.now (λ s. is_broken (leaks_at table.now s (spot_of spot) of pos) ≡ false) }
        ensures leaks { Always R.Means memory.now (λ s. is_broken (leaks_at table.now s (spot_of spot) of pos) ≡ false → Finds (leaks_at table.now s (spot_of spot) of pos) result (leaks_of leaks.old.items) (leaks_of leaks.new.items)) }
        ensures hand { self.new ≡ self.old }
    {
        take_offsets(table, of, &mut self.offsets)?;
        if self.offsets.is_empty() {
            return Ok(());
        }
        take_kinds(table, of, &mut self.kinds)?;
        find_leaks(
            memory,
            spot,
            &self.kinds,
            &self.offsets,
            pos,
            &mut self.found,
            leaks,
        )
    }

    /// Appends the failed leak checks of a spot with words of a type.
    #[inline(always)]
    pub fn push_leaks<R: Store>(
        &mut self,
        table: &Layouts,
        memory: &Memory<R>,
        spot: Spot,
        of: u32,
        pos: Pos,
        leaks: &mut Vec<Leak>,
    ) -> Result<(), Stop>
        requires { Knows R.Means memory.now (λ s. is_broken (leaks_at table.now s (spot_of spot) of pos) ≡ false) }
        ensures leaks { Always R.Means memory.now (λ s. is_broken (leaks_at table.now s (spot_of spot) of pos) ≡ false → Finds (leaks_at table.now s (spot_of spot) of pos) result (leaks_of leaks.old.items) (leaks_of leaks.new.items)) }
        ensures hand { self.new ≡ self.old }
    {
        if table.is_pointer(of) {
            return find_leak(memory, spot, pos, leaks);
        }
        if let Some(offsets) = table.offsets(of) {
            return find_pointers(memory, spot, offsets, pos, leaks);
        }
        self.search_leaks(table, memory, spot, of, pos, leaks)
    }
}
