//! A heap whose slots are used again.
ghost use Rattle.std.specs.Prelude.{◌≡◌, ◌<◌, ◌≤◌, ◌+◌, ◌-◌, ◌^◌, ◌++◌, true, length, set, get_or, take, drop, replicate, IfOk, OnOk, OnErr};
ghost use Rattle.run_values.specs.declared.value.Value.TheVariants as value;
ghost use Rattle.slot_heap.specs.Heaps.{no_heap};
ghost use Rattle.slot_heap.specs.Words.{slot_values, are_slot_words};
ghost use Rattle.slot_heap.specs.Stores.{Means};

use crate::store::Store;
use crate::values::value_of;
use run_values::{Handle, Kind, Value};
use std::alloc::{AllocError, Global};

/// Puts the values of some words in the places of those from one on.
fn put(values: &mut Vec<Value>, start: usize, kinds: &[Kind], words: &[i64])
    requires fit { are_slot_words kinds.now words.now ≡ true }
    requires within { start + length words.now ≤ length values.old.items }
    ensures { values.new.items ≡ take start values.old.items ++ slot_values kinds.now words.now ++ drop (start + length words.now) values.old.items }
{
    'words: for i in 0..words.len() {
        values[start + i] = value_of(kinds[i], words[i]);
    }
}

/// Cells in runs of one list of words. A handle is the index of its first word.
#[derive(Drop)]
pub struct ReuseStore {
    words: Vec<Value>,
    // what designates the first free run of each size
    heads: Vec<Value>,
    count: u64,
}

impl ReuseStore {
    /// A heap without cells and slots. It takes no memory.
    pub fn new(alloc: Global) -> ReuseStore
        ensures { Means result no_heap }
    {
        ReuseStore {
            words: Vec::new(alloc),
            heads: Vec::new(alloc),
            count: 0,
        }
    }

    /// The table has this size from now on.
    fn grow(&mut self, size: usize) -> Result<(), AllocError>
        requires { size < 2 ^ 63 }
        ensures words { self.new.words ≡ self.old.words }
        ensures count { self.new.count ≡ self.old.count }
        ensures heads { OnOk result (self.new.heads.items ≡ self.old.heads.items ++ replicate (size + 1 - length self.old.heads.items) value.Null) }
        ensures unchanged { OnErr result (self.new.heads.items ≡ self.old.heads.items) }
    {
        if self.heads.len() <= size {
            self.heads.resize(size + 1, Value::Null)?;
        }
        Ok(())
    }

    /// A cell in the first free run of its size.
    fn reuse(&mut self, h: Handle, kinds: &[Kind], words: &[i64])
        requires some { 0 < length words.now }
        requires fit { are_slot_words kinds.now words.now ≡ true }
        requires within { h + length words.now ≤ length self.old.words.items }
        requires size { length words.now < length self.old.heads.items }
        ensures words { self.new.words.items ≡ take h self.old.words.items ++ slot_values kinds.now words.now ++ drop (h + length words.now) self.old.words.items }
        ensures heads { self.new.heads.items ≡ set self.old.heads.items (length words.now) (get_or self.old.words.items h value.Null) }
        ensures count { self.new.count ≡ self.old.count }
    {
        let start = h.number() as usize;
        self.heads[words.len()] = self.words[start];
        put(&mut self.words, start, kinds, words);
    }

    /// A cell after all words.
    fn add(&mut self, kinds: &[Kind], words: &[i64]) -> Result<Handle, AllocError>
        requires fit { are_slot_words kinds.now words.now ≡ true }
        requires few { self.old.count < 2 ^ 62 }
        ensures handle { IfOk result (λ h. h ≡ length self.old.words.items) }
        ensures words { OnOk result (self.new.words.items ≡ self.old.words.items ++ slot_values kinds.now words.now) }
        ensures count { OnOk result (self.new.count ≡ self.old.count + 1) }
        ensures heads { self.new.heads.items ≡ self.old.heads.items }
        ensures words_stay { OnErr result (self.new.words.items ≡ self.old.words.items) }
        ensures count_stays { OnErr result (self.new.count ≡ self.old.count) }
    {
        let end = self.words.len();
        if end as u64 >= 1 << 62 {
            return Err(AllocError);
        }
        self.words.resize(end + words.len(), Value::Null)?;
        put(&mut self.words, end, kinds, words);
        self.count += 1;
        Ok(Handle::new(end as u64))
    }
}

impl Store for ReuseStore {
    ghost Means = { Means };

    fn allocate(&mut self, kinds: &[Kind], words: &[i64]) -> Result<Handle, AllocError> {
        self.grow(words.len())?;
        if let Value::Cell(h) = self.heads[words.len()] {
            self.reuse(h, kinds, words);
            return Ok(h);
        }
        match self.add(kinds, words) {
            Ok(h) => Ok(h),
            Err(fault) => Err(fault),
        }
    }

    fn read(&self, h: Handle, at: u32, _kind: Kind) -> Value {
        self.words[h.number() as usize + at as usize]
    }

    fn write(&mut self, h: Handle, at: u32, v: Value) {
        let index = h.number() as usize + at as usize;
        self.words[index] = v;
    }

    fn free(&mut self, h: Handle, size: u32) {
        let start = h.number() as usize;
        self.words[start] = self.heads[size as usize];
        self.heads[size as usize] = Value::Cell(h);
    }

    fn slots(&self) -> u64 {
        self.count
    }
}
