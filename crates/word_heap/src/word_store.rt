//! A heap in one list of numbers.
ghost use Rattle.std.specs.Prelude.{◌≡◌, ◌<◌, ◌≤◌, ◌+◌, ◌-◌, ◌^◌, ◌++◌, length, set, get_or, take, drop, replicate, pos, IfOk, OnOk, OnErr};
ghost use Rattle.slot_heap.specs.Heaps.{no_heap};
ghost use Rattle.word_heap.specs.Stores.{Means};

use crate::codes::{code, decoded};
use run_values::{Handle, Kind, Value};
use slot_heap::Store;
use std::alloc::{AllocError, Global};

/// Cells in runs of one list of numbers. A handle is the index of its first word.
#[derive(Drop)]
pub struct WordStore {
    words: Vec<i64>,
    // what designates the first free run of each size
    heads: Vec<i64>,
    count: u64,
}

impl WordStore {
    /// A heap without cells and slots. It takes no memory.
    pub fn new(alloc: Global) -> WordStore
        ensures { Means result no_heap }
    {
        WordStore {
            words: Vec::new(alloc),
            heads: Vec::new(alloc),
            count: 0,
        }
    }

    /// The table has this size from now on.
    fn grow(&mut self, size: usize) -> Result<(), AllocError>
        requires { size < 2 ^ 63 }
        ensures words { self.new.words ≡ self.old.words }
        ensures count { self.new.count ≡ self.old.count }
        ensures heads { OnOk result (self.new.heads.items ≡ self.old.heads.items ++ replicate (size + 1 - length self.old.heads.items) (pos 0)) }
        ensures unchanged { OnErr result (self.new.heads.items ≡ self.old.heads.items) }
    {
        if self.heads.len() <= size {
            self.heads.resize(size + 1, 0)?;
        }
        Ok(())
    }

    /// A cell in the first free run of its size.
    fn reuse(&mut self, h: Handle, words: &[i64])
        requires some { 0 < length words.now }
        requires within { h + length words.now ≤ length self.old.words.items }
        requires size { length words.now < length self.old.heads.items }
        ensures words { self.new.words.items ≡ take h self.old.words.items ++ words.now ++ drop (h + length words.now) self.old.words.items }
        ensures heads { self.new.heads.items ≡ set self.old.heads.items (length words.now) (get_or self.old.words.items h (pos 0)) }
        ensures count { self.new.count ≡ self.old.count }
    {
        let start = h.number() as usize;
        self.heads[words.len()] = self.words[start];
        self.words[start..start + words.len()].copy_from_slice(words);
    }

    /// A cell after all words.
    fn add(&mut self, words: &[i64]) -> Result<Handle, AllocError>
        requires { self.old.count < 2 ^ 62 }
        ensures handle { IfOk result (λ h. h ≡ length self.old.words.items) }
        ensures words { OnOk result (self.new.words.items ≡ self.old.words.items ++ words.now) }
        ensures count { OnOk result (self.new.count ≡ self.old.count + 1) }
        ensures heads { self.new.heads.items ≡ self.old.heads.items }
        ensures words_stay { OnErr result (self.new.words.items ≡ self.old.words.items) }
        ensures count_stays { OnErr result (self.new.count ≡ self.old.count) }
    {
        let start = self.words.len() as u64;
        if start >= 1 << 62 {
            return Err(AllocError);
        }
        self.words.extend_from_slice(words)?;
        self.count += 1;
        Ok(Handle::new(start))
    }
}

impl Store for WordStore {
    ghost Means = { Means };

    fn allocate(&mut self, _kinds: &[Kind], words: &[i64]) -> Result<Handle, AllocError> {
        self.grow(words.len())?;
        if let Value::Cell(h) = decoded(self.heads[words.len()], Kind::Access) {
            self.reuse(h, words);
            return Ok(h);
        }
        match self.add(words) {
            Ok(h) => Ok(h),
            Err(fault) => Err(fault),
        }
    }

    fn read(&self, h: Handle, at: u32, kind: Kind) -> Value {
        decoded(self.words[h.number() as usize + at as usize], kind)
    }

    fn write(&mut self, h: Handle, at: u32, v: Value) {
        let index = h.number() as usize + at as usize;
        self.words[index] = code(v);
    }

    fn free(&mut self, h: Handle, size: u32) {
        let start = h.number() as usize;
        self.words[start] = self.heads[size as usize];
        self.heads[size as usize] = code(Value::Cell(h));
    }

    fn slots(&self) -> u64 {
        self.count
    }
}
