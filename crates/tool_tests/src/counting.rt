//! A store that counts its reads.
ghost use Rattle.slot_heap.specs.Heaps.{no_heap};

use run_values::{Handle, Kind, Value};
use slot_heap::Store;
use std::alloc::AllocError;
use std::cell::Cell;

/// It hands each call on to another store. How often it was read no clause says.
#[derive(Drop)]
pub(crate) struct Counting<R> {
    inner: R,
    reads: Cell<u64>,
}

impl<R: Store> Counting<R> {
    /// Over a store without cells and slots; none was read yet.
    pub(crate) fn new(inner: R) -> Counting<R>
        requires { R.Means inner no_heap }
        ensures { R.Means result.inner no_heap }
    {
        Counting {
            inner,
            reads: Cell::new(0),
        }
    }

    /// How often it was read.
    pub(crate) fn reads(&self) -> u64 {
        self.reads.get()
    }
}

impl<R: Store> Store for Counting<R> {
    ghost Means = { λ store m. R.Means store.inner m };

    fn allocate(&mut self, kinds: &[Kind], words: &[i64]) -> Result<Handle, AllocError> {
        self.inner.allocate(kinds, words)
    }

    fn read(&self, h: Handle, at: u32, kind: Kind) -> Value {
        self.reads.set(self.reads.get().saturating_add(1));
        self.inner.read(h, at, kind)
    }

    fn write(&mut self, h: Handle, at: u32, v: Value) {
        self.inner.write(h, at, v);
    }

    fn free(&mut self, h: Handle, size: u32) {
        self.inner.free(h, size);
    }

    fn slots(&self) -> u64 {
        self.inner.slots()
    }
}
