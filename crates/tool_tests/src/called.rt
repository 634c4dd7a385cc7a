//! A sink that counts its calls.
use spark_base::{MemSink, Sink, SinkFault};
use std::alloc::{AllocError, Global};

/// It hands each call on to a sink in memory. How often it was called no clause says.
#[derive(Drop)]
pub(crate) struct Called {
    inner: MemSink,
    calls: u64,
}

impl Called {
    /// An empty sink, whose call with this number fails.
    pub(crate) fn new(alloc: Global, fails: u64) -> Result<Called, AllocError> {
        Ok(Called {
            inner: MemSink::new(alloc, Vec::from_slice(alloc, &[fails])?),
            calls: 0,
        })
    }

    /// All bytes that were appended so far.
    pub(crate) fn bytes(&self) -> &[u8] {
        self.inner.bytes()
    }

    /// How often it was called.
    pub(crate) fn calls(&self) -> u64 {
        self.calls
    }
}

impl Sink for Called {
    ghost use Rattle.std.specs.Prelude.{Some};
    ghost use Rattle.spark_base.specs.MemSinks as mem;

    ghost written = { λ sink. Some (mem.sink_bytes sink.inner) };

    ghost faults = { λ sink. (mem.sink_plan sink.inner).faults };

    fn write(&mut self, piece: &[u8]) -> Result<(), SinkFault> {
        self.calls = self.calls.saturating_add(1);
        self.inner.write(piece)
    }
}
