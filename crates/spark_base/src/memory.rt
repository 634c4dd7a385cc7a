//! The outside in memory: sources, sinks and files whose bytes a contract knows.
ghost use Rattle.std.specs.Prelude.{◌≡◌, ◌≢◌, ◌≤◌, ◌<◌, ◌+◌, ◌^◌, ◌++◌, ◌↔◌, [], Bool, ℕ, List, Option, None, Some, Ok, Err, IsTrue, IsErr, IfOk, OnOk, OnErr, length, take, drop, map, string_bytes};
ghost use Rattle.std.specs.Io.KnownBytes.{Appends, Consumes, IsAtEnd, Keeps};
ghost use Rattle.spark_base.specs.Outside.{Rose, AppendsPrefix, Lacks, Opens, file_bytes};
ghost use Rattle.spark_base.specs.Words.{operands};
ghost use Rattle.spark_base.specs.Memory as spec;

use crate::outside::{Failed, FileStore, OpenFault, Sink, SinkFault, Source};
use std::alloc::{AllocError, Global};

impl From<AllocError> for SinkFault {
    ghost use Rattle.spark_base.specs.declared.outside.SinkFault.TheVariants.{Memory};

    ghost from_gives = { λ _ fault. fault ≡ Memory };

    fn from(_: AllocError) -> Self {
        SinkFault::Memory
    }
}

/// Which calls of an object in memory fail, by their numbers from 0, and how many have failed.
#[derive(Drop)]
pub(crate) struct FaultPlan {
    pub(crate) fails: Vec<u64>,
    /// The number of the next call; none where it is past the last number that a list can have.
    pub(crate) next: Option<u64>,
    pub(crate) faults: u64,
}

impl FaultPlan {
    pub(crate) fn new(fails: Vec<u64>) -> FaultPlan
        ensures { spec.IsFresh result fails.items }
    {
        FaultPlan {
            fails,
            next: Some(0),
            faults: 0,
        }
    }

    /// Counts a call, and says whether it fails.
    pub(crate) fn fails_now(&mut self) -> bool
        ensures answer { result ≡ spec.fails_now self.old }
        ensures counted { spec.Counts self.old self.new }
        ensures later { self.old.faults ≤ self.new.faults }
    {
        let fails = match self.next {
            Some(number) => self.fails.contains(&number),
            None => false,
        };
        self.next = match self.next {
            Some(number) => number.checked_add(1),
            None => None,
        };
        if fails {
            self.faults = self.faults.saturating_add(1);
        }
        fails
    }
}

/// Copies the bytes from an index on into a buffer, as many as fit, and says how many.
pub(crate) fn copy_from(bytes: &[u8], at: usize, buf: &mut [u8]) -> usize
    ensures within { result ≤ length buf.new }
    ensures copied { drop at bytes.now ≡ take result buf.new ++ drop (at + result) bytes.now }
    ensures end { result ≡ 0 → 0 < length buf.old → drop at bytes.now ≡ [] }
    ensures fits { at + result < 2 ^ 64 }
{
    let Some(rest) = bytes.get(at..) else {
        return 0;
    };
    let count = rest.len().min(buf.len());
    buf[..count].copy_from_slice(&rest[..count]);
    count
}

/// A source over bytes in memory. A call whose number, from 0, is in a list fails.
#[derive(Drop)]
pub struct MemSource {
    bytes: Vec<u8>,
    at: usize,
    plan: FaultPlan,
}

impl MemSource {
    ghost use Rattle.spark_base.specs.MemSources as mem;

    /// A source with these bytes left, whose calls with these numbers fail. It takes no memory.
    pub fn new(bytes: Vec<u8>, fails: Vec<u64>) -> MemSource
        ensures left { mem.source_left result ≡ bytes.items }
        ensures plan { spec.IsFresh (mem.source_plan result) fails.items }
    {
        MemSource {
            bytes,
            at: 0,
            plan: FaultPlan::new(fails),
        }
    }
}

impl Source for MemSource {
    ghost use Rattle.std.specs.Prelude.{Some};
    ghost use Rattle.spark_base.specs.MemSources as mem;

    ghost left = { λ source. Some (mem.source_left source) };

    ghost faults = { λ source. (mem.source_plan source).faults };

    fn read(&mut self, buf: &mut [u8]) -> Result<usize, Failed>
        requires { 0 < length buf.old }
        ensures within { IfOk result (λ count. count ≤ length buf.new) }
        ensures bytes { IfOk result (λ count. mem.source_left self.old ≡ take count buf.new ++ mem.source_left self.new) }
        ensures end { IfOk result (λ count. count ≡ 0 → mem.source_left self.old ≡ []) }
        ensures unchanged { OnErr result (mem.source_left self.new ≡ mem.source_left self.old) }
        ensures later { (mem.source_plan self.old).faults ≤ (mem.source_plan self.new).faults }
        ensures cause { OnErr result (Rose (mem.source_plan self.old).faults (mem.source_plan self.new).faults) }
        ensures no_fault { OnOk result ((mem.source_plan self.new).faults ≡ (mem.source_plan self.old).faults) }

        // It fails exactly where the number of the call is in the list.
        ensures exact { IsErr result ↔ IsTrue (spec.fails_now (mem.source_plan self.old)) }
        ensures counted { spec.Counts (mem.source_plan self.old) (mem.source_plan self.new) }
    {
        if self.plan.fails_now() {
            return Err(Failed);
        }
        let count = copy_from(&self.bytes, self.at, buf);
        self.at += count;
        Ok(count)
    }
}

/// A sink that keeps its bytes in memory. A call whose number, from 0, is in a list fails and
/// appends nothing.
#[derive(Drop)]
pub struct MemSink {
    bytes: Vec<u8>,
    plan: FaultPlan,
}

impl MemSink {
    ghost use Rattle.spark_base.specs.MemSinks as mem;

    /// An empty sink, whose calls with these numbers fail. It takes no memory.
    pub fn new(alloc: Global, fails: Vec<u64>) -> MemSink
        ensures bytes { mem.sink_bytes result ≡ [] }
        ensures plan { spec.IsFresh (mem.sink_plan result) fails.items }
    {
        MemSink {
            bytes: Vec::new(alloc),
            plan: FaultPlan::new(fails),
        }
    }

    /// All bytes that were appended so far.
    pub fn bytes(&self) -> &[u8]
        ensures { result.now ≡ mem.sink_bytes self.now }
    {
        &self.bytes
    }
}

impl Sink for MemSink {
    ghost use Rattle.std.specs.Prelude.{Some};
    ghost use Rattle.spark_base.specs.MemSinks as mem;

    ghost written = { λ sink. Some (mem.sink_bytes sink) };

    ghost faults = { λ sink. (mem.sink_plan sink).faults };

    fn write(&mut self, piece: &[u8]) -> Result<(), SinkFault>
        requires { 0 < length piece.now }
        ensures ok { OnOk result (mem.sink_bytes self.new ≡ mem.sink_bytes self.old ++ piece.now) }
        ensures failed { result ≡ Err SinkFault.Failed → AppendsPrefix (Some (mem.sink_bytes self.old)) (Some (mem.sink_bytes self.new)) piece.now }
        ensures memory { result ≡ Err SinkFault.Memory → mem.sink_bytes self.new ≡ mem.sink_bytes self.old }
        ensures later { (mem.sink_plan self.old).faults ≤ (mem.sink_plan self.new).faults }
        ensures cause { result ≡ Err SinkFault.Failed → Rose (mem.sink_plan self.old).faults (mem.sink_plan self.new).faults }
        ensures no_fault { OnOk result ((mem.sink_plan self.new).faults ≡ (mem.sink_plan self.old).faults) }
        ensures no_fault_for_memory { result ≡ Err SinkFault.Memory → (mem.sink_plan self.new).faults ≡ (mem.sink_plan self.old).faults }

        // It fails exactly where the number of the call is in the list.
        ensures exact { (result ≡ Err SinkFault.Failed) ↔ IsTrue (spec.fails_now (mem.sink_plan self.old)) }
        ensures counted { spec.Counts (mem.sink_plan self.old) (mem.sink_plan self.new) }
    {
        if self.plan.fails_now() {
            return Err(SinkFault::Failed);
        }
        self.bytes.extend_from_slice(piece)?;
        Ok(())
    }
}

/// A sink that keeps its bytes in memory and never fails.
#[derive(Drop)]
pub struct PlainSink {
    bytes: Vec<u8>,
}

impl PlainSink {
    ghost use Rattle.spark_base.specs.MemSinks as mem;

    /// An empty sink. It takes no memory.
    pub fn new(alloc: Global) -> PlainSink
        ensures { mem.plain_bytes result ≡ [] }
    {
        PlainSink {
            bytes: Vec::new(alloc),
        }
    }

    /// All bytes that were appended so far.
    pub fn bytes(&self) -> &[u8]
        ensures { result.now ≡ mem.plain_bytes self.now }
    {
        &self.bytes
    }
}

impl Sink for PlainSink {
    ghost use Rattle.std.specs.Prelude.{Some};
    ghost use Rattle.spark_base.specs.MemSinks as mem;

    ghost written = { λ sink. Some (mem.plain_bytes sink) };

    ghost faults = { λ _. 0 };

    fn write(&mut self, piece: &[u8]) -> Result<(), SinkFault>
        requires { 0 < length piece.now }
        ensures ok { OnOk result (mem.plain_bytes self.new ≡ mem.plain_bytes self.old ++ piece.now) }
        ensures never_failed { result ≢ Err SinkFault.Failed }
        ensures memory { OnErr result (mem.plain_bytes self.new ≡ mem.plain_bytes self.old) }
    {
        self.bytes.extend_from_slice(piece)?;
        Ok(())
    }
}
