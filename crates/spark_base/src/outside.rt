//! What the tool asks of the outside: a source of bytes, a sink for bytes and a store of files.
ghost use Rattle.std.specs.Prelude.{◌≡◌, ◌≤◌, ◌<◌, Bool, ℕ, List, Option, Err, IsTrue, IfOk, OnOk, OnErr, length, take};
ghost use Rattle.std.specs.Io.KnownBytes.{Appends, Consumes, IsAtEnd, Keeps};
ghost use Rattle.spark_base.specs.Lists.{Has};
ghost use Rattle.spark_base.specs.Outside.{Rose, AppendsPrefix, Lacks, Opens};
ghost use Rattle.spark_base.specs.Words.{operands};

use thiserror::Error;

/// A call on the outside failed.
#[derive(Clone, Copy, Debug, PartialEq, Eq, Error)]
#[error("the outside failed")]
pub struct Failed;

/// Why a write didn't end well.
#[derive(Clone, Copy, Debug, PartialEq, Eq, Error)]
pub enum SinkFault {
    /// The outside failed, as at a full disk.
    #[error("the write failed")]
    Failed,
    /// A sink in memory had no room left.
    #[error("out of memory")]
    Memory,
}

/// Why a file wasn't opened.
#[derive(Clone, Copy, Debug, PartialEq, Eq, Error)]
pub enum OpenFault {
    /// A store that tells its files doesn't have the name.
    #[error("no such file")]
    Absent,
    /// The outside failed. A store over real files says so of a missing file too.
    #[error("the file can't be opened")]
    Failed,
}

/// Bytes to read, as standard input.
pub trait Source {
    /// The bytes that are left, where the object tells them.
    ghost left: { Self → Option (List ℕ) };

    /// How often a call has failed. It is at most 2^64 - 1, and stays there.
    ghost faults: { Self → ℕ };

    /// Takes the next bytes, as many as it likes up to the size of `buf`; none only at the end.
    fn read(&mut self, buf: &mut [u8]) -> Result<usize, Failed>
        requires { 0 < length buf.old }
        ensures within { IfOk result (λ count. count ≤ length buf.new) }
        ensures bytes { IfOk result (λ count. Consumes (left self.old) (left self.new) (take count buf.new)) }
        ensures end { IfOk result (λ count. count ≡ 0 → IsAtEnd (left self.old)) }
        ensures unchanged { OnErr result (Keeps (left self.old) (left self.new)) }
        ensures later { faults self.old ≤ faults self.new }
        ensures cause { OnErr result (Rose (faults self.old) (faults self.new)) }
        ensures no_fault { OnOk result (faults self.new ≡ faults self.old) };
}

/// What takes bytes, as standard output.
pub trait Sink {
    /// The bytes that it holds, where the object tells them.
    ghost written: { Self → Option (List ℕ) };

    /// How often a call has failed. It is at most 2^64 - 1, and stays there.
    ghost faults: { Self → ℕ };

    /// Appends the whole piece. Where it fails, some bytes of the front may have been appended.
    fn write(&mut self, piece: &[u8]) -> Result<(), SinkFault>
        requires { 0 < length piece.now }
        ensures ok { OnOk result (Appends (written self.old) (written self.new) piece.now) }
        ensures failed { result ≡ Err SinkFault.Failed → AppendsPrefix (written self.old) (written self.new) piece.now }
        ensures memory { result ≡ Err SinkFault.Memory → Keeps (written self.old) (written self.new) }
        ensures later { faults self.old ≤ faults self.new }
        ensures cause { result ≡ Err SinkFault.Failed → Rose (faults self.old) (faults self.new) }
        ensures no_fault { OnOk result (faults self.new ≡ faults self.old) }
        ensures no_fault_for_memory { result ≡ Err SinkFault.Memory → faults self.new ≡ faults self.old };
}

/// Files by name; one at a time is open. A store is made for a list of words, and opens their
/// operands alone.
pub trait FileStore {
    /// The words that the store was made for.
    ghost words: { Self → List (List ℕ) };

    /// The files with their names, where the object tells them.
    ghost stored: { Self → Option (List (List ℕ × List ℕ)) };

    /// Whether a file is open.
    ghost is_open: { Self → Bool };

    /// What is left of the open file, where the object tells it.
    ghost left: { Self → Option (List ℕ) };

    /// How often a call has failed. It is at most 2^64 - 1, and stays there.
    ghost faults: { Self → ℕ };

    /// Opens the named file at its first byte, in place of the one before.
    fn open_file(&mut self, name: &str) -> Result<(), OpenFault>
        requires { Has (operands (words self.old)) name.now }
        ensures ok { OnOk result (IsTrue (is_open self.new)) }
        ensures bytes { OnOk result (Opens (stored self.old) name.now (left self.new)) }
        ensures closed { OnErr result (¬ (IsTrue (is_open self.new))) }
        ensures absent { result ≡ Err OpenFault.Absent → Lacks (stored self.old) name.now }
        ensures later { faults self.old ≤ faults self.new }
        ensures cause { result ≡ Err OpenFault.Failed → Rose (faults self.old) (faults self.new) }
        ensures no_fault { OnOk result (faults self.new ≡ faults self.old) }
        ensures no_fault_at_absent { result ≡ Err OpenFault.Absent → faults self.new ≡ faults self.old }
        ensures words { words self.new ≡ words self.old }
        ensures stored { stored self.new ≡ stored self.old };

    /// Takes the next bytes of the open file, as many as it likes up to the size of `buf`; none
    /// only at its end.
    fn next(&mut self, buf: &mut [u8]) -> Result<usize, Failed>
        requires open { IsTrue (is_open self.old) }
        requires room { 0 < length buf.old }
        ensures within { IfOk result (λ count. count ≤ length buf.new) }
        ensures bytes { IfOk result (λ count. Consumes (left self.old) (left self.new) (take count buf.new)) }
        ensures end { IfOk result (λ count. count ≡ 0 → IsAtEnd (left self.old)) }
        ensures unchanged { OnErr result (Keeps (left self.old) (left self.new)) }
        ensures still_open { is_open self.new ≡ is_open self.old }
        ensures later { faults self.old ≤ faults self.new }
        ensures cause { OnErr result (Rose (faults self.old) (faults self.new)) }
        ensures no_fault { OnOk result (faults self.new ≡ faults self.old) }
        ensures words { words self.new ≡ words self.old }
        ensures stored { stored self.new ≡ stored self.old };
}
