//! Files in memory, whose bytes a contract knows.
ghost use Rattle.std.specs.Prelude.{◌≡◌, ◌≤◌, ◌<◌, ◌++◌, ◌↔◌, [], ℕ, List, Option, None, Some, Err, IsTrue, IsErr, IfOk, OnOk, OnErr, length, take, map, string_bytes, MatchOption};
ghost use Rattle.std.specs.Io.KnownBytes.{Consumes, IsAtEnd, Keeps};
ghost use Rattle.spark_base.specs.Lists.{Has};
ghost use Rattle.spark_base.specs.Outside.{Rose, Lacks, Opens, file_bytes};
ghost use Rattle.spark_base.specs.Words.{operands};
ghost use Rattle.spark_base.specs.Memory as spec;
ghost use Rattle.spark_base.specs.NamedFiles.{file_pairs, index_finds};

use crate::memory::{FaultPlan, copy_from};
use crate::outside::{Failed, FileStore, OpenFault};

/// The index of the first file with a name.
fn index_of(files: &[(String, Vec<u8>)], name: &str) -> Option<usize>
    ensures { index_finds files.now name.now result }
{
    'files: for (index, file) in files.iter().enumerate() {
        if file.0.as_str() == name {
            return Some(index);
        }
    }
    None
}

/// Files in memory. A call whose number, from 0 over all calls, is in a list fails.
#[derive(Drop)]
pub struct MemFiles {
    words: Vec<String>,
    files: Vec<(String, Vec<u8>)>,
    /// The index of the open file; past the last one where none is open.
    open: usize,
    at: usize,
    plan: FaultPlan,
}

impl MemFiles {
    ghost use Rattle.spark_base.specs.MemStores as mem;

    /// A store with these files, made for these words, whose calls with these numbers fail. Of two
    /// files with one name the first is opened. It takes no memory.
    pub fn new(words: Vec<String>, files: Vec<(String, Vec<u8>)>, fails: Vec<u64>) -> MemFiles
        ensures words { mem.store_words result ≡ map string_bytes words.items }
        ensures files { mem.store_files result ≡ file_pairs files.items }
        ensures closed { ¬ (IsTrue (mem.store_is_open result)) }
        ensures plan { spec.IsFresh (mem.store_plan result) fails.items }
    {
        let open = files.len();
        MemFiles {
            words,
            files,
            open,
            at: 0,
            plan: FaultPlan::new(fails),
        }
    }
}

impl FileStore for MemFiles {
    ghost use Rattle.std.specs.Prelude.{Some};
    ghost use Rattle.spark_base.specs.MemStores as mem;

    ghost words = { mem.store_words };

    ghost stored = { λ store. Some (mem.store_files store) };

    ghost is_open = { mem.store_is_open };

    ghost left = { λ store. Some (mem.store_left store) };

    ghost faults = { λ store. (mem.store_plan store).faults };

    fn open_file(&mut self, name: &str) -> Result<(), OpenFault>
        requires { Has (operands (mem.store_words self.old)) name.now }
        ensures ok { OnOk result (IsTrue (mem.store_is_open self.new)) }
        ensures bytes { OnOk result (file_bytes (mem.store_files self.old) name.now ≡ Some (mem.store_left self.new)) }
        ensures closed { OnErr result (¬ (IsTrue (mem.store_is_open self.new))) }
        ensures absent { result ≡ Err OpenFault.Absent → file_bytes (mem.store_files self.old) name.now ≡ None }
        ensures later { (mem.store_plan self.old).faults ≤ (mem.store_plan self.new).faults }
        ensures cause { result ≡ Err OpenFault.Failed → Rose (mem.store_plan self.old).faults (mem.store_plan self.new).faults }
        ensures no_fault { OnOk result ((mem.store_plan self.new).faults ≡ (mem.store_plan self.old).faults) }
        ensures no_fault_at_absent { result ≡ Err OpenFault.Absent → (mem.store_plan self.new).faults ≡ (mem.store_plan self.old).faults }
        ensures words { mem.store_words self.new ≡ mem.store_words self.old }
        ensures stored { mem.store_files self.new ≡ mem.store_files self.old }

        // It fails exactly where the number of the call is in the list.
        ensures exact { (result ≡ Err OpenFault.Failed) ↔ IsTrue (spec.fails_now (mem.store_plan self.old)) }
        ensures counted { spec.Counts (mem.store_plan self.old) (mem.store_plan self.new) }
    {
        self.open = self.files.len();
        if self.plan.fails_now() {
            return Err(OpenFault::Failed);
        }
        let Some(index) = index_of(&self.files, name) else {
            return Err(OpenFault::Absent);
        };
        self.open = index;
        self.at = 0;
        Ok(())
    }

    fn next(&mut self, buf: &mut [u8]) -> Result<usize, Failed>
        requires open { IsTrue (mem.store_is_open self.old) }
        requires room { 0 < length buf.old }
        ensures within { IfOk result (λ count. count ≤ length buf.new) }
        ensures bytes { IfOk result (λ count. mem.store_left self.old ≡ take count buf.new ++ mem.store_left self.new) }
        ensures end { IfOk result (λ count. count ≡ 0 → mem.store_left self.old ≡ []) }
        ensures unchanged { OnErr result (mem.store_left self.new ≡ mem.store_left self.old) }
        ensures still_open { mem.store_is_open self.new ≡ mem.store_is_open self.old }
        ensures later { (mem.store_plan self.old).faults ≤ (mem.store_plan self.new).faults }
        ensures cause { OnErr result (Rose (mem.store_plan self.old).faults (mem.store_plan self.new).faults) }
        ensures no_fault { OnOk result ((mem.store_plan self.new).faults ≡ (mem.store_plan self.old).faults) }
        ensures words { mem.store_words self.new ≡ mem.store_words self.old }
        ensures stored { mem.store_files self.new ≡ mem.store_files self.old }

        // It fails exactly where the number of the call is in the list.
        ensures exact { IsErr result ↔ IsTrue (spec.fails_now (mem.store_plan self.old)) }
        ensures counted { spec.Counts (mem.store_plan self.old) (mem.store_plan self.new) }
    {
        if self.plan.fails_now() {
            return Err(Failed);
        }
        let file = &self.files[self.open];
        let count = copy_from(&file.1, self.at, buf);
        self.at += count;
        Ok(count)
    }
}
