//! Runs of the tool over the outside in memory.
ghost use Rattle.std.specs.Prelude.{◌≡◌, IfOk, map, string_bytes};
ghost use Rattle.slot_heap.specs.Heaps.{no_heap};

use crate::called::Called;
use slot_heap::Store;
use spark_base::{MemFiles, MemSource};
use spark_tool::run_tool;
use std::alloc::{AllocError, Global};
use word_heap::WordStore;

/// The number of a call that fails, of the files, of the first output and of the second.
pub(crate) type Faults = (u64, u64, u64);

/// No call has so large a number.
pub(crate) const NONE: u64 = 1_000_000;

pub(crate) const NO_FAULTS: Faults = (NONE, NONE, NONE);

/// How the tool responded: its status, and what it wrote to both outputs.
#[derive(Drop)]
pub(crate) struct Response {
    pub(crate) out: Called,
    pub(crate) err: Called,
    pub(crate) status: u8,
}

impl Response {
    /// Whether these texts were written and this was answered.
    pub(crate) fn is(&self, out: &str, err: &str, status: u8) -> bool {
        self.status == status
            && self.out.bytes() == out.as_bytes()
            && self.err.bytes() == err.as_bytes()
    }
}

/// The words of a line, with a blank between two.
pub(crate) fn words_of(alloc: Global, line: &str) -> Result<Vec<String>, AllocError> {
    let mut words = Vec::new(alloc);
    for word in line.split(' ') {
        words.push(String::from_str(alloc, word)?)?;
    }
    Ok(words)
}

fn copied(alloc: Global, words: &[String]) -> Result<Vec<String>, AllocError>
    ensures { IfOk result (λ copies. map string_bytes copies.items ≡ map string_bytes words.now) }
{
    let mut copies = Vec::new(alloc);
    'words: for word in words {
        copies.push(word.clone()?)?;
    }
    Ok(copies)
}

/// What the words do over these files, without input.
pub(crate) fn run(
    alloc: Global,
    words: &[String],
    stored: Vec<(String, Vec<u8>)>,
    faults: Faults,
) -> Result<Response, AllocError> {
    let mut input = MemSource::new(Vec::new(alloc), Vec::new(alloc));
    run_on(alloc, words, stored, &mut input, faults)
}

/// What the words do over these files and this input.
pub(crate) fn run_on(
    alloc: Global,
    words: &[String],
    stored: Vec<(String, Vec<u8>)>,
    input: &mut MemSource,
    faults: Faults,
) -> Result<Response, AllocError> {
    let mut store = WordStore::new(alloc);
    run_over(alloc, words, stored, input, &mut store, faults)
}

/// What they do with the cells of a run in this store.
pub(crate) fn run_over<R: Store>(
    alloc: Global,
    words: &[String],
    stored: Vec<(String, Vec<u8>)>,
    input: &mut MemSource,
    store: &mut R,
    faults: Faults,
) -> Result<Response, AllocError>
    requires { R.Means store.old no_heap }
{
    let mut out = Called::new(alloc, faults.1)?;
    let mut err = Called::new(alloc, faults.2)?;
    let fails = Vec::from_slice(alloc, &[faults.0])?;
    let mut files = MemFiles::new(copied(alloc, words)?, stored, fails);
    let status = run_tool(alloc, words, &mut files, input, store, &mut out, &mut err);
    Ok(Response { out, err, status })
}

/// What the words of a line do over files `f.adb` and `g.adb`, of which the second may be missing.
pub(crate) fn run_line(
    alloc: Global,
    line: &str,
    first: Vec<u8>,
    second: Option<Vec<u8>>,
    faults: Faults,
) -> Result<Response, AllocError> {
    let mut stored = vec![in alloc; (String::from_str(alloc, "f.adb")?, first)]?;
    if let Some(second) = second {
        stored.push((String::from_str(alloc, "g.adb")?, second))?;
    }
    let words = words_of(alloc, line)?;
    run(alloc, &words, stored, faults)
}

/// What `check f.adb` does, or `check f.adb g.adb` where there is a second text.
pub(crate) fn check(
    alloc: Global,
    first: Vec<u8>,
    second: Option<Vec<u8>>,
    faults: Faults,
) -> Result<Response, AllocError> {
    let line = match second {
        Some(_) => "check f.adb g.adb",
        None => "check f.adb",
    };
    run_line(alloc, line, first, second, faults)
}

/// So many copies of a piece between a front and a back.
pub(crate) fn repeated(
    alloc: Global,
    front: &str,
    piece: &str,
    count: usize,
    back: &str,
) -> Result<Vec<u8>, AllocError> {
    let mut text = Vec::from_slice(alloc, front.as_bytes())?;
    for _copy in 0..count {
        text.extend_from_slice(piece.as_bytes())?;
    }
    text.extend_from_slice(back.as_bytes())?;
    Ok(text)
}

/// The nine-line program with another line 8.
pub(crate) fn with_line(alloc: Global, line: &str) -> Result<Vec<u8>, AllocError> {
    repeated(alloc, HEAD, line, 1, "\nend Main;\n")
}

const HEAD: &str = "with Ada.Unchecked_Deallocation;
procedure Main is
type Int_Ptr is access Integer;
procedure Free is new Ada.Unchecked_Deallocation (Integer, Int_Ptr);
X, Y : Int_Ptr;
N : Integer;
begin
";
