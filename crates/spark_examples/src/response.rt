//! How the tool responds to the command of an example or of a row, over files in memory.
ghost use Rattle.std.specs.Prelude.{◌≡◌, ◌↔◌, IsTrue, IfOk, map, string_bytes};
ghost use Rattle.spark_base.specs.MemSinks.{sink_bytes};

use crate::head::Head;
use spark_base::{MemFiles, MemSink, MemSource};
use spark_tool::run_tool;
use std::alloc::{AllocError, Global};
use word_heap::WordStore;

/// How the tool responded: its status, and what it wrote to both outputs.
#[derive(Drop)]
pub(crate) struct Response {
    pub(crate) status: u8,
    pub(crate) out: MemSink,
    pub(crate) err: MemSink,
}

impl Response {
    /// Whether the status and all bytes are those that the head says.
    pub(crate) fn is_as_expected(&self, head: &Head) -> bool
        ensures { IsTrue result ↔ ((self.now.status ≡ head.now.status)
            × (sink_bytes self.now.out ≡ head.now.out.items)
            × (sink_bytes self.now.err ≡ head.now.err.items)) }
    {
        self.status == head.status
            && self.out.bytes() == head.out.as_slice()
            && self.err.bytes() == head.err.as_slice()
    }
}

/// The same words once more.
fn copy_words(alloc: Global, words: &[String]) -> Result<Vec<String>, AllocError>
    ensures { IfOk result (λ copy. map string_bytes copy.items ≡ map string_bytes words.now) }
{
    let mut copy = Vec::new(alloc);
    'words: for word in words {
        copy.push(String::from_str(alloc, word.as_str())?)?;
    }
    Ok(copy)
}

/// Runs the command of a head, over these files.
pub(crate) fn response_to(
    alloc: Global,
    head: &Head,
    files: Vec<(String, Vec<u8>)>,
) -> Result<Response, AllocError> {
    let words = copy_words(alloc, &head.words)?;
    let mut stored = MemFiles::new(words, files, Vec::new(alloc));
    let mut input = MemSource::new(Vec::from_slice(alloc, &head.input)?, Vec::new(alloc));
    let mut out = MemSink::new(alloc, Vec::new(alloc));
    let mut err = MemSink::new(alloc, Vec::new(alloc));
    let mut cells = WordStore::new(alloc);
    let status = run_tool(
        alloc,
        &head.words,
        &mut stored,
        &mut input,
        &mut cells,
        &mut out,
        &mut err,
    );
    Ok(Response { status, out, err })
}
