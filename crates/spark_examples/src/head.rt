//! The head of an example: the command, and everything that is expected of it.
ghost use Rattle.std.specs.Prelude.{◌≡◌, ◌≢◌, ◌++◌, [], ◌∷◌, ℕ, List, IfSome, OnOk, MatchOption};
ghost use Rattle.spark_examples.specs.Heads.{HasValue};

use std::alloc::{AllocError, AllocFailed, Global};
use std::str;

/// What the head of an example says. A line of the head that begins with `--> ` is an entry, as
/// `--> status 1`.
#[derive(Drop)]
pub(crate) struct Head {
    /// `--> spark WORD WORD ..`: the words after the program's name, with a blank between two.
    pub(crate) words: Vec<String>,
    /// `--> status NUMBER`: the status with which the program ends.
    pub(crate) status: u8,
    /// `--> in LINE`, one for each line: the bytes of standard input.
    pub(crate) input: Vec<u8>,
    /// `--> out LINE`, one for each line: the bytes of standard output.
    pub(crate) out: Vec<u8>,
    /// `--> err LINE`, one for each line: the bytes of standard error.
    pub(crate) err: Vec<u8>,
}

/// Why a head tells no example.
#[derive(Clone, Copy, PartialEq, Eq)]
pub(crate) enum HeadFault {
    /// An entry of another form, as `--> outs accepted`, `--> status many`, or a word that isn't
    /// UTF-8.
    BadEntry,
    /// No command or no status, as in an empty file.
    Missing,
    /// Out of memory.
    Memory,
}

impl From<AllocError> for HeadFault {
    fn from(_: AllocError) -> Self {
        HeadFault::Memory
    }
}

impl<T: Drop> From<AllocFailed<T>> for HeadFault {
    fn from(_: AllocFailed<T>) -> Self {
        HeadFault::Memory
    }
}

/// What stands after a front, where the bytes begin with it.
pub(crate) fn behind<'t>(bytes: &'t [u8], front: &[u8]) -> Option<&'t [u8]>
    ensures { MatchOption result ((rest : List ℕ) → bytes.now ≢ front.now ++ rest) (λ rest. bytes.now ≡ front.now ++ rest.now) }
{
    bytes.strip_prefix(front)
}

/// What stands after a key and a blank. It is empty where the key stands alone.
fn value_of<'t>(entry: &'t [u8], key: &[u8]) -> Option<&'t [u8]>
    ensures { IfSome result (λ value. HasValue entry.now key.now value.now) }
{
    let rest = behind(entry, key)?;
    if rest.is_empty() {
        Some(rest)
    } else {
        behind(rest, b" ")
    }
}

/// Adds a line and its line feed.
pub(crate) fn add_line(text: &mut Vec<u8>, line: &[u8]) -> Result<(), AllocError>
    ensures { OnOk result (text.new.items ≡ text.old.items ++ line.now ++ 10 ∷ []) }
{
    text.extend_from_slice(line)?;
    text.push(b'\n')?;
    Ok(())
}

/// The words of a command, with a blank between two.
pub(crate) fn words_of(alloc: Global, command: &[u8]) -> Result<Vec<String>, HeadFault> {
    let mut words = Vec::new(alloc);
    if command.is_empty() {
        return Ok(words);
    }
    'words: for word in command.split(|byte| *byte == b' ') {
        let Ok(word) = str::from_utf8(word) else {
            return Err(HeadFault::BadEntry);
        };
        words.push(String::from_str(alloc, word)?)?;
    }
    Ok(words)
}

/// A status in decimal.
fn status_of(number: &[u8]) -> Option<u8> {
    str::from_utf8(number).ok()?.parse::<u8>().ok()
}

/// What was found of a head so far.
#[derive(Drop)]
struct Draft {
    alloc: Global,
    words: Option<Vec<String>>,
    status: Option<u8>,
    input: Vec<u8>,
    out: Vec<u8>,
    err: Vec<u8>,
}

impl Draft {
    /// Nothing was found yet.
    fn new(alloc: Global) -> Draft {
        Draft {
            alloc,
            words: None,
            status: None,
            input: Vec::new(alloc),
            out: Vec::new(alloc),
            err: Vec::new(alloc),
        }
    }

    /// Takes an entry, without the arrow before it.
    fn take(&mut self, entry: &[u8]) -> Result<(), HeadFault> {
        if let Some(command) = value_of(entry, b"spark") {
            self.words = Some(words_of(self.alloc, command)?);
        } else if let Some(number) = value_of(entry, b"status") {
            self.status = Some(status_of(number).ok_or(HeadFault::BadEntry)?);
        } else if let Some(line) = value_of(entry, b"in") {
            add_line(&mut self.input, line)?;
        } else if let Some(line) = value_of(entry, b"out") {
            add_line(&mut self.out, line)?;
        } else if let Some(line) = value_of(entry, b"err") {
            add_line(&mut self.err, line)?;
        } else {
            return Err(HeadFault::BadEntry);
        }
        Ok(())
    }

    /// The head, where it has a command and a status.
    fn finish(self) -> Result<Head, HeadFault> {
        let Draft {
            alloc: _,
            words,
            status,
            input,
            out,
            err,
        } = self;
        match (words, status) {
            (Some(words), Some(status)) => Ok(Head {
                words,
                status,
                input,
                out,
                err,
            }),
            _ => Err(HeadFault::Missing),
        }
    }
}

/// Reads the head of an example: the comments before the first line that is no comment.
pub(crate) fn read_head(alloc: Global, text: &[u8]) -> Result<Head, HeadFault> {
    let mut draft = Draft::new(alloc);
    'lines: for line in text.split(|byte| *byte == b'\n') {
        let line = line.strip_suffix(b"\r").unwrap_or(line);
        if !line.starts_with(b"--") {
            break;
        }
        if let Some(entry) = behind(line, b"--> ") {
            draft.take(entry)?;
        }
    }
    draft.finish()
}
