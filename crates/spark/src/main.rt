//! The program `spark`: the tool over real files, standard input and the two outputs.
//!
//! `main` takes the words after the program's name, makes the real objects of `real_outside` and a
//! store without cells, calls `run_tool` and ends with its answer. Words that aren't UTF-8 are a usage
//! fault, as no words are.
#![tactic(auto)]

ghost use Rattle.spark_tool.specs.Promises.{IsStatus};

use real_outside::{Output, Reading, RealFiles, Writing};
use spark_tool::run_tool;
use std::io::{ErrorKind, Stderr, Stdout};
use std::process::ExitCode;
use std::{env, io};
use word_heap::WordStore;

/// The status where memory runs out (`docs/TOOL.md`, "Statuses").
const OUT_OF_MEMORY: u8 = 9;

/// The words after the program's name.
fn words_after_name(rt: &HostRuntime) -> io::Result<Vec<String>> {
    let mut words = Vec::new(rt.alloc());
    'words: for word in env::args(rt)?.skip(1) {
        words.push(word)?;
    }
    Ok(words)
}

/// An output of the process as a sink.
type Outgoing = Writing<Output<Stdout, Stderr>>;

/// Runs the tool on the real objects, with the cells of a run in one list of numbers.
fn run_really(rt: &HostRuntime, words: &[String]) -> u8
    ensures { IsStatus result }
{
    let mut files = RealFiles::new(rt, words);
    let mut input = Reading::new(rt.stdin());
    let mut out: Outgoing = Writing::new(Output::Out(rt.stdout()));
    let mut err: Outgoing = Writing::new(Output::Err(rt.stderr()));
    let mut store = WordStore::new(rt.alloc());
    run_tool(
        rt.alloc(),
        words,
        &mut files,
        &mut input,
        &mut store,
        &mut out,
        &mut err,
    )
}

fn main(rt: HostRuntime) -> ExitCode {
    let status = match words_after_name(&rt) {
        Ok(words) => run_really(&rt, &words),
        Err(error) if error.kind() == ErrorKind::OutOfMemory => OUT_OF_MEMORY,
        // A word isn't UTF-8. No words are a usage fault too.
        Err(_) => run_really(&rt, &[]),
    };
    ExitCode::from(status)
}
