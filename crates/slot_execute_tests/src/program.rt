//! Runs of one source over both stores, with sinks in memory.
ghost use Rattle.std.specs.Prelude.{◌≤◌, length, IsSome};
ghost use Rattle.slot_heap.specs.Heaps.{no_heap};

use ada_lexer::lex;
use ada_parser::parse;
use name_resolve::resolve;
use path_check::{AcceptedProgram, Verdict};
use program_check::{Checked, check_files};
use run_results::{ExecFault, Ran};
use slot_execute::execute;
use slot_heap::{ReuseStore, Store};
use spark_base::{MemSink, SOURCE_BYTES, TOKENS};
use std::alloc::{AllocError, Global};
use std::test::Fail;
use word_heap::WordStore;

/// The most bytes of an input, and the most steps.
const INPUT: usize = 16_777_216;

const STEPS: u64 = 4_294_967_296;

/// The number of a call that fails, of the first output and of the second.
pub(crate) type Faults = (u64, u64);

/// No call has so large a number.
pub(crate) const NONE: u64 = 1_000_000;

pub(crate) const NO_FAULTS: Faults = (NONE, NONE);

/// What a run wrote, what it gave, and how many slots it left.
#[derive(Drop)]
pub(crate) struct Response {
    out: MemSink,
    err: MemSink,
    ran: Result<Ran, ExecFault>,
    slots: u64,
}

impl Response {
    /// Whether it wrote these texts, and gave this with so many slots.
    pub(crate) fn is(&self, out: &str, err: &str, ran: Result<Ran, ExecFault>, slots: u64) -> bool {
        self.out.bytes() == out.as_bytes()
            && self.err.bytes() == err.as_bytes()
            && self.ran == ran
            && self.slots == slots
    }

    /// Whether it is as another one.
    fn same(&self, other: &Response) -> bool {
        self.out.bytes() == other.out.bytes()
            && self.err.bytes() == other.err.bytes()
            && self.ran == other.ran
            && self.slots == other.slots
    }
}

/// The program of one file, where it is accepted.
fn accepted(alloc: Global, text: &str) -> Result<Option<AcceptedProgram>, AllocError> {
    if text.len() > SOURCE_BYTES {
        return Ok(None);
    }
    let Ok(tokens) = lex(alloc, 0, text.as_bytes(), TOKENS) else {
        return Ok(None);
    };
    let Ok(trees) = parse(alloc, &tokens) else {
        return Ok(None);
    };
    let mut files = Vec::new(alloc);
    files.push(trees)?;
    let mut names = Vec::new(alloc);
    names.push(String::from_str(alloc, "m.adb")?)?;
    let Ok(resolved) = resolve(alloc, names, files) else {
        return Ok(None);
    };
    let Ok(checked) = check_files(alloc, resolved) else {
        return Ok(None);
    };
    let Checked { verdict, .. } = checked;
    match verdict {
        Verdict::Accepted(program) => Ok(Some(program)),
        Verdict::Rejected { .. } => Ok(None),
    }
}

/// A sink whose call with this number fails.
fn sink(alloc: Global, fails: u64) -> Result<MemSink, AllocError> {
    Ok(MemSink::new(alloc, Vec::from_slice(alloc, &[fails])?))
}

/// Runs a program over a store.
fn run_over<R: Store>(
    alloc: Global,
    program: &AcceptedProgram,
    store: &mut R,
    input: &[u8],
    steps: u64,
    faults: Faults,
) -> Result<Response, AllocError>
    requires main { IsSome program.now.laid.main }
    requires store { R.Means store.old no_heap }
    requires steps { steps ≤ 4294967296 }
    requires input { length input.now ≤ 16777216 }
{
    let mut out = sink(alloc, faults.0)?;
    let mut err = sink(alloc, faults.1)?;
    let ran = execute(alloc, program, store, input, steps, &mut out, &mut err);
    let slots = store.slots();
    Ok(Response {
        out,
        err,
        ran,
        slots,
    })
}

/// Runs a program over both stores, where it has a main procedure and the input and the steps are
/// within the limits.
pub(crate) fn run(
    alloc: Global,
    text: &str,
    input: &str,
    steps: u64,
    faults: Faults,
) -> Result<Response, Fail> {
    let Some(program) = accepted(alloc, text)? else {
        return Err(Fail::new("not accepted"));
    };
    if program.laid().main.is_none() || input.len() > INPUT || steps > STEPS {
        return Err(Fail::new("no run"));
    }
    let bytes = input.as_bytes();
    let mut values = ReuseStore::new(alloc);
    let over_values = run_over(alloc, &program, &mut values, bytes, steps, faults)?;
    let mut words = WordStore::new(alloc);
    let over_words = run_over(alloc, &program, &mut words, bytes, steps, faults)?;
    if !over_values.same(&over_words) {
        return Err(Fail::new("the stores differ"));
    }
    Ok(over_words)
}
