//! Runs an accepted program on the input, and writes what comes of it.
//!
//! `run_program` takes an accepted program with a main procedure, a budget of steps, whether the
//! counts of the run are asked for, the input, a store for the cells of the run and the two outputs,
//! and gives a status. It reads the input to its end first. What it writes and answers,
//! `specs/Runs.antt` defines over the definition of a run, and what it leaves in the store
//! `specs/Stores.antt`; `docs/RUN.md` says it in words.
//! An input that is too large is refused with a status of its own. Errors are a read that failed, a
//! write that failed and out of memory; after these the outputs may hold a part of what the run
//! writes. Memory is that of the input and of the run.
#![tactic(auto)]

mod ending;
mod fault;
mod input;
mod run;
mod stats;

pub use ending::{ending_line, ending_status};
pub use fault::RunFault;
pub use input::read_input;
pub use run::run_program;
pub use run_results::{Ending, Ran};
pub use slot_execute::execute;
pub use stats::counts_line;
