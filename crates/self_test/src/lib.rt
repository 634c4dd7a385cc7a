//! Runs a made program to test what was built.
//!
//! `self_test` runs an accepted program with a main procedure: without input, in as many steps as any
//! run may take, with its cells in a store that it is handed, and with its output in memory. It gives
//! one line with the counts of the run (`specs/Summaries.antt`), however the run ends. Out of memory
//! is the one fault. Memory and time are those of the run.
#![tactic(auto)]

mod summary;

pub use run_command::{RunFault, run_program};
pub use summary::self_test;
