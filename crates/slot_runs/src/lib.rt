//! Whole runs over a heap that uses its slots again: steps within a budget, whose output and leak
//! lines are written.
//!
//! A run goes from step to step by a `Stepping`, which keeps what its last steps put out and which
//! of their leak checks failed until both are taken. `run_whole` makes the steps and writes both in
//! pieces and at the end; what it answers is what one of the outcomes gives that may come of the run
//! (`specs/Answers.antt`). Nothing but its buffers grows with the steps.
#![tactic(auto)]

mod going;
mod stepping;
mod told;
mod whole;

pub use stepping::{Stepping, Turn};
pub use whole::run_whole;
