//! Runs of programs over any heap that uses its slots again, by the machine.
//!
//! `run_started` makes the steps of a run that stands at the start of a lowered program, and
//! `run_unfit` answers the run of one whose first frames are too large. What both answer is the run
//! of the machine (`specs/Executes.antt`): they ask that whatever the heap chooses, a run gives
//! what the machine's run gives, or memory is wanted, which is a law of what `check` accepts
//! (`accepted_runs`).
#![tactic(auto)]

mod started;
mod unfit;

pub use started::run_started;
pub use unfit::run_unfit;
