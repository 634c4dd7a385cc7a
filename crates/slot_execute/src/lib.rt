//! Runs of accepted programs over any heap that uses its slots again.
//!
//! `execute` lowers an accepted program with a main procedure and runs it on an input, in so many
//! steps at most: its output goes to one sink and its leak lines to another one. What it answers is
//! the run of the machine (`machine`, specs/Run.antt; `specs/Executes.antt`), which is sound.
//! `Memory` is answered where there is too little memory.
#![tactic(auto)]

mod programs;
mod starts;

pub use programs::execute;
