//! Runs of programs in rows, over any heap that uses its slots again.
//!
//! `Run` is what is kept of a run between two steps, a `Stepping` of `slot_runs`: a program in rows,
//! its table of types, the parts that its steps change, and how it ended. Its next step finds the
//! point that the frame is at and the values that it takes, and does what the point does
//! (`slot_steps`). Most steps are at points that take no values, and store one word at most or may
//! have leak checks: the loop of steps makes these without a call. A step that raises leaves the
//! output and the leaks as they were; the cells that it made are given up.
#![tactic(auto)]

mod free;
mod run;
mod turns;

pub use run::Run;
