//! The package objects, and Ada.Text_IO, that each subprogram reads and writes.
//!
//! `effects` takes a program that is laid out and gives for each subprogram the numbers of the
//! objects that it or what it calls reads, and those that it writes, each list in ascending order
//! (`flow_paths/specs/Effects.antt`; `docs/FLOW.md`, "Effects"). Each object spreads from the
//! subprograms that use it in their own text to their callers, by a worklist that takes each
//! subprogram once. That it comes to exactly those which lead to a use by some chain of calls
//! follows from the laws of labels on a graph (`label_flow`).
//! The only error is out of memory. More objects than a `u32` has numbers for count as that.
//! Time is linear in the program, in its objects, and in the number of pairs of a
//! call and an object that its callee uses: no pair of a subprogram and an object is taken twice.
#![tactic(auto)]

mod lists;
mod rows;
mod spread;
mod uses;

pub use lists::effects;
