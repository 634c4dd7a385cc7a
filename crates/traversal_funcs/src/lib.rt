//! What the rules on constant views, observers, borrowers and traversal functions report of a
//! program: V1 to V4.
//!
//! `view_reports` takes a program that is laid out and its effects, and gives the reports of the
//! rules that look at the text without paths, in the order of the text and with repeats
//! (`docs/FLOW.md`, "Views"; `ViewReport` of `flow_paths`). V1 and V3 ask for the roots of
//! borrowers and observers. No list of roots is made: a few questions are asked of them, and each
//! is answered for all objects of a subprogram at once, by a worklist over the sources
//! (`specs/Searches.antt`). The only error is out of memory. Time is linear in the acts of a
//! subprogram and in what the procedures write that it calls; an assignment to an observer costs
//! the path outwards from its scope, too.
#![tactic(auto)]

mod holders;
mod instructions;
mod lending;
mod program;
mod questions;
mod reports;
mod roots;
mod scopes;
mod views;

pub use program::view_reports;
