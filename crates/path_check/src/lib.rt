//! Tells whether a program that is laid out is accepted, or all of its reports.
//!
//! `check_paths` takes a `Laid` program, what its subprograms read and write, and what the rules on
//! the text report of it. It adds the reports of the rules on facts, over all control paths of each
//! subprogram, and gives a `Verdict`: an `AcceptedProgram`, which keeps that it has no reports, or
//! the list of exactly its reports, sorted and without repeats (`specs/Verdicts.antt`;
//! `docs/RULES.md`, "Reports"). A program that is rejected keeps the names by which its reports are
//! printed.
//! The only error is out of memory. `Steps` counts the states that are carried, at most
//! `E * (2 * F + 2)` for each subprogram with E successors and F facts.
#![tactic(auto)]

mod accepted;
mod check;
mod verdict;

pub use accepted::AcceptedProgram;
pub use check::check_paths;
pub use verdict::Verdict;
