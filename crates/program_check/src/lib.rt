//! From files whose names have a meaning to the verdict on their program.
//!
//! `check_program` takes `Resolved` files and makes their typed program, lays it out, and asks for
//! what its subprograms read and write, for what the rules on the text report, and for what the
//! rules on facts report over all control paths. It gives a `Verdict`: the program, where it has no
//! reports, or all of its reports, sorted and without repeats, with the names that they are printed
//! by. What is said of each answer, `specs/Answers.antt` states; `docs/TOOL.md`, "Order of work",
//! says it in words. A program that breaks a sentence on types, or else is beyond a limit, is
//! refused. `Steps` counts the states that are carried over control paths, at most E * (2 * F + 2)
//! for each subprogram with E successors and F facts; `check_files` counts on a ledger of its own,
//! and tells whether there is a main procedure too.
#![tactic(auto)]

mod check;
mod checked;
mod refusal;

pub use check::{check_files, check_program};
pub use checked::Checked;
pub use refusal::ProgramRefusal;
