//! The sentences on expressions: where an expression isn't of the type that is demanded, or may not
//! stand.
//!
//! A `Checker` has the trees of a program, what is settled of its declarations and types, and where
//! an expression stands. Its methods take the first fault that was found so far, and give the first
//! one with those of an expression: of all faults the first in the text counts, so nothing stops at
//! one, and the order of tests is free. The definitions of `type_definitions` list all faults of an
//! expression; `docs/LANGUAGE.md`, "Types", says them in words (Ada 2012, 4 and 6.4). What an
//! argument by name is for is found with the indexes of what is settled. Memory is taken only for a
//! name in lower case, and for an index of the names of a list that has one for each of many
//! components or formals; there is an answer without it, too. Time is linear in the trees.
#![tactic(auto)]

mod actuals;
mod around;
mod checker;
mod inside;
mod readings;
mod sources;

pub use checker::Checker;
