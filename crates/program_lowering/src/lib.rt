//! From programs that are laid out to programs as they are run, in rows.
//!
//! `lower` takes a `Laid` program and gives `Codes`: the points of all subprograms, each with what
//! it does, the types of the values that it takes and the numbers of the points that follow it; and
//! of each subprogram its first point, its words and what its frame has. They stand for the program
//! that `lowered_program` of `run_codes` makes (`specs/Programs.antt` there). The one error is
//! `Memory`: there is too little of it; or the program isn't typed, or it has more points or larger
//! numbers than rows have room for.
//! Time and memory are linear in the points and in the trees that they name, but that each start and
//! each turn of a `for` loop looks through the objects of its frame.
#![tactic(auto)]

mod actuals;
mod around;
mod body;
mod branches;
mod choices;
mod does;
mod ends;
mod expressions;
mod following;
mod loops;
mod points;
mod program;
mod ranges;
mod stores;
mod taken;
mod texts;
mod trees;

pub use program::{LowerFault, lower};
