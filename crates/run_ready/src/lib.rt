//! From programs that are laid out to programs that may be run.
//!
//! `lower_ready` lowers a `Laid` program as `lower` of `program_lowering` does, and gives it only
//! where what the laws on runs ask of a program holds: `HasTypes` and `HasFrames` of `run_points`.
//! That it holds of the program of texts follows from where identifiers stand, by laws that stand
//! far above this crate (`accepted_runs`). So it is tested here: that no type has itself in it (by
//! ranks, `specs/TableLaws/Ranks.antt` of `settled_types`), that formals are different and belong to no package,
//! and that what is called has points (`specs/Tests.antt`). `is_ready` tells whether a program
//! passes: for one that does (`IsReady`) it says so, unless there is too little memory. A program
//! that fails a test gives `Memory`.
//! Time and memory are linear in the table of types and in the points.
#![tactic(auto)]

mod frames;
mod ready;
mod types;

pub use ready::{is_ready, lower_ready};
