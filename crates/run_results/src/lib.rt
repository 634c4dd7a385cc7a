//! What a run gives: how it ends and its counts, the lines of its leaks, and bytes that go to sinks
//! in pieces.
//!
//! `Ran` and `Ending` stand for what the definitions of a run give (`specs/Results.antt`).
//! `push_lines` adds the lines of failed leak checks to a text (`specs/Lines.antt`). `write_long`
//! hands bytes to a sink once there are 65,536 of them, and `write_all` all that are there.
#![tactic(auto)]

mod leak;
mod pieces;
mod ran;

pub use leak::{Leak, leak_line, push_lines};
pub use pieces::{write_all, write_long};
pub use ran::{Ending, ExecFault, Ran};
