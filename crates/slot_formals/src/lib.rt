//! What the formals of a call get, over the memory of a run whose heap uses its slots again.
//!
//! `begin_frame` puts the frame of a subprogram after the others: its formals get what is passed
//! (`formals`), what was moved so far is gone, leaks of `out` actuals are checked (`out_checks`), and
//! what the actuals move is gone, too (`moves`). What a place holds is read before anything is gone.
//! So nothing is put back for the checks.
#![tactic(auto)]

mod calls;
mod formals;
mod moves;
mod out_checks;

pub use calls::begin_frame;
pub use slot_calls::{Pass, pass_actuals};
