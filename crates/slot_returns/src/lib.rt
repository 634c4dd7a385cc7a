//! What is copied back when a call ends, over the memory of a run whose heap uses its slots again.
//!
//! `copy_one` copies a formal back: what it holds is tested before it is stored (`specs/Backs.antt`).
//! `check_one` tests alone, so that several formals can be tested before the first is stored; a formal
//! that would go into its own frame counts as out of memory there.
//! `proofs/Rounds.antt` says what comes of all formals of a call, one after the other, and
//! `proofs/Turns.antt` that this is what the step of `handled_steps` does.
#![tactic(auto)]

mod copies;

pub use copies::{check_one, copy_one};
