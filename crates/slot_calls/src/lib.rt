//! What the actuals of calls pass, over a heap that uses its slots again.
//!
//! `pass_actual` evaluates one actual, and `pass_actuals` those of a call in order; the words of values
//! are appended to those at hand. What is answered is one of the outcomes that may come
//! (`specs/Calls.antt`, over `handled_steps`). `proofs/Passing.antt` takes actuals one after the other.
#![tactic(auto)]

mod actuals;

pub use actuals::{Pass, pass_actual, pass_actuals};
