//! Where a run goes on after a point, over a heap that uses its slots again.
//!
//! `go_on` drops the values that the point took, and goes on at the next point; where there is none,
//! the main procedure begins (`begin_main`), whose frame comes above those that are there. What is
//! kept of a run before its first step, `specs/Starts.antt` states.
#![tactic(auto)]

mod begins;
mod goes;

pub use begins::{begin_main, sub_at};
pub use goes::{go_on, tell_found};
