//! Results of functions, which wait in the frames of their callers, over the memory of a run whose heap
//! uses its slots again.
//!
//! `hold` makes a value and lets it wait in the frame of the caller: what was moved is gone then. What
//! it leaves of the memory and of the frames, `specs/Holds.antt` says.
#![tactic(auto)]

mod holds;

pub use holds::hold;
