//! The frames of a run over any heap that uses its slots again: which one runs and which ones wait, the
//! values that wait in each of them, and what their calls copy back to places of `slot_memory`.
//!
//! `Frames` keeps them in rows; the words of the values that wait are those of the memory of the run.
//! Which frames the rows stand for, `specs/Frames.antt` says, and `proofs/` has what each call does to
//! those frames. Nothing here touches the memory of a run.
#![tactic(auto)]

mod frames;
mod rows;

pub use frames::Frames;
pub use rows::{Frame, Return, Wait};
