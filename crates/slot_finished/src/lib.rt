//! The ends of calls, over the memory and the frames of a run whose heap uses its slots again.
//!
//! `finish` copies formals back, all of them or none, and then the frame that waited runs
//! (`specs/Ends.antt`).
//! `proofs/Steps.antt` says that this is the step of `handled_steps` at the end of a subprogram.
#![tactic(auto)]

mod ends;

pub use ends::finish;
