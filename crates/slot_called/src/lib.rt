//! Calls, over the memory and the frames of a run whose heap uses its slots again.
//!
//! `call` passes the actuals of a call, counts the words of all frames, and gives the formals their
//! values in a new frame, which runs then. What it leaves is said of the slots that the memory stands
//! for (`specs/Calls.antt`). `proofs/Framed.antt` says that a frame that begins so is one of a call
//! of `handled_steps`, and `proofs/Steps.antt` that the step is one that its definition allows.
#![tactic(auto)]

mod calls;
mod entering;
mod passes;
mod passing;

pub use calls::call;
pub use passing::Passing;
pub use slot_held::hold;
