//! Steps of points that write, that read, and that evaluate operands of short circuits, over a heap
//! that uses its slots again.
//!
//! `step_output` writes the pieces of a string, and `step_input` stores the next item of the input.
//! `step_left` and `step_right` let the value of an operand wait (`specs/Truths.antt`). What a step
//! comes to, `slot_parts` states.
#![tactic(auto)]

mod tells;
mod waits;

pub use slot_parts::{Parts, begin, go, tell};
pub use tells::{step_input, step_output};
pub use waits::{step_left, step_right};
