//! The steps of a run at each kind of point, over any heap that uses its slots again.
//!
//! `step_point` does what a point does: each kind of point has a function whose contract is a step of
//! `handled_steps` at such a point (`slot_parts`, specs/Steps.antt). Points that write, that read and
//! that evaluate operands of short circuits are those of `slot_tells`.
#![tactic(auto)]

mod calls;
mod changes;
mod holds;
mod points;

pub use changes::{step_values, step_words};
pub use points::step_point;
pub use slot_called::Passing;
pub use slot_tells::{Parts, begin};
