//! What the steps of a run change, over any heap that uses its slots again.
//!
//! `Parts` is what is kept of a run beside its program and its input. What a step at a point is asked
//! for and what it comes to is stated for it (`specs/Stages.antt`, `specs/Steps.antt`): the step may
//! go on, end the run or stop, as `handled_steps` allows it for each memory over slots that the parts
//! stand for. `begin` makes the parts of a run before its first step, `go` goes on after a point, and
//! `tell` tells the leaks that a point found.
#![tactic(auto)]

mod begins;
mod goes;
mod parts;

pub use begins::begin;
pub use goes::{go, tell};
pub use parts::Parts;
