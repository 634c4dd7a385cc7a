//! What the next step of a run needs and what it comes to, over a heap that uses its slots again.
//!
//! `point_at` finds the point that the frame is at, `take` the values that it takes, and `stopped`
//! how a run ends whose point stops: the cells that the step made count as freed. What a step comes
//! to is stated for what is kept of a run (`specs/Steps.antt`, `specs/Runs.antt`), and
//! `proofs/Turned.antt` says that this is a turn of `slot_runs`.
#![tactic(auto)]

mod halt;
mod overs;
mod points;
mod takes;

pub use halt::{Halt, no_memory};
pub use overs::{Over, stopped};
pub use points::point_at;
pub use takes::take;
