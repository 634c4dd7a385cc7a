//! Lays out typed programs.
//!
//! `lay_out` takes a `Typed` and makes a `Laid`: the points of each subprogram with their acts,
//! leak checks and successors, its facts, and the words of its frame, and after the objects of the
//! program its temporaries. They are those that `flow_paths` defines (`specs/Laid.antt`;
//! `docs/FLOW.md`, "Points"). A program beyond a limit is refused (`docs/TOOL.md`, "Limits"): names
//! are looked at before any point is made, and a subprogram whose points are too many is told
//! before one of them is made. One subprogram is laid out after the other, and the temporaries of
//! each have the numbers after those of the ones before. Time is linear in the code, in the points
//! and in what they do to places, but for what `sub_layout` and `bare_points` say of facts, blocks
//! and loops.
#![tactic(auto)]

mod known;
mod laid_subs;
mod lay;
mod refusal;
mod sub_writer;

pub use lay::lay_out;
pub use refusal::LayRefusal;
