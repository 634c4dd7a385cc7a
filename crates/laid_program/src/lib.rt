//! Programs that are laid out: the points of each subprogram, with the types, objects and scopes of
//! the program.
//!
//! `Laid` keeps that its parts are the layout of the program of some files that break no rule of
//! names and no sentence on types, and that it is within the limits (`specs/Layouts.antt`;
//! `docs/FLOW.md`, "Points"). The files are the trees of texts. What is asked of control
//! paths, effects, actuals and views is asked of it.
#![tactic(auto)]

mod laid;
mod names;

pub use laid::Laid;
pub use names::Names;
