//! Control flow: the points of each subprogram, what each does to places, and which may follow it;
//! and what holds along the paths through them.
//!
//! A point stands for one step of a run. The definitions are whole: which points a typed program
//! has, `specs/Layout.antt` says, row by row; what they do, `specs/Acts.antt`; control paths, the
//! rules of the text, effects over calls, reports and leak checks have a file each. Points have
//! names there, by the part of the program that they belong to, and numbers in the order of the
//! text. `docs/FLOW.md` says it in words. The types here are those that code shares with the
//! definitions.
#![tactic(auto)]

mod instr;
mod point;
mod refusal;
mod report;

pub use instr::Instr;
pub use point::{LaidSub, LeakSpot, Point};
pub use refusal::LayFault;
pub use report::{Effects, LeakLine, Report};
