//! What the instructions of a program do to places, and their leak checks.
//!
//! An `ActWriter` has the typed rows of a program and what is known of its types, objects and
//! subprograms. It gives the acts of an instruction, in order, and its leak checks. Both are those
//! that `flow_paths` defines (`specs/Acts.antt`; `docs/FLOW.md`, "Acts" and "Leak checks"). Acts on
//! names are planned first, each with the node of its name, and then made. An act is refused as
//! `TooDeep` if one of its names, or of the names of the facts that it adds, has more than 16
//! selectors, and so is a leak check of such a name (`specs/Depths.antt`). `CallRows` tells which
//! trees have calls and which have no acts; it is made once for all rows. Lists and the steps of
//! names take no depth of calls. Time is linear in the trees of the instruction and in what it
//! gives, and a tree without names isn't gone into.
#![tactic(auto)]

mod acts;
mod actuals;
mod call_rows;
mod depths;
mod fault;
mod instructions;
mod leaks;
mod making;
mod names;
mod plan;
mod sources;
mod values;
mod writer;

pub use call_rows::{CallRows, call_marks};
pub use fault::ActFault;
pub use writer::ActWriter;
