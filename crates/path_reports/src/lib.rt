//! The reports of the rules on facts over all control paths of one subprogram.
//!
//! `path_reports` takes the points of a subprogram, the list of the facts that their acts add, and
//! what subprograms read and write. It puts into a `ReportSet` exactly the reports of `PathReport`:
//! some control path reaches an act with a fact that forbids it (`specs/CalledPoints.antt` has the
//! points as paths have them; `docs/RULES.md`, "Reports"). To the acts of a call come those on the
//! package objects that its callee reads or writes. Each report has the text of its name.
//! The only error is out of memory. States are carried as `point_states` has it; then each
//! act of a point that some path reaches is tested once. A fact breaks a rule at a call by the
//! object that it is rooted in alone, so the acts of a call aren't made: each fact that may hold is
//! tested with that object, which is looked up by halves in what the callee reads and writes
//! (`specs/Uses.antt`). For F facts a call costs time F log N, where its callee uses N package
//! objects, and F times the number of its reports, which are gathered without repeats.
#![tactic(auto)]

mod called;
mod printed;
mod reports;

pub use reports::path_reports;
