//! The leak checks of an accepted program, each excused or not.
//!
//! `plan_leaks` takes an `AcceptedProgram` and gives a `LeakLine` for each of its leak checks,
//! sorted by position and printed name (`specs/Plan.antt`; `docs/FLOW.md`, "Leak checks"). A check
//! is excused if its name has no element of an array, some control path reaches it, and each path
//! that reaches it has moved exactly its name just before the effect of the act that it belongs to.
//! `docs/LEAKS.md` says what to make of it.
//! The only error is out of memory. The trees are those by which `path_check` finds reports, so
//! `Steps` counts at most `E * (2 * F + 2)` states for each subprogram with E successors and F
//! facts; `leak_plan` counts on a ledger of its own. For each check, the acts before it at its point
//! are applied to a copy of the point's tree.
#![tactic(auto)]

mod excuse;
mod lines;
mod plan;
mod printed_line;

pub use plan::{leak_plan, plan_leaks};
