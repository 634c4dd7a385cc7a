//! Tests acts by the rules of moves: O1 to O4, O9, O14, and O10 for the modes `in out` and `out`.
//!
//! `test_moves` takes a tree of what may hold before an act, and appends a `Found` for each
//! different rule, name and word that some fact of it gives, in the order of the facts.
//! `specs/MoveRules.antt` states which acts these rules look at; `place_names` defines what a fact
//! forbids at an act; `docs/RULES.md`, "Rules", says it in words. Other acts give nothing here.
//! Only facts that the act touches are looked at (`Tree::touched`), since no other one forbids it.
//! Time is linear in these, times those that are found.
#![tactic(auto)]

mod rule;
mod test;

pub use fact_questions::Found;
pub use test::test_moves;
