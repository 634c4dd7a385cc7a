//! Tests acts by the rules of loans: O5 to O8, O11, and O10 for the mode `in`.
//!
//! `test_loans` takes a tree of what may hold before an act, and appends a `Found` for each
//! different rule, name and word that some fact of it gives, in the order of the facts.
//! `specs/LoanRules.antt` states which acts these rules look at; `place_names` defines what a fact
//! forbids at an act; `docs/RULES.md`, "Rules", says it in words. Other acts give nothing here.
//! Only facts that the act touches are looked at (`Tree::touched`), since no other one forbids it.
//! Time is linear in these, times those that are found.
#![tactic(auto)]

mod rule;
mod test;

pub use test::test_loans;
