//! The reports on the actuals of calls of procedures: A1 and A2.
//!
//! `alias_reports` takes a program that is laid out and the effects of its subprograms. It gives
//! the reports of the actuals that overlap one another, and of those that overlap a package object
//! which the callee uses, call by call (`flow_paths/specs/Aliases.antt`; `docs/RULES.md`, "Actuals
//! that overlap"). It looks at the text alone, without paths.
//! The only error is out of memory; a traversal call as a statement gives it too, but no typed
//! program has one. Each two actuals of a call are
//! compared, so a call with m of them costs m * m / 2 comparisons. Whether the effects are in
//! ascending order is seen once, in time linear in them. As they are, each actual is then looked up
//! by halves in what the callee reads and writes. The rest is linear.
#![tactic(auto)]

mod actuals;
mod order;
mod places;
mod rules;
mod whole;

pub use whole::alias_reports;
