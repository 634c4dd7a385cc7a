//! What is asked of one fact, and what is found where facts forbid an act.
//!
//! `word` and `place` are what a report says of a fact. The other questions are those that the
//! rules of ownership put to a fact and a name: whether it was moved or is lent there, and overlaps
//! the name. `Found` is a rule that a fact breaks, with the name and the word of its report;
//! `add_if` makes one where a test of a fact has succeeded, and puts it after those of the same
//! act, unless it is there. `place_names` defines what each rule forbids; `specs/Findings.antt`
//! states how what many facts forbid becomes one list, in the order of the facts and without
//! repeats. `docs/RULES.md`, "Rules", says it in words.
//! `add_if` takes memory for one more, and time linear in those of the act; where the test hasn't
//! succeeded, neither.
#![tactic(auto)]

mod found;
mod question;

pub use found::{Found, add_if};
pub use question::{
    is_moved_in, is_moved_or_borrowed, is_moved_or_lent, is_overlapping, place, word,
};
