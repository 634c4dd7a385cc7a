//! Types settled: whether each is owning, and the first that exceeds a limit.
//!
//! `Settled` is made once, of all that is known of the declarations, and answers whether a type is
//! owning, and whether it has itself in it. It has the index by name of the components of each
//! record that has many, and of the formals of each subprogram that has many, where there is memory
//! for it. `sizes` looks at the types that declarations make: one may have at most 65,536 words, at
//! most 64 access parts of at most 16 selectors, and an array type has an element. The definitions
//! are those of `type_definitions`; `specs/Measures.antt` says what is measured of each type, where
//! a count stops at one more than its limit; `docs/LANGUAGE.md`, "Types", says it in words (Ada
//! 2012, 3.2 and 3.5 to 3.10).
//!
//! All is done in time linear in the table. Each type is measured after what it is made of. Types
//! are ranked, so that none is made of a type with a greater rank: one that is made of lower ones
//! alone doesn't have itself in it. Types with the same rank that are made of one another are a
//! ring: those that have its first type in them and are in that type have themselves in them, and
//! are found upwards and downwards from the first types of all rings at once. Which types have a
//! marked one in them is found by a worklist for all at once; marked are the named access types, or
//! the subtypes of a type of which it isn't known yet whether it has itself in it, or, where one
//! has, the types whose declarations break a rule. A pass after each search for marked types looks
//! that none was left out, and one after the ranking that the ranks are in order. If that failed,
//! or if a type had itself in it and no type whose declaration breaks a rule, types would be
//! measured in rounds; no input is known that needs it.
#![tactic(auto)]

mod chains;
mod downward;
mod faults;
mod limits;
mod links;
mod measure;
mod measures;
mod nesting;
mod order;
mod owners;
mod parts;
mod ranks;
mod reach;
mod rings;
mod roots;
mod rounds;
mod settled;
mod upward;
mod visits;
mod walk;

pub use faults::{demand, is_ahead};
pub use limits::sizes;
pub use order::{is_done, is_ready};
pub use settled::Settled;
pub use visits::Visits;
