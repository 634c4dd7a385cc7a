//! Makes typed statements of the declarations and statements of a program that breaks no rule.
//!
//! A `Writer` has the trees of a program, what is known of its declarations, the numbers of objects
//! and subprograms, and where code stands. `subprograms` adds the code of all subprograms to rows
//! of typed nodes: first that of subprogram 0, which declares the package objects, then all bodies
//! in the order of the text. `main_sub` tells with which one a run begins. `typed_tree` has the
//! definitions; `docs/LANGUAGE.md`, "Typed programs", says them in words (Ada 2012, 3.3.1, 5 and
//! 6). Nothing is refused: of what breaks a rule something is made, too. The only error is out of
//! memory, or more scopes than can be counted. Time is linear in the trees that are made, as far as
//! there is memory for looking names up by hash.
#![tactic(auto)]

mod calls;
mod choices;
mod declared;
mod elaborate;
mod objects;
mod optional;
mod places;
mod plain;
mod program;
mod ranges;
mod scopes;
mod subs;
mod walk;

pub use program::{elaboration, main_sub, sub_bodies, subprograms};
pub use subs::Subprogram;
