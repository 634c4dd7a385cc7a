//! The sentences on declarations, and on all code of a program (docs/LANGUAGE.md, "Types"; Ada
//! 2012, 3, 6, 7 and 12.3).
//!
//! Code is named by its number in the rows, and a `Checker` says where it stands. `sentence_faults`
//! takes the first fault that is found so far and gives the first one with those of the program's
//! units; `all_made` gives the types that the units declare, and which of them break no sentence.
//! What is a fault, `Declarations` and `Whole` of `type_definitions` define.
//! Time is linear in the code, but for a `case`, for what expressions cost, and for private types
//! where some type has itself in it.
#![tactic(auto)]

mod code;
mod declared;
mod instances;
mod made;
mod marks;
mod objects;
mod places;
mod plain;
mod profiles;
mod program;
mod same_profile;
mod types;

pub use program::{all_made, sentence_faults};
