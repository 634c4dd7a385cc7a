//! What the types of a program are made of: their words, whether they are owning, their access
//! parts, and their definitions.
//!
//! A `TypeTable` answers each question about a type, by its number, in constant time. Its answers
//! are those of the definitions of `type_definitions` (`specs/Sizes.antt`; `docs/LANGUAGE.md`,
//! "Types"; Ada 2012, 3.2 and 3.5 to 3.10).
#![tactic(auto)]

mod table;

pub use table::{TypeSize, TypeTable};
