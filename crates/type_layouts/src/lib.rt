//! The kinds of the words of types, and where their access parts stand, found once for each type.
//!
//! `Layouts` is a type table that keeps them of the types with few words. Contracts see the table.
#![tactic(auto)]

mod layouts;

pub use layouts::Layouts;
