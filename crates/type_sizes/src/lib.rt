//! The table of the types of a program: the words and the access parts of each.
//!
//! `sized_table` makes the `TypeTable` of `type_table` from all that is known of the declarations,
//! where each type is within the limits (`specs/Limits.antt`), as in a program that breaks no rule
//! (`proofs/Limits.antt`). The definitions are those of `type_definitions`; `docs/LANGUAGE.md`,
//! "Types", says them in words (Ada 2012, 3.2 and 3.5 to 3.10). The only error is out of memory.
//!
//! Each type is made after what it is made of, in time linear in the table and in the parts. Where
//! a type has itself in it, which breaks a rule, all are made in as many rounds as there are
//! declarations.
#![tactic(auto)]

mod made;
mod rounds;
mod shapes;
mod sizes;
mod tails;

pub use made::sized_table;
