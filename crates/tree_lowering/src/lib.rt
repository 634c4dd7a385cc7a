//! Makes trees whose identifiers stand for declarations of the units of whole files.
//!
//! `lower` takes the grammar's trees (`ada_tree`) of all files, in order, and the number of the
//! declaration of each identifier (`NumberIndex`), and puts nodes for all declarations and
//! statements into `Rows`. It gives the numbers of the units. `use` clauses, pragmas and contexts
//! leave nothing. `specs/Lowered.antt` states what each production stands for (Ada 2012, chapters
//! 3, 5, 6, 7 and 10). The only error is out of memory. Time and memory are linear in the tokens,
//! but for the look-ups.
#![tactic(auto)]

mod identifiers;
mod items;
mod statements;
mod subprograms;
mod units;

pub use units::lower;
