//! Makes trees whose identifiers stand for declarations of expressions, names, ranges and choices.
//!
//! The trees come from the grammar (`ada_tree`), the number of the declaration of each identifier
//! from the rules of names, as a `NumberIndex`. The nodes that are made go into `Rows`, and each
//! function gives the number of the tree that it made. The levels of the grammar vanish there, an
//! operator has its operands, and a mark or a name has the declaration that it denotes.
//! `specs/LoweredExpressions.antt` states what each production stands for (Ada 2012, 4.1 to 4.8).
//! The only error is out of memory. Time and memory are linear in the tokens and lines, but for the
//! look-ups.
#![tactic(auto)]

mod expression;
mod line_starts;
mod marks;
mod number_index;
mod ranges;

pub use expression::{args, expr, name};
pub use marks::{mark, number_of};
pub use number_index::NumberIndex;
pub use ranges::{choices, range};
