//! Makes typed expressions of the expressions of a program that breaks no rule.
//!
//! A `Writer` has the trees of a program, what is known of its declarations, the numbers of objects
//! and subprograms, and where an expression stands. `expression` adds the typed expression to rows
//! of typed nodes, and gives its number. `typed_tree` has the definitions; `docs/LANGUAGE.md`,
//! "Typed programs", says them in words (Ada 2012, 4 and 6.4). Nothing is refused: of what breaks a
//! rule something is made, too. The only error is out of memory. Time is linear in the trees, as
//! far as there is memory for looking names up by hash.
#![tactic(auto)]

mod arguments;
mod expression;
mod names;
mod numbering;
mod operands;
mod strings;
mod values;
mod writer;

pub use numbering::Numbering;
pub use strings::characters;
pub use writer::Writer;
