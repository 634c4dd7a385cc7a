//! Reads names, expressions and ranges from a cursor over tokens, or tells the first token that
//! none of them has there.
//!
//! There is one function for each production, named by it, which gives the tree of `ada_tree` that
//! it reads. Each promises to read as the pure reader of its production does (`Reads`, with the
//! readers of `ada_grammar`), whose laws say the rest: `expr`, `name_at`, `range`, .. are told how
//! many constructs are open around the part. `docs/LANGUAGE.md`, "Grammar", has the productions.
//! A fault leaves the cursor at the refused token. Time and memory are linear in the tokens that
//! are read, and the depth of calls is bounded by the limit of nesting.
#![tactic(auto)]

mod expression;
mod name;
mod operator;
mod parser;
mod parts;
mod primary;
mod ranges;

pub use expression::{arg_at, expr, name_at, next_args_at};
pub use name::{dotted, identifier, next_dotteds};
pub use parts::{Constraint, boxed};
pub use ranges::{choice, constraint, next_choices, range};
