//! Reads items and statements from a cursor over tokens, or tells the first token that none of them
//! has there.
//!
//! There is one function for each production, named by it, which gives the tree of `ada_tree` that
//! it reads. Each promises to read as the pure reader of its production does (`Reads`, with the
//! readers of `ada_grammar`), whose laws say the rest: `items` and `stmts` are told how many
//! constructs are open around them. `docs/LANGUAGE.md`, "Grammar", has the productions. A fault
//! leaves the cursor at the refused token. Time and memory are linear in the tokens that are read,
//! and the depth of calls is bounded by the limit of nesting.
#![tactic(auto)]

mod block;
mod branch;
mod clause;
mod item;
mod parser;
mod parts;
mod simple_statement;
mod statement;
mod type_item;

pub use clause::{called, indication, next_identifiers, pragma, use_clause};
pub use item::{instance_of, items, plain_item};
pub use statement::stmts;
