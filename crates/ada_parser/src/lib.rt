//! Reads the tokens of a source file into the trees of its units, or tells the first token that no
//! source has there.
//!
//! `parse` takes the tokens of one file, with the end of the file last, and gives its `Trees`: a
//! `SourceUnit` of `ada_tree` for each unit, which keeps the position of each token and the bytes
//! of each identifier and string. Units, packages and subprograms are read here; expressions, items
//! and statements by the two crates below.
//! `ada_tree` states in `specs/Spelling.antt` what the units are spelled by; `docs/LANGUAGE.md`,
//! "Grammar", has the productions.
//! `parse` refuses the first token with which the tokens are no viable prefix, or the first that
//! exceeds a limit; `specs/Refused.antt` says it, and `docs/TOOL.md`, "Refusals".
//! Time and memory are linear in the tokens, and the depth of calls is bounded by the limit of
//! nesting.
#![tactic(auto)]

mod package;
mod parts;
mod refusal;
mod source;
mod subprogram;
mod unit;

pub use refusal::ParseRefusal;
pub use source::parse;
