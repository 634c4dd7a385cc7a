//! Makes the typed program of the units of a program that breaks no rule.
//!
//! `typed_program` puts together what `typed_objects`, `typed_expressions` and `typed_statements`
//! make: the objects, the scopes, the subprograms with their typed code in rows, and the number of
//! the main procedure. `typed_tree/specs/Programs.antt` defines the typed program that units mean,
//! and `specs/Parts.antt` says when parts are that program; `docs/LANGUAGE.md`, "Typed programs",
//! says it in words. Nothing is refused. The only error is out of memory, or more than can be
//! counted.
#![tactic(auto)]

mod parts;
mod program;

pub use parts::ProgramParts;
pub use program::typed_program;
