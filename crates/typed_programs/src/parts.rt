//! Typed programs as they are kept.

use spark_base::Listed;
use typed_statements::Subprogram;
use typed_tree::{Object, TypedRows};

/// A typed program: its objects, scopes and subprograms, each with the number that is its place.
#[derive(Drop)]
pub struct ProgramParts {
    /// The typed expressions and statements of all subprograms.
    pub rows: TypedRows,
    /// Object 0 is the state of Ada.Text_IO.
    pub objects: Listed<Object>,
    /// For each scope, its enclosing scope. Scope 0 encloses itself.
    pub scopes: Listed<u32>,
    /// Subprogram 0 declares the package objects.
    pub subs: Listed<Subprogram>,
    /// The number of the main procedure.
    pub main: Option<u32>,
}
