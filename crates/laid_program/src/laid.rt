//! A program that is laid out.
ghost use Rattle.std.specs.Prelude.{◌≡◌};
ghost use Rattle.laid_program.specs.Layouts.{IsLayout, program_with};

use crate::names::Names;
use flow_paths::LaidSub;
use spark_base::Listed;
use type_table::TypeTable;
use typed_tree::{Object, TypedRows};

/// A program that is laid out. It has its own `Drop`, so that owners needn't prove its fields'
/// drops again.
pub struct Laid {
    /// The names of its files.
    pub names: Vec<String>,
    /// Its types.
    pub table: TypeTable,
    /// The typed expressions and statements that its points name.
    pub rows: TypedRows,
    /// Its objects: those of the typed program, and then temporaries alone.
    pub objects: Listed<Object>,
    /// For each scope, its enclosing scope. Scope 0 encloses itself.
    pub scopes: Listed<u32>,
    /// Its subprograms. Subprogram 0 declares the package objects.
    pub subs: Listed<LaidSub>,
    /// The number of the main procedure.
    pub main: Option<u32>,
    ghost right: { ∥ IsLayout (program_with table rows objects scopes subs main) ∥₁ },
}

impl Drop for Laid {
    fn drop(self) {
        let Self {
            names: _,
            table: _,
            rows: _,
            objects: _,
            scopes: _,
            subs: _,
            main: _,
        } = self;
    }
}

impl Laid {
    /// What is left of a program that is rejected: what its reports are printed by.
    pub fn into_names(self) -> Names
        ensures names { result.names ≡ self.names }
        ensures table { result.table ≡ self.table }
        ensures objects { result.objects ≡ self.objects }
    {
        let Self {
            names,
            table,
            rows: _,
            objects,
            scopes: _,
            subs: _,
            main: _,
        } = self;
        Names {
            names,
            table,
            objects,
        }
    }
}
