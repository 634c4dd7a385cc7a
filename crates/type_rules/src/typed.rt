//! Typed programs that break no sentence on types.
ghost use Rattle.std.specs.Prelude.{◌≡◌, ◌<◌, List, length};
ghost use Rattle.std.specs.List.{All as Each};
ghost use Rattle.ada_tree.specs.declared.unit.SourceUnit.{SourceUnit};
ghost use Rattle.source_trees.specs.Trees.{AreNamed};
ghost use Rattle.type_sizes.specs.Limits.{AreWithin};
ghost use Rattle.type_rules.specs.Typed.{IsTyped};

use spark_base::Listed;
use type_table::TypeTable;
use typed_programs::ProgramParts;
use typed_statements::Subprogram;
use typed_tree::{Object, TypedRows};

/// A program that breaks no sentence on types: its types, objects, scopes and subprograms, each
/// with the number that is its place. It has its own `Drop`, so that owners needn't prove its
/// fields' drops again.
pub struct Typed {
    /// The names of the files.
    pub names: Vec<String>,
    /// The types.
    pub table: TypeTable,
    /// The typed expressions and statements of all subprograms.
    pub rows: TypedRows,
    /// Object 0 is the state of Ada.Text_IO.
    pub objects: Listed<Object>,
    /// For each scope, its enclosing scope. Scope 0 encloses itself.
    pub scopes: Listed<u32>,
    /// Subprogram 0 declares the package objects.
    pub subs: Listed<Subprogram>,
    /// The number of the main procedure.
    pub main: Option<u32>,
    ghost bodies: { Each (λ b. b.body < length rows.1) subs },
    ghost within: { AreWithin table },
    ghost typed: { ∥ ((files : List (List SourceUnit))
        × IsTyped files table (record { rows = rows; objects = objects; scopes = scopes; subs = subs; main = main })
        × AreNamed files) ∥₁ },
}

impl Drop for Typed {
    fn drop(self) {
        let Self {
            names: _,
            table: _,
            rows: _,
            objects: _,
            scopes: _,
            subs: _,
            main: _,
        } = self;
    }
}

impl Typed {
    /// Takes it apart: the names of its files, its types, and the program.
    pub fn into_parts(self) -> (Vec<String>, TypeTable, ProgramParts)
        ensures names { result.0 ≡ self.names }
        ensures table { result.1 ≡ self.table }
        ensures program { result.2 ≡ record { rows = self.rows; objects = self.objects; scopes = self.scopes; subs = self.subs; main = self.main } }
    {
        let Self {
            names,
            table,
            rows,
            objects,
            scopes,
            subs,
            main,
        } = self;
        (
            names,
            table,
            ProgramParts {
                rows,
                objects,
                scopes,
                subs,
                main,
            },
        )
    }
}
