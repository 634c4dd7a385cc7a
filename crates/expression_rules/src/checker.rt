//! Where expressions are checked.
ghost use Rattle.std.specs.Prelude.{◌≡◌};
ghost use Rattle.type_definitions.specs.Types.{is_owning};
ghost use Rattle.type_definitions.specs.Entries.{entry_of};
ghost use Rattle.type_definitions.specs.Expressions.{own_owning, root_owning};
ghost use Rattle.expression_types.specs.Here.{here};
ghost use Rattle.expression_rules.specs.Around.{context};

use expression_types::Reader;
use resolved_tree::Rows;
use type_definitions::{Entry, Own};
use type_settled::Settled;

/// The trees of a program, what is settled of its declarations and types, and where an expression
/// stands.
#[derive(Clone, Copy)]
pub struct Checker<'p> {
    /// The trees.
    pub rows: &'p Rows,
    /// What is settled.
    pub settled: &'p Settled,
    /// The package whose declarations these are, in any of its parts.
    pub home: Option<u32>,
    /// The package whose private part or body this is.
    pub within: Option<u32>,
    /// The subprogram whose body this is.
    pub sub: Option<u32>,
    /// Whether a loop stands around.
    pub in_loop: bool,
    /// Whether this is the initial value of a package object.
    pub starts: bool,
}

impl<'p> Checker<'p> {
    /// What names and expressions are here.
    pub fn reader(&self) -> Reader<'p>
        ensures here { here result ≡ context self.now }
        ensures rows { result.rows.now ≡ self.now.rows.now }
        ensures known { result.known.now ≡ self.now.settled.now.known }
    {
        Reader {
            alloc: self.settled.alloc,
            rows: self.rows,
            known: &self.settled.known,
            components: self.settled.components.as_slice(),
            formals: self.settled.formals.as_slice(),
            home: self.home,
            within: self.within,
            sub: self.sub,
            in_loop: self.in_loop,
            starts: self.starts,
        }
    }

    /// Whether a type by itself is owning.
    pub fn own_owning(&self, own: Own) -> bool
        ensures { result ≡ own_owning self.now.settled.now.known own }
    {
        match own {
            Own::Of { of } => self.settled.is_owning(of),
            _ => false,
        }
    }

    /// Whether a declaration is an object of an owning type.
    pub fn root_owning(&self, d: u32) -> bool
        ensures { result ≡ root_owning self.now.settled.now.known (entry_of self.now.settled.now.known d) }
    {
        match self.settled.known.entries.as_slice().get(d as usize) {
            Some(Entry::Object { object }) => self.settled.is_owning(object.of),
            _ => false,
        }
    }
}
