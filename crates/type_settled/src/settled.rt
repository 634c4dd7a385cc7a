//! Whether types are owning, and whether they have themselves in them.
ghost use Rattle.std.specs.Prelude.{◌≡◌, IfOk};
ghost use Rattle.type_definitions.specs.Types.{is_owning};
ghost use Rattle.type_definitions.specs.Declarations.{holds_itself};
ghost use Rattle.expression_types.specs.ComponentNames.{FindAllComponents};
ghost use Rattle.expression_types.specs.FormalNames.{FindAllFormals};
ghost use Rattle.type_settled.specs.Holding.{AreLone};
ghost use Rattle.type_settled.specs.Owners.{AreOwners};
ghost use Rattle.type_settled.specs.Rings.{AreInRings};

use crate::measure::is_marked;
use crate::nesting::is_in_itself;
use crate::owners::{is_named_access, owners};
use crate::ranks::{lone, ranks};
use crate::rings::in_rings;
use expression_types::{WordIndex, component_indexes, formal_indexes};
use spark_base::Listed;
use std::alloc::{AllocError, Global};
use std::mem;
use type_definitions::Known;

/// All that is known of the declarations, where components and formals are found by name, which
/// types are owning, which don't have themselves in them, and which do. It is dropped by a function
/// of its own: who owns one needn't prove again how each table within it is dropped.
pub struct Settled {
    /// Where memory comes from.
    pub alloc: Global,
    /// What is known of the declarations.
    pub known: Known,
    /// Of each type the index of the names of its components, where it has one.
    pub components: Vec<Option<WordIndex>>,
    /// Of each subprogram the index of the names of its formals, where it has one.
    pub formals: Vec<Option<WordIndex>>,
    // The owning types; of named access types it isn't said here.
    owners: Vec<bool>,
    // The types of which it is known that they don't have themselves in them.
    lone: Vec<bool>,
    // The types of which it is known that they have themselves in them.
    in_rings: Vec<bool>,
    ghost found: { FindAllComponents components.items known.table },
    ghost formals_found: { FindAllFormals formals.items known.entries },
    ghost right: { AreOwners known.table owners.items },
    ghost apart: { AreLone known.table lone.items },
    ghost together: { AreInRings known.table in_rings.items },
}

impl Drop for Settled {
    fn drop(self) {
        let Self {
            alloc: _,
            known: _,
            components: _,
            formals: _,
            owners: _,
            lone: _,
            in_rings: _,
        } = self;
    }
}

impl Settled {
    /// Finds out which types are owning, which don't have themselves in them, and which do.
    pub fn new(alloc: Global, known: Known) -> Result<Settled, AllocError>
        ensures { IfOk result (λ settled. settled.known ≡ known) }
    {
        let owners = owners(alloc, known.table.as_slice())?;
        let ranks = ranks(alloc, known.table.as_slice())?;
        let lone = lone(alloc, known.table.as_slice(), &ranks)?;
        let in_rings = in_rings(alloc, known.table.as_slice(), &ranks, &lone)?;
        let components = component_indexes(alloc, known.table.as_slice());
        let formals = formal_indexes(alloc, known.entries.as_slice());
        Ok(Settled {
            alloc,
            known,
            components,
            formals,
            owners,
            lone,
            in_rings,
        })
    }

    /// What is known of the declarations.
    pub fn known(&self) -> &Known
        ensures { result.now ≡ self.now.known }
    {
        &self.known
    }

    /// Gives back what is known of the declarations. It takes no memory.
    #[tactic(auto, using(crate::proofs::Owned::none_owned))]
    pub fn into_known(mut self, alloc: Global) -> Known
        ensures { result ≡ self.known }
    {
        let none = Known {
            entries: Listed::new(alloc),
            table: Listed::new(alloc),
        };
        self.components = Vec::new(alloc);
        self.formals = Vec::new(alloc);
        self.owners = Vec::new(alloc);
        self.lone = Vec::new(alloc);
        self.in_rings = Vec::new(alloc);
        mem::replace(&mut self.known, none)
    }

    /// Whether a type is owning: it is a named access type, or has an owning component or element.
    pub fn is_owning(&self, t: u32) -> bool
        ensures { result ≡ is_owning self.now.known.table t }
    {
        is_named_access(self.known.table.as_slice(), t) || is_marked(&self.owners, t as usize)
    }

    /// Whether a type has itself in it, at any depth. It is looked for only where
    /// that isn't known.
    pub fn holds_itself(&self, t: u32) -> bool
        ensures { result ≡ holds_itself self.now.known.table t }
    {
        if is_marked(&self.in_rings, t as usize) {
            return true;
        }
        if t != 0 && is_marked(&self.lone, t as usize) {
            return false;
        }
        is_in_itself(self.alloc, self.known.table.as_slice(), t)
    }
}
