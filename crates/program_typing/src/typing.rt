//! The parts of a program, by number.
ghost use Rattle.std.specs.Prelude.{◌≡◌, IfOk};
ghost use Rattle.type_definitions.specs.Types.{full, is_owning, parts, words};
ghost use Rattle.flow_paths.specs.Objects.{designated, sub_at, traverses};
ghost use Rattle.program_typing.specs.Typings.{typing};

use crate::signature::Signature;
use crate::views::{designated_of, is_anonymous};
use place_names::{Parts, PlaceTail};
use std::alloc::AllocError;
use type_definitions::View;
use type_table::TypeTable;
use typed_tree::Object;

/// The types, the objects and the subprograms of a program.
#[derive(Clone, Copy)]
pub struct ProgramTyping<'p> {
    /// The types.
    pub table: &'p TypeTable,
    /// The objects.
    pub objects: &'p [Object],
    /// The subprograms.
    pub subs: &'p [Signature],
}

impl<'p> ProgramTyping<'p> {
    /// The full view of a type.
    pub fn full(&self, t: u32) -> View
        ensures { result ≡ full (typing self.now).table t }
    {
        self.table.view(t)
    }

    /// Whether a type is owning.
    pub fn is_owning(&self, t: u32) -> bool
        ensures { result ≡ is_owning (typing self.now).table t }
    {
        self.table.is_owning(t)
    }

    /// The access parts of a type.
    pub fn access_parts(&self, t: u32) -> &'p [PlaceTail]
        ensures { result.now ≡ parts (typing self.now).table t }
    {
        self.table.access_parts(t)
    }

    /// The access parts of a type, shared with its table.
    pub fn shared_parts(&self, t: u32) -> Result<Parts, AllocError>
        ensures { IfOk result (λ shared. shared ≡ parts (typing self.now).table t) }
    {
        self.table.shared_parts(t)
    }

    /// The words of a type.
    pub fn words(&self, t: u32) -> u32
        ensures { result ≡ words (typing self.now).table t }
    {
        self.table.words(t)
    }

    /// What an access type designates.
    pub fn designated(&self, t: u32) -> u32
        ensures { result ≡ designated (typing self.now).table t }
    {
        designated_of(t, self.table.view(t))
    }

    /// Whether what is given is of an anonymous access type. A procedure gives nothing.
    pub fn traverses(&self, given: Option<u32>) -> bool
        ensures { result ≡ traverses (typing self.now).table given }
    {
        match given {
            Some(t) => is_anonymous(self.table.view(t)),
            None => false,
        }
    }

    /// The formals of a subprogram, in order.
    pub fn formals(&self, sub: u32) -> &'p [u32]
        ensures { result.now ≡ (sub_at (typing self.now) sub).formals }
    {
        match self.subs.get(sub as usize) {
            Some(signature) => signature.formals(),
            None => &[],
        }
    }

    /// The type of the result of a subprogram, where it is a function.
    pub fn result(&self, sub: u32) -> Option<u32>
        ensures { result ≡ (sub_at (typing self.now) sub).result }
    {
        match self.subs.get(sub as usize) {
            Some(signature) => signature.result(),
            None => None,
        }
    }
}
