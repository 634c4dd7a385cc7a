//! Where typed expressions are made.
ghost use Rattle.std.specs.Prelude.{◌≡◌};
ghost use Rattle.type_definitions.specs.Entries.{entry_of};
ghost use Rattle.typed_tree.specs.Expressions.{object_number, sub_number, object_type};
ghost use Rattle.typed_expressions.specs.Sites.{site};

use crate::numbering::Numbering;
use expression_types::{INTEGER, Reader};
use std::alloc::Global;
use type_definitions::Entry;

/// The trees of a program, what is known of its declarations and where an expression stands, and
/// the numbers of objects and of subprograms.
#[derive(Clone, Copy)]
pub struct Writer<'p> {
    /// Where memory comes from.
    pub alloc: Global,
    /// The trees, and where an expression stands.
    pub reader: Reader<'p>,
    /// The declarations of objects.
    pub objects: &'p Numbering,
    /// The declarations of subprograms, in the order of their bodies.
    pub bodies: &'p Numbering,
}

impl<'p> Writer<'p> {
    /// The number of an object.
    pub fn object_number(&self, d: u32) -> u32
        ensures { result ≡ object_number (site self.now) d }
    {
        self.objects.number(d)
    }

    /// The number of a subprogram.
    pub fn sub_number(&self, d: u32) -> u32
        ensures { result ≡ sub_number (site self.now) d }
    {
        self.bodies.number(d)
    }

    /// The type of an object, or Integer.
    pub fn object_type(&self, d: u32) -> u32
        ensures { result ≡ object_type (entry_of self.now.reader.known.now d) }
    {
        match self.reader.known.entries.as_slice().get(d as usize) {
            Some(Entry::Object { object }) => object.of,
            _ => INTEGER,
        }
    }
}
