//! Questions about objects.
ghost use Rattle.std.specs.Prelude.{◌≡◌};
ghost use Rattle.flow_paths.specs.Objects.{is_borrower, is_formal, is_formal_kind, is_observer, is_package_object, is_state, is_variable, object_at, view_of};
ghost use Rattle.program_typing.specs.Typings.{typing};

use crate::typing::ProgramTyping;
use crate::views::{is_borrowing, is_observing};
use place_names::Mode;
use type_definitions::View;
use typed_tree::ObjectKind;

/// The declaration of Integer.
const INTEGER: u32 = 0;

/// Whether it is a variable.
fn is_variable(kind: ObjectKind) -> bool
    ensures { result ≡ is_variable kind }
{
    matches!(kind, ObjectKind::Variable)
}

impl<'p> ProgramTyping<'p> {
    /// What an object is.
    pub fn object_kind(&self, x: u32) -> ObjectKind
        ensures { result ≡ (object_at (typing self.now) x).kind }
    {
        match self.objects.get(x as usize) {
            Some(object) => object.kind,
            None => ObjectKind::TextIo,
        }
    }

    /// The type of an object.
    pub fn object_type(&self, x: u32) -> u32
        ensures { result ≡ (object_at (typing self.now) x).of }
    {
        match self.objects.get(x as usize) {
            Some(object) => object.of,
            None => INTEGER,
        }
    }

    /// The mode of an object.
    pub fn object_mode(&self, x: u32) -> Mode
        ensures { result ≡ (object_at (typing self.now) x).mode }
    {
        match self.objects.get(x as usize) {
            Some(object) => object.mode,
            None => Mode::In,
        }
    }

    /// The scope that an object is declared in.
    pub fn object_scope(&self, x: u32) -> u32
        ensures { result ≡ (object_at (typing self.now) x).scope }
    {
        match self.objects.get(x as usize) {
            Some(object) => object.scope,
            None => 0,
        }
    }

    /// The full view of the type of an object.
    pub fn view(&self, x: u32) -> View
        ensures { result ≡ view_of (typing self.now) x }
    {
        self.table.view(self.object_type(x))
    }

    /// Whether an object is a borrower: a variable of an anonymous access-to-variable type.
    pub fn is_borrower(&self, x: u32) -> bool
        ensures { result ≡ is_borrower (typing self.now) x }
    {
        is_variable(self.object_kind(x)) && is_borrowing(self.view(x))
    }

    /// Whether an object is an observer: a variable of an anonymous access-to-constant type.
    pub fn is_observer(&self, x: u32) -> bool
        ensures { result ≡ is_observer (typing self.now) x }
    {
        is_variable(self.object_kind(x)) && is_observing(self.view(x))
    }

    /// Whether an object is a formal.
    pub fn is_formal(&self, x: u32) -> bool
        ensures { result ≡ is_formal (typing self.now) x }
    {
        matches!(self.object_kind(x), ObjectKind::Formal)
    }

    /// Whether an object is the state of Ada.Text_IO.
    fn is_state(&self, x: u32) -> bool
        ensures { result ≡ is_state (object_at (typing self.now) x).kind }
    {
        matches!(self.object_kind(x), ObjectKind::TextIo)
    }

    /// Whether an object is declared in a package. Ada.Text_IO counts as none.
    pub fn is_package_object(&self, x: u32) -> bool
        ensures { result ≡ is_package_object (typing self.now) x }
    {
        match self.objects.get(x as usize) {
            Some(object) => object.package.is_some() && !self.is_state(x),
            None => false,
        }
    }
}
