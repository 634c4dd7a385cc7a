//! Constant views, and what may borrow from them all the same.
ghost use Rattle.std.specs.Prelude.{◌≡◌};
ghost use Rattle.traversal_funcs.specs.Sights.{is_only, is_constant, in_function, is_given, of_formal, may_borrow};

use crate::questions::is_outer;
use crate::roots::Rooted;
use place_names::Mode;
use program_typing::{ProgramTyping, is_named_access};
use typed_tree::TypedRows;

/// The traversed formal of a traversal function: which objects have it as a root, and which have
/// another root.
pub(crate) struct Traversed<'p> {
    pub formal: u32,
    pub own: Rooted<'p>,
    pub other: Rooted<'p>,
}

/// What is known of a subprogram where its text is looked at.
pub(crate) struct Views<'p> {
    /// The parts of the program.
    pub known: ProgramTyping<'p>,
    /// For each scope, its enclosing scope.
    pub scopes: &'p [u32],
    /// The trees that its points name.
    pub rows: &'p TypedRows,
    /// Whether it is a function.
    pub function: bool,
    /// Whether it gives a borrower.
    pub variable: bool,
    /// Which objects have a formal or a package object as a root.
    pub outer: Rooted<'p>,
    /// Its traversed formal, where it is a traversal function.
    pub traversed: Option<Traversed<'p>>,
}

impl<'p> Drop for Traversed<'p> {
    fn drop(self) {
        let Self {
            formal: _,
            own: _,
            other: _,
        } = self;
    }
}

impl<'p> Drop for Views<'p> {
    fn drop(self) {
        let Self {
            known: _,
            scopes: _,
            rows: _,
            function: _,
            variable: _,
            outer: _,
            traversed: _,
        } = self;
    }
}

impl<'p> Traversed<'p> {
    /// Whether the formal is the one root of an object.
    fn is_only(&self, x: u32) -> bool
        ensures { result ≡ is_only self.now x }
    {
        self.own.has_root(x) && !self.other.has_root(x)
    }
}

impl<'p> Views<'p> {
    /// Whether a name is a constant view in a function: one with this root, and with a selector or
    /// with none.
    fn in_function(&self, x: u32, selected: bool) -> bool
        ensures { result ≡ in_function self.now x selected }
    {
        is_outer(&self.known, x)
            || (self.known.is_borrower(x) && selected && self.outer.has_root(x))
    }

    /// Whether a name is a constant view as an `in` formal of a procedure.
    fn of_formal(&self, x: u32, selected: bool) -> bool
        ensures { result ≡ of_formal self.now x selected }
    {
        self.known.is_formal(x)
            && matches!(self.known.object_mode(x), Mode::In)
            && !(is_named_access(self.known.view(x)) && selected)
    }

    /// Whether a name is a constant view.
    pub(crate) fn is_constant(&self, x: u32, selected: bool) -> bool
        ensures { result ≡ is_constant self.now x selected }
    {
        if self.known.is_observer(x) && selected {
            return true;
        }
        if self.function {
            return self.in_function(x, selected);
        }
        self.of_formal(x, selected)
    }

    /// Whether a name with this root may be borrowed from though it is a constant view.
    pub(crate) fn may_borrow(&self, x: u32) -> bool
        ensures { result ≡ may_borrow self.now x }
    {
        match &self.traversed {
            Some(traversed) => {
                self.variable
                    && (x == traversed.formal
                        || (self.known.is_borrower(x) && traversed.is_only(x)))
            }
            None => false,
        }
    }

    /// Whether the traversed formal is the one root of an object.
    pub(crate) fn is_given(&self, x: u32) -> bool
        ensures { result ≡ is_given self.now x }
    {
        match &self.traversed {
            Some(traversed) => traversed.is_only(x),
            None => false,
        }
    }
}
