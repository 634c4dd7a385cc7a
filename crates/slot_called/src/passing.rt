//! What is at hand while a call is made.
ghost use Rattle.std.specs.Prelude.{◌≡◌, []};

use run_values::Kind;
use slot_formals::Pass;
use std::alloc::Global;

/// What is passed, the types of formals, and the kinds of the words of one.
pub struct Passing {
    pub(crate) passes: Vec<Pass>,
    pub(crate) formals: Vec<u32>,
    pub(crate) kinds: Vec<Kind>,
}

impl Drop for Passing {
    fn drop(self) {
        let Self {
            passes: _,
            formals: _,
            kinds: _,
        } = self;
    }
}

impl Passing {
    /// Nothing.
    pub fn new(alloc: Global) -> Passing
        ensures passes { result.passes.items ≡ [] }
        ensures formals { result.formals.items ≡ [] }
        ensures kinds { result.kinds.items ≡ [] }
    {
        Passing {
            passes: Vec::new(alloc),
            formals: Vec::new(alloc),
            kinds: Vec::new(alloc),
        }
    }
}
