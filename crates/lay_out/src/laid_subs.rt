//! Subprograms that are laid out, with their temporaries.
ghost use Rattle.std.specs.Prelude.{◌≡◌, []};

use flow_paths::LaidSub;
use spark_base::Listed;
use std::alloc::Global;

/// Subprograms with their points, in order, and the types of their temporaries in the order of the
/// numbers of these.
#[derive(Drop)]
pub(crate) struct LaidSubs {
    /// The subprograms.
    pub(crate) subs: Listed<LaidSub>,
    /// The types of their temporaries.
    pub(crate) types: Vec<u32>,
}

impl LaidSubs {
    /// None.
    pub(crate) fn new(alloc: Global) -> LaidSubs
        ensures subs { result.subs ≡ [] }
        ensures types { result.types.items ≡ [] }
    {
        LaidSubs {
            subs: Listed::new(alloc),
            types: Vec::new(alloc),
        }
    }
}
