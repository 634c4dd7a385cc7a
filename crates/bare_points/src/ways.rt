//! What stands around a statement.
ghost use Rattle.std.specs.Prelude.{◌≡◌, [], ◌++◌, length, IfOk};
ghost use Rattle.numbered_points.specs.Statements.{around_block, around_loop};

use crate::layout::{copied, joined};
use spark_base::Listed;
use std::alloc::{AllocError, Global};
use std::marker::Model;

/// What follows the innermost loop, and the objects whose scopes end where an exit leaves it, and
/// where a return leaves all, the last one first.
#[derive(Drop)]
pub struct Ways {
    leave: Listed<u32>,
    in_loop: Listed<u32>,
    in_all: Listed<u32>,
}

impl Model for Ways {
    ghost use Rattle.numbered_points.specs.Extents.{Ways as Around};

    ghost Value = { Around };

    ghost view = { λ ways. record { leave = ways.leave; in_loop = ways.in_loop; in_all = ways.in_all } };
}

impl Ways {
    /// Within a body that declares these objects.
    pub fn within_body(alloc: Global, own: &[u32]) -> Result<Ways, AllocError>
        ensures { IfOk result (λ made. made ≡ record { leave = []; in_loop = []; in_all = own.now }) }
    {
        Ok(Ways {
            leave: Listed::new(alloc),
            in_loop: Listed::new(alloc),
            in_all: copied(alloc, own)?,
        })
    }

    /// Within a loop that `k` follows.
    pub fn within_loop(&self, alloc: Global, k: &[u32]) -> Result<Ways, AllocError>
        ensures { IfOk result (λ made. made ≡ around_loop k.now self.now) }
    {
        Ok(Ways {
            leave: copied(alloc, k)?,
            in_loop: Listed::new(alloc),
            in_all: copied(alloc, self.in_all())?,
        })
    }

    /// Within a block with these objects.
    pub fn within_block(&self, alloc: Global, own: &[u32]) -> Result<Ways, AllocError>
        ensures { IfOk result (λ made. made ≡ around_block own.now self.now) }
    {
        Ok(Ways {
            leave: copied(alloc, self.leave())?,
            in_loop: joined(alloc, own, self.in_loop())?,
            in_all: joined(alloc, own, self.in_all())?,
        })
    }

    /// What follows the innermost loop.
    pub fn leave(&self) -> &[u32]
        ensures { result.now ≡ self.now.leave }
    {
        self.leave.as_slice()
    }

    /// The objects whose scopes end where an exit leaves the loop.
    pub fn in_loop(&self) -> &[u32]
        ensures { result.now ≡ self.now.in_loop }
    {
        self.in_loop.as_slice()
    }

    /// Those whose scopes end where a return leaves all.
    pub fn in_all(&self) -> &[u32]
        ensures { result.now ≡ self.now.in_all }
    {
        self.in_all.as_slice()
    }
}
