//! The trees of a file as one value.
ghost use Rattle.std.specs.Prelude.{◌≡◌};

use crate::unit::SourceUnit;
use spark_base::Listed;

/// The trees of a file, in order. It has its own `Drop`, so that owners needn't prove again how
/// each tree is dropped.
pub struct Trees {
    /// The trees, in order.
    pub units: Listed<SourceUnit>,
}

impl Drop for Trees {
    fn drop(self) {
        let Self { units: _ } = self;
    }
}

impl Trees {
    /// The trees, borrowed.
    pub fn as_slice(&self) -> &[SourceUnit]
        ensures { result.now ≡ self.now.units }
    {
        self.units.as_slice()
    }
}
