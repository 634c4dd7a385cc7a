//! How a run ends, what it counts, and why there is no answer.
ghost use Rattle.std.specs.Prelude.{◌≡◌};
ghost use Rattle.run_results.specs.declared.ran.ExecFault.TheVariants as fault;
ghost use Rattle.run_results.specs.Results.{fault_of};

use code_rows::Exception;
use spark_base::{Pos, SinkFault};
use std::alloc::{AllocError, AllocFailed};

/// How a run ends.
#[derive(Clone, Copy, Debug, PartialEq, Eq)]
pub enum Ending {
    /// The main procedure ends.
    Normal,
    /// The point there raises an exception.
    Raised { exception: Exception, pos: Pos },
    /// As many steps were taken as were allowed.
    Spent,
}

/// What a run gives beside its output and its leak lines.
#[derive(Clone, Copy, Debug, PartialEq, Eq)]
pub struct Ran {
    pub ending: Ending,
    pub steps: u64,
    /// How many cells were made.
    pub made: u64,
    /// How many cells were freed.
    pub freed: u64,
    /// How many leak checks failed.
    pub leaked: u64,
}

/// Why there is no answer.
#[derive(Clone, Copy, Debug, PartialEq, Eq)]
pub enum ExecFault {
    /// A write failed.
    WriteFault,
    /// There is too little memory.
    Memory,
}

impl From<AllocError> for ExecFault {
    ghost from_gives = { λ _ made. made ≡ fault.Memory };

    fn from(_: AllocError) -> Self {
        ExecFault::Memory
    }
}

impl<T: Drop> From<AllocFailed<T>> for ExecFault {
    ghost from_gives = { λ _ made. made ≡ fault.Memory };

    fn from(_: AllocFailed<T>) -> Self {
        ExecFault::Memory
    }
}

impl From<SinkFault> for ExecFault {
    ghost from_gives = { λ why made. made ≡ fault_of why };

    fn from(why: SinkFault) -> Self {
        match why {
            SinkFault::Failed => ExecFault::WriteFault,
            SinkFault::Memory => ExecFault::Memory,
        }
    }
}
