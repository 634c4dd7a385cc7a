//! Why a command ends before its answer is written.
ghost use Rattle.std.specs.Prelude.{◌≡◌};
ghost use Rattle.spark_tool.specs.Stops.{stop_status, stop_of};

use answered_runs::RunFault;
use std::alloc::{AllocError, AllocFailed};

/// What ends a command before its answer is written.
#[derive(Clone, Copy, PartialEq, Eq)]
pub(crate) enum Stop {
    /// A file can't be read, or isn't there.
    Read,
    /// An output takes no more.
    Write,
    /// There is no memory left.
    Memory,
}

impl Stop {
    /// The status of the program.
    pub(crate) fn status(self) -> u8
        ensures { result ≡ stop_status self }
    {
        match self {
            Stop::Read => 7,
            Stop::Write => 8,
            Stop::Memory => 9,
        }
    }
}

impl From<AllocError> for Stop {
    ghost use Rattle.std.specs.Prelude.{◌≡◌};
    ghost use Rattle.spark_tool.specs.declared.stop.Stop.TheVariants.{Memory};

    ghost from_gives = { λ _ stop. stop ≡ Memory };

    fn from(_: AllocError) -> Self {
        Stop::Memory
    }
}

impl<T: Drop> From<AllocFailed<T>> for Stop {
    ghost use Rattle.std.specs.Prelude.{◌≡◌};
    ghost use Rattle.spark_tool.specs.declared.stop.Stop.TheVariants.{Memory};

    ghost from_gives = { λ _ stop. stop ≡ Memory };

    fn from(_: AllocFailed<T>) -> Self {
        Stop::Memory
    }
}

impl From<RunFault> for Stop {
    ghost from_gives = { λ fault stop. stop ≡ stop_of fault };

    fn from(fault: RunFault) -> Self {
        match fault {
            RunFault::Read => Stop::Read,
            RunFault::Write => Stop::Write,
            RunFault::Memory => Stop::Memory,
        }
    }
}
