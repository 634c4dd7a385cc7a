//! Why a run gives no answer.
ghost use Rattle.std.specs.Prelude.{◌≡◌};
ghost use Rattle.run_command.specs.declared.fault.RunFault.TheVariants as fault;
ghost use Rattle.run_command.specs.Faults.{of_exec, of_sink};

use run_results::ExecFault;
use spark_base::SinkFault;
use std::alloc::{AllocError, AllocFailed};

/// Why a run gives no answer.
#[derive(Clone, Copy, Debug, PartialEq, Eq)]
pub enum RunFault {
    /// The input can't be read.
    Read,
    /// An output takes no more.
    Write,
    /// There is no memory left.
    Memory,
}

impl From<AllocError> for RunFault {
    ghost from_gives = { λ _ made. made ≡ fault.Memory };

    fn from(_: AllocError) -> Self {
        RunFault::Memory
    }
}

impl<T: Drop> From<AllocFailed<T>> for RunFault {
    ghost from_gives = { λ _ made. made ≡ fault.Memory };

    fn from(_: AllocFailed<T>) -> Self {
        RunFault::Memory
    }
}

impl From<ExecFault> for RunFault {
    ghost from_gives = { λ why made. made ≡ of_exec why };

    fn from(why: ExecFault) -> Self {
        match why {
            ExecFault::WriteFault => RunFault::Write,
            ExecFault::Memory => RunFault::Memory,
        }
    }
}

impl From<SinkFault> for RunFault {
    ghost from_gives = { λ why made. made ≡ of_sink why };

    fn from(why: SinkFault) -> Self {
        match why {
            SinkFault::Failed => RunFault::Write,
            SinkFault::Memory => RunFault::Memory,
        }
    }
}
