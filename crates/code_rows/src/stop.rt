//! Why a step isn't done.
ghost use Rattle.std.specs.Prelude.{◌≡◌};

use std::alloc::{AllocError, AllocFailed};

/// A predefined exception (Ada 2012, 11.1 and A.13).
#[derive(Clone, Copy, Debug, PartialEq, Eq)]
pub enum Exception {
    ConstraintError,
    ProgramError,
    StorageError,
    DataError,
    EndError,
}

/// Why a step isn't done.
#[derive(Clone, Copy, Debug, PartialEq, Eq)]
pub enum Stop {
    /// An exception is raised.
    Raises(Exception),
    /// There is too little memory.
    Memory,
}

impl From<AllocError> for Stop {
    ghost use Rattle.code_rows.specs.declared.stop.Stop.TheVariants.{Memory};

    ghost from_gives = { λ _ s. s ≡ Memory };

    fn from(_: AllocError) -> Self {
        Stop::Memory
    }
}

impl<T: Drop> From<AllocFailed<T>> for Stop {
    ghost use Rattle.code_rows.specs.declared.stop.Stop.TheVariants.{Memory};

    ghost from_gives = { λ _ s. s ≡ Memory };

    fn from(_: AllocFailed<T>) -> Self {
        Stop::Memory
    }
}
