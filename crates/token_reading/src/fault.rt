//! Why no tree was read.
ghost use Rattle.token_reading.specs.declared.fault.ReadFault.TheVariants.{Memory};
ghost use Rattle.std.specs.Prelude.{◌≡◌};

use std::alloc::{AllocError, AllocFailed};
use thiserror::Error;

/// Why no tree was read. The cursor stands at the faulty token.
#[derive(Clone, Copy, Debug, PartialEq, Eq, Error)]
pub enum ReadFault {
    /// No source has this token there, as a file of `;` alone.
    #[error("syntax")]
    Refused,
    /// The token opens a construct where no level is left, or is an operator past the limit of its
    /// outermost expression, as the last of 1,025 signs (`docs/TOOL.md`, "Limits").
    #[error("nesting too deep")]
    OverLimit,
    /// There is too little memory for the tree.
    #[error("out of memory")]
    Memory,
}

impl From<AllocError> for ReadFault {
    ghost from_gives = { λ _ fault. fault ≡ Memory };

    fn from(_: AllocError) -> Self {
        ReadFault::Memory
    }
}

impl<T: Drop> From<AllocFailed<T>> for ReadFault {
    ghost from_gives = { λ _ fault. fault ≡ Memory };

    fn from(_: AllocFailed<T>) -> Self {
        ReadFault::Memory
    }
}
