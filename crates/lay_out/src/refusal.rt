//! Why a program isn't laid out.
ghost use Rattle.std.specs.Prelude.{◌≡◌};
ghost use Rattle.lay_out.specs.declared.refusal.LayRefusal.TheVariants.{Memory};

use spark_base::Pos;
use std::alloc::AllocError;
use thiserror::Error;

/// Why a program isn't laid out: the first limit that it is beyond (`docs/TOOL.md`, "Limits").
#[derive(Clone, Copy, Debug, PartialEq, Eq, Error)]
pub enum LayRefusal {
    /// M1: a name has more than 16 selectors, at its first token.
    #[error("name too deep")]
    NameTooDeep(Pos),
    /// G1: a subprogram has more than 16,384 points, at its identifier.
    #[error("too many points")]
    TooManyPoints(Pos),
    /// G2: the acts of a subprogram add more than 512 facts, at its identifier.
    #[error("too many facts")]
    TooManyFacts(Pos),
    /// There is too little memory.
    #[error("out of memory")]
    Memory,
}

impl From<AllocError> for LayRefusal {
    ghost from_gives = { λ _ refusal. refusal ≡ Memory };

    fn from(_: AllocError) -> Self {
        LayRefusal::Memory
    }
}
