//! Why no units come of the tokens of a file.
ghost use Rattle.ada_parser.specs.declared.refusal.ParseRefusal.TheVariants.{Memory};
ghost use Rattle.std.specs.Prelude.{◌≡◌};

use spark_base::Pos;
use std::alloc::{AllocError, AllocFailed};
use thiserror::Error;

/// Why no units come of the tokens of a file.
#[derive(Clone, Copy, Debug, PartialEq, Eq, Error)]
pub enum ParseRefusal {
    /// P1: the tokens through that one are no viable prefix, as the end of an empty file.
    #[error("syntax")]
    Syntax(Pos),
    /// P2: the token there opens the 65th construct around it, as the last of 65 parentheses, or is
    /// the 1,025th operator of its outermost expression.
    #[error("nesting too deep")]
    TooDeep(Pos),
    /// P3: the same of a word that belongs to what the language leaves out, as `raise` for a
    /// statement.
    #[error("construct left out")]
    LeftOut(Pos),
    /// There is too little memory for the trees.
    #[error("out of memory")]
    Memory,
}

impl From<AllocError> for ParseRefusal {
    ghost from_gives = { λ _ refusal. refusal ≡ Memory };

    fn from(_: AllocError) -> Self {
        ParseRefusal::Memory
    }
}

impl<T: Drop> From<AllocFailed<T>> for ParseRefusal {
    ghost from_gives = { λ _ refusal. refusal ≡ Memory };

    fn from(_: AllocFailed<T>) -> Self {
        ParseRefusal::Memory
    }
}
