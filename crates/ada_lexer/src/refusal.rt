//! Why a text has no tokens.

use spark_base::Pos;
use std::alloc::{AllocError, AllocFailed};
use thiserror::Error;

/// The first lexical fault of a text, at the position of the byte that it names, or out of memory.
#[derive(Clone, Copy, Debug, PartialEq, Eq, Error)]
pub enum LexRefusal {
    /// L1: a byte that begins no token, as `!`, or that may not stand in a string, as a tab (Ada
    /// 2012, 2.1 and 2.2).
    #[error("{}:{}: this byte begins no token", .0.line, .0.column)]
    BadByte(Pos),
    /// L2: an identifier with two adjacent underscores or a last one, as `a_` (Ada 2012, 2.3); its
    /// first byte.
    #[error("{}:{}: this identifier misplaces an underscore", .0.line, .0.column)]
    BadIdentifier(Pos),
    /// L3: a number that isn't digits with single underscores between them, as `1_`, that a letter,
    /// `#` or a fraction follows, as `1a`, or whose value is above 2147483648 (Ada 2012, 2.4.1);
    /// its first byte.
    #[error("{}:{}: this number is out of form or out of range", .0.line, .0.column)]
    BadNumber(Pos),
    /// L4: a string that its line doesn't close, as `"` alone (Ada 2012, 2.6); its first byte.
    #[error("{}:{}: this string is open at the end of its line", .0.line, .0.column)]
    OpenString(Pos),
    /// L5: the token after the last one for which there is room, as `;` where there is room for
    /// none; its first byte.
    #[error("{}:{}: there is no room for this token", .0.line, .0.column)]
    TooMany(Pos),
    /// There was no memory for the tokens.
    #[error("out of memory")]
    Memory,
}

impl From<AllocError> for LexRefusal {
    ghost use Rattle.std.specs.Prelude.{◌≡◌};
    ghost use Rattle.ada_lexer.specs.declared.refusal.LexRefusal.TheVariants.{Memory};

    ghost from_gives = { λ _ refusal. refusal ≡ Memory };

    fn from(_error: AllocError) -> LexRefusal {
        LexRefusal::Memory
    }
}

impl<T: Drop> From<AllocFailed<T>> for LexRefusal {
    ghost use Rattle.std.specs.Prelude.{◌≡◌};
    ghost use Rattle.ada_lexer.specs.declared.refusal.LexRefusal.TheVariants.{Memory};

    ghost from_gives = { λ _ refusal. refusal ≡ Memory };

    fn from(_error: AllocFailed<T>) -> LexRefusal {
        LexRefusal::Memory
    }
}
