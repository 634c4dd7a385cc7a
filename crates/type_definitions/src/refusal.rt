//! Why a program isn't typed.
ghost use Rattle.std.specs.Prelude.{◌≡◌};
ghost use Rattle.type_definitions.specs.declared.refusal.TypeRefusal.TheVariants.{Memory};

use resolved_tree::Pos;
use std::alloc::{AllocError, AllocFailed};
use thiserror::Error;

/// Why a program isn't typed: the first broken sentence on types (`docs/LANGUAGE.md`, "Types").
#[derive(Clone, Copy, Debug, PartialEq, Eq, Error)]
pub enum TypeRefusal {
    /// Y1: the type has too many words.
    #[error("type too large")]
    TooLarge(Pos),
    /// Y2: the type has too many access parts, or one with too many selectors.
    #[error("too many access parts")]
    TooManyParts(Pos),
    /// Y3: the low bound of the array is above the high one.
    #[error("array without elements")]
    NoElements(Pos),
    /// K1: an expression hasn't the type that its place demands, or a name is nothing that may
    /// stand there.
    #[error("wrong type")]
    WrongType(Pos),
    /// K2: what is changed is no variable.
    #[error("not a variable")]
    NotVariable(Pos),
    /// K3: the actuals of a call don't fit its profile, or a body's profile its declaration's.
    #[error("wrong profile")]
    WrongProfile(Pos),
    /// K4: the choices of a case, or the parts of an aggregate, are missing or doubled.
    #[error("choice missing or doubled")]
    BadChoices(Pos),
    /// K5: an owning expression stands where none may stand.
    #[error("owning expression out of place")]
    OwningPlace(Pos),
    /// K6: an anonymous access type or a traversal call stands where none may stand.
    #[error("anonymous access out of place")]
    AnonymousPlace(Pos),
    /// K7: a bound, a choice or a named number isn't static, or a bound lies outside.
    #[error("not static")]
    NotStatic(Pos),
    /// K8: the initial value of a package object calls a function or names an owning object.
    #[error("package value")]
    PackageValue(Pos),
    /// There is too little memory.
    #[error("out of memory")]
    Memory,
}

impl From<AllocError> for TypeRefusal {
    ghost from_gives = { λ _ refusal. refusal ≡ Memory };

    fn from(_: AllocError) -> Self {
        TypeRefusal::Memory
    }
}

impl<T: Drop> From<AllocFailed<T>> for TypeRefusal {
    ghost from_gives = { λ _ refusal. refusal ≡ Memory };

    fn from(_: AllocFailed<T>) -> Self {
        TypeRefusal::Memory
    }
}
