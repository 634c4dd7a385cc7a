//! Why a text has no meaning of its names.
ghost use Rattle.std.specs.Prelude.{◌≡◌, IfOk, IfErr, Some};
ghost use Rattle.name_resolve.specs.declared.refusal.NameRefusal.TheVariants.{Memory};
ghost use Rattle.name_resolve.specs.Judges.{Says};

use name_events::NameRule;
use spark_base::Pos;
use std::alloc::{AllocError, AllocFailed};
use thiserror::Error;

/// Why a text has no meaning of its names.
#[derive(Clone, Copy, Debug, PartialEq, Eq, Error)]
pub enum NameRefusal {
    /// N1: nothing of that name is declared, or something else than may stand there.
    #[error("unknown name")]
    Unknown(Pos),
    /// N2: a second declaration of a name in one region, which completes none.
    #[error("declared twice")]
    Twice(Pos),
    /// N3: it is in a private part or a body, in the visible parts of two packages in use, or its
    /// package has no `with`.
    #[error("not visible")]
    NotVisible(Pos),
    /// N4: its declaration stands later.
    #[error("used before its declaration")]
    TooEarly(Pos),
    /// N5: what completes the declaration is missing, or the specification of the package body.
    #[error("body missing")]
    NoBody(Pos),
    /// N6: the name after `end` isn't the unit's.
    #[error("closing name differs")]
    WrongEnd(Pos),
    /// There is too little memory.
    #[error("out of memory")]
    Memory,
}

impl From<AllocError> for NameRefusal {
    ghost from_gives = { λ _ refusal. refusal ≡ Memory };

    fn from(_: AllocError) -> Self {
        NameRefusal::Memory
    }
}

impl<T: Drop> From<AllocFailed<T>> for NameRefusal {
    ghost from_gives = { λ _ refusal. refusal ≡ Memory };

    fn from(_: AllocFailed<T>) -> Self {
        NameRefusal::Memory
    }
}

/// The refusal of a broken rule.
pub fn refused(rule: NameRule, pos: Pos) -> NameRefusal
    ensures { Says result (Some (rule, pos)) }
{
    match rule {
        NameRule::Unknown => NameRefusal::Unknown(pos),
        NameRule::Twice => NameRefusal::Twice(pos),
        NameRule::NotVisible => NameRefusal::NotVisible(pos),
        NameRule::TooEarly => NameRefusal::TooEarly(pos),
        NameRule::NoBody => NameRefusal::NoBody(pos),
        NameRule::WrongEnd => NameRefusal::WrongEnd(pos),
    }
}

/// A number in 32 bits. More than four billion declarations count as too little memory.
pub fn narrowed(number: usize) -> Result<u32, NameRefusal>
    ensures ok { IfOk result (λ narrow. narrow ≡ number) }
    ensures memory { IfErr result (λ refusal. refusal ≡ Memory) }
{
    match u32::try_from(number) {
        Ok(narrow) => Ok(narrow),
        Err(_) => Err(NameRefusal::Memory),
    }
}
