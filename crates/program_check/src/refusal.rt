//! Why a program isn't checked.
ghost use Rattle.std.specs.Prelude.{◌≡◌};
ghost use Rattle.program_check.specs.declared.refusal.ProgramRefusal.TheVariants as refused;

use lay_out::LayRefusal;
use std::alloc::AllocError;
use type_definitions::TypeRefusal;

/// Why a program isn't checked.
#[derive(Clone, Copy)]
pub enum ProgramRefusal {
    /// It breaks a sentence on types.
    Mistyped(TypeRefusal),
    /// It is beyond a limit.
    Beyond(LayRefusal),
    /// There is too little memory.
    Memory,
}

impl From<TypeRefusal> for ProgramRefusal {
    ghost from_gives = { λ refusal made. made ≡ refused.Mistyped refusal };

    fn from(refusal: TypeRefusal) -> Self {
        ProgramRefusal::Mistyped(refusal)
    }
}

impl From<LayRefusal> for ProgramRefusal {
    ghost from_gives = { λ refusal made. made ≡ refused.Beyond refusal };

    fn from(refusal: LayRefusal) -> Self {
        ProgramRefusal::Beyond(refusal)
    }
}

impl From<AllocError> for ProgramRefusal {
    ghost from_gives = { λ _ made. made ≡ refused.Memory };

    fn from(_: AllocError) -> Self {
        ProgramRefusal::Memory
    }
}
