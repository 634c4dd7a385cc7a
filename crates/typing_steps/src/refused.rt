//! The refusal that a fault gives.
ghost use Rattle.std.specs.Prelude.{◌≡◌};
ghost use Rattle.type_definitions.specs.Refusals.{refusal_of, sentence_refusal, size_refusal};

use spark_base::Pos;
use type_definitions::{Fault, TypeRefusal};

/// One of Y1 to Y3, by its number.
pub fn size_refusal(code: u32, pos: Pos) -> TypeRefusal
    ensures { result ≡ size_refusal code pos }
{
    match code {
        1 => TypeRefusal::TooLarge(pos),
        2 => TypeRefusal::TooManyParts(pos),
        _ => TypeRefusal::NoElements(pos),
    }
}

/// One of K1 to K8, by its number.
pub fn sentence_refusal(code: u32, pos: Pos) -> TypeRefusal
    ensures { result ≡ sentence_refusal code pos }
{
    match code {
        1 => TypeRefusal::WrongType(pos),
        2 => TypeRefusal::NotVariable(pos),
        3 => TypeRefusal::WrongProfile(pos),
        4 => TypeRefusal::BadChoices(pos),
        5 => TypeRefusal::OwningPlace(pos),
        6 => TypeRefusal::AnonymousPlace(pos),
        7 => TypeRefusal::NotStatic(pos),
        _ => TypeRefusal::PackageValue(pos),
    }
}
