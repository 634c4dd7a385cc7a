//! Why acts aren't given.
ghost use Rattle.std.specs.Prelude.{◌≡◌};

use place_names::TooDeep;
use std::alloc::AllocError;

/// Why the acts or the leak checks of an instruction aren't given.
#[derive(Clone, Copy)]
pub enum ActFault {
    /// Out of memory, or more acts than a `u32` counts.
    Memory,
    /// A name of an act, of a fact that it adds or of a leak check has more than 16 selectors.
    TooDeep,
}

impl From<AllocError> for ActFault {
    ghost use Rattle.flow_acts.specs.declared.fault.ActFault.TheVariants.{Memory};

    ghost from_gives = { λ _ e. e ≡ Memory };

    fn from(_fault: AllocError) -> ActFault {
        ActFault::Memory
    }
}

impl From<TooDeep> for ActFault {
    ghost use Rattle.flow_acts.specs.declared.fault.ActFault.TheVariants.{TooDeep as Deep};

    ghost from_gives = { λ _ e. e ≡ Deep };

    fn from(_fault: TooDeep) -> ActFault {
        ActFault::TooDeep
    }
}
