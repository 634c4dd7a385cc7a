//! Why a subprogram isn't laid out.
ghost use Rattle.std.specs.Prelude.{◌≡◌};

use flow_acts::ActFault;
use std::alloc::AllocError;

/// Why a subprogram isn't laid out.
#[derive(Clone, Copy)]
pub enum SubFault {
    /// Out of memory, or more than can be counted.
    Memory,
    /// A name of an act, of a fact or of a leak check has more than 16 selectors.
    TooDeep,
    /// Its acts add more than 512 facts.
    TooManyFacts,
}

impl From<AllocError> for SubFault {
    ghost use Rattle.sub_layout.specs.declared.fault.SubFault.TheVariants.{Memory};

    ghost from_gives = { λ _ e. e ≡ Memory };

    fn from(_fault: AllocError) -> SubFault {
        SubFault::Memory
    }
}

impl From<ActFault> for SubFault {
    ghost use Rattle.sub_layout.specs.Faults.{fault_by};

    ghost from_gives = { λ fault e. e ≡ fault_by fault };

    fn from(fault: ActFault) -> SubFault {
        match fault {
            ActFault::Memory => SubFault::Memory,
            ActFault::TooDeep => SubFault::TooDeep,
        }
    }
}
