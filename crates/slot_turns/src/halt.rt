//! Steps that stop.
ghost use Rattle.std.specs.Prelude.{◌≡◌};

use code_rows::Stop;

/// Why a step stops, and how many cells there were then.
#[derive(Clone, Copy)]
pub struct Halt {
    pub stop: Stop,
    pub made: u64,
}

/// There is too little memory.
pub fn no_memory() -> Halt
    ensures { result.stop ≡ Stop.Memory }
{
    Halt {
        stop: Stop::Memory,
        made: 0,
    }
}
