//! Numbers in 32 bits.
ghost use Rattle.std.specs.Prelude.{◌≡◌, IfOk};

use std::alloc::AllocError;

/// A number in 32 bits. More than four billion scopes or objects count as too little memory.
pub fn narrowed(number: usize) -> Result<u32, AllocError>
    ensures { IfOk result (λ narrow. narrow ≡ number) }
{
    match u32::try_from(number) {
        Ok(narrow) => Ok(narrow),
        Err(_) => Err(AllocError),
    }
}
