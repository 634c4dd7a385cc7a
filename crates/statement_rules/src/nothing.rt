//! Whether any fault is found.
ghost use Rattle.std.specs.Prelude.{◌≡◌, is_none};

use type_definitions::Fault;

/// Whether no fault is found.
pub fn is_nothing(found: Option<Fault>) -> bool
    ensures { result ≡ is_none found }
{
    match found {
        None => true,
        Some(_) => false,
    }
}
