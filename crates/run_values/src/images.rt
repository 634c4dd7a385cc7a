//! The attribute Image of Integer (Ada 2012, 3.5).
ghost use Rattle.std.specs.Prelude.{◌≡◌, IfOk};
ghost use Rattle.run_values.specs.Images as spec;

use std::alloc::{AllocError, Global};

/// The image of a value: its decimal literal, after a blank or a minus sign.
pub fn image(alloc: Global, v: i32) -> Result<Vec<u8>, AllocError>
    ensures { IfOk result (λ text. text.items ≡ spec.image v) }
{
    let text = if v < 0 {
        v.to_string(alloc)?
    } else {
        format!(in alloc; " {v}")?
    };
    Ok(text.into_bytes())
}
