//! How many elements arrays have.
ghost use Rattle.std.specs.Prelude.{◌≡◌};
ghost use Rattle.type_definitions.specs.Types.{span};

/// How many values a range has.
pub(crate) fn span(low: i32, high: i32) -> u64
    ensures { result ≡ span low high }
{
    if low <= high {
        (i64::from(high) - i64::from(low)).unsigned_abs() + 1
    } else {
        0
    }
}
