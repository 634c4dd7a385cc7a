//! Ranges of rows.
ghost use Rattle.std.specs.Prelude.{◌≡◌, ◌+◌, IfSome};

use code_rows::Range;

/// The rows from one on, up to an end.
pub(crate) fn since(first: usize, end: usize) -> Option<Range>
    ensures first { IfSome result (λ r. r.first ≡ first) }
    ensures end { IfSome result (λ r. r.first + r.count ≡ end) }
{
    let count = u32::try_from(end.checked_sub(first)?).ok()?;
    let first = u32::try_from(first).ok()?;
    Some(Range { first, count })
}
