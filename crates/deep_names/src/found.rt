//! The first of some positions.
ghost use Rattle.std.specs.Prelude.{◌≡◌, ◌+◌, ◌≤◌, nat_lt, Some};
ghost use Rattle.spark_base.specs.declared.limits.TheConstants.{SELECTORS};
ghost use Rattle.deep_names.specs.Found.{earlier_of, found_if, parts_deep};

use place_names::PlaceTail;
use spark_base::{Pos, SELECTORS};
use std::cmp::Ordering;

/// The first of two positions.
fn earlier_pos(p: Pos, q: Pos) -> Pos
    ensures { earlier_of (Some p) (Some q) ≡ Some result }
{
    match p.cmp(&q) {
        Ordering::Less | Ordering::Equal => p,
        Ordering::Greater => q,
    }
}

/// The first of two positions, where there are any.
pub(crate) fn earlier(a: Option<Pos>, b: Option<Pos>) -> Option<Pos>
    ensures { result ≡ earlier_of a b }
{
    match (a, b) {
        (Some(p), Some(q)) => Some(earlier_pos(p, q)),
        (Some(p), None) => Some(p),
        (None, found) => found,
    }
}

/// The position of a name with so many selectors, where they are too many.
pub(crate) fn name_depth(pos: Pos, count: usize) -> Option<Pos>
    ensures { result ≡ found_if (nat_lt SELECTORS count) pos }
{
    if count > SELECTORS { Some(pos) } else { None }
}

/// Whether so many selectors and so many more are too many.
fn is_past(count: usize, more: usize) -> bool
    ensures { result ≡ nat_lt SELECTORS (count + more) }
{
    count > SELECTORS || more > SELECTORS - count
}

/// The position of a name with so many selectors and one more or none, where some of these parts of
/// it has too many.
pub(crate) fn parts_depth(pos: Pos, count: usize, more: usize, parts: &[PlaceTail]) -> Option<Pos>
    requires { more ≤ 1 }
    ensures { result ≡ parts_deep pos (count + more) parts.now }
{
    'parts: for part in parts {
        if is_past(count, part.sels().len() + more) {
            return Some(pos);
        }
    }
    None
}
