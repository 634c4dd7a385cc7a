//! The values that choices cover: which are doubled, and which are left out.
//!
//! Choices are sorted by their low ends, so that n of them take n log n steps, and n log² n where a
//! value is doubled.
ghost use Rattle.std.specs.Prelude.{◌≡◌, ◌<◌, ◌≤◌, [], length, take, pos, ◌+ℤ◌, int_le, true, IfOk, IsPermutation};
ghost use Rattle.std.specs.List.Sorted.{IsSortedByKey};
ghost use Rattle.std.specs.Ordering.{int_cmp};
ghost use Rattle.type_definitions.specs.declared.judgement.Cover.{Cover};
ghost use Rattle.type_definitions.specs.Faults.{noted};
ghost use Rattle.type_definitions.specs.Statements.{any_meets, bounds_of, covers, doubled, has_gap, meets};
ghost use Rattle.statement_rules.specs.Sweep.{has_values, is_first, leads, overlap, past, reach};

use expression_types::is_before;
use std::alloc::{AllocError, Global};
use type_definitions::{Cover, Fault, View};
use type_settled::demand;

/// The bounds of a scalar type.
pub fn bounds_of(view: View) -> (i64, i64)
    ensures { result ≡ bounds_of view }
{
    match view {
        View::Whole { low, high } => (i64::from(low), i64::from(high)),
        View::Listed { low, high } => (i64::from(low), i64::from(high)),
        _ => (1, 0),
    }
}

/// Whether two choices have a value in common.
fn meets(k: Cover, m: Cover) -> bool
    ensures { result ≡ meets k m }
{
    if k.high < k.low || m.high < m.low {
        return false;
    }
    k.low <= m.high && m.low <= k.high
}

/// Whether a choice has a value in common with one of others.
fn any_meets(k: Cover, before: &[Cover]) -> bool
    ensures { result ≡ any_meets k before.now }
{
    'others: for m in before {
        if meets(k, *m) {
            return true;
        }
    }
    false
}

/// With a fault at each choice that has a value of one before it: each is compared with all of
/// those, which takes n² steps for n choices. No text leads here, since its choices stand in order.
fn compared(found: Option<Fault>, covers: &[Cover]) -> Option<Fault>
    ensures { result ≡ noted found (doubled [] covers.now) }
{
    let mut found = found;
    'covers: for i in 0..covers.len() {
        let cover = covers[i];
        found = demand(found, 4, cover.at, !any_meets(cover, &covers[..i]));
    }
    found
}

/// The choices in the order of their low ends.
fn by_low(alloc: Global, covers: &[Cover]) -> Result<Vec<Cover>, AllocError>
    ensures permutation { IfOk result (λ sorted. IsPermutation covers.now sorted.items) }
    ensures sorted { IfOk result (λ sorted. IsSortedByKey (λ (k : Cover). k.low) int_cmp sorted.items) }
{
    let mut sorted = Vec::new(alloc);
    sorted.extend_from_slice(covers)?;
    sorted.sort_unstable_by_key(|cover| cover.low);
    Ok(sorted)
}

/// The value right after a choice.
fn behind(cover: Cover) -> i64
    ensures { result ≡ cover.high +ℤ pos 1 }
{
    i64::from(cover.high) + 1
}

/// Whether a choice covers a value.
fn covers(value: i64, cover: Cover) -> bool
    ensures { result ≡ covers value cover }
{
    i64::from(cover.low) <= value && value <= i64::from(cover.high)
}

/// The first value that isn't covered, after one more choice.
fn past(value: i64, cover: Cover) -> i64
    ensures { result ≡ past value cover }
{
    if covers(value, cover) {
        behind(cover)
    } else {
        value
    }
}

/// The first value, from a low one on, that choices don't cover, where they stand in the order of
/// their low ends.
fn reach(low: i64, sorted: &[Cover]) -> i64
    ensures { result ≡ reach low sorted.now }
{
    let mut value = low;
    'covers: for cover in sorted {
        value = past(value, *cover);
    }
    value
}

/// Whether choices in order leave out a value between the bounds.
fn leaves_out(low: i64, high: i64, sorted: &[Cover]) -> bool
    ensures { result ≡ int_le (reach low sorted.now) high }
{
    reach(low, sorted) <= high
}

/// Whether a value between the bounds is left out.
pub fn has_gap(alloc: Global, low: i64, high: i64, covers: &[Cover]) -> Result<bool, AllocError>
    ensures { IfOk result (λ gap. gap ≡ has_gap low high covers.now) }
{
    let sorted = by_low(alloc, covers)?;
    Ok(leaves_out(low, high, sorted.as_slice()))
}

/// Whether a choice has values.
fn has_values(cover: Cover) -> bool
    ensures { result ≡ has_values cover }
{
    cover.low <= cover.high
}

/// Whether a choice begins before a value, or before the end of the one in front of it.
fn overlap(from: i64, sorted: &[Cover]) -> bool
    ensures { result ≡ overlap from sorted.now }
{
    let mut from = from;
    'covers: for cover in sorted {
        if has_values(*cover) {
            if i64::from(cover.low) < from {
                return true;
            }
            from = behind(*cover);
        }
    }
    false
}

/// Whether choices have no value in common.
fn are_apart(alloc: Global, covers: &[Cover]) -> Result<bool, AllocError>
    ensures { IfOk result (λ apart. apart ≡ true → doubled [] covers.now ≡ []) }
{
    let sorted = by_low(alloc, covers)?;
    Ok(!overlap(i64::from(i32::MIN), sorted.as_slice()))
}

/// How many choices at the front have no value in common. The first that is doubled stands after
/// them, and is looked for by halves.
fn count_apart(alloc: Global, covers: &[Cover]) -> Result<usize, AllocError>
    ensures within { IfOk result (λ count. count ≤ length covers.now) }
    ensures apart { IfOk result (λ count. doubled [] (take count covers.now) ≡ []) }
{
    if are_apart(alloc, covers)? {
        return Ok(covers.len());
    }
    let mut low = 0;
    let mut high = covers.len();
    'halves: while high - low > 1 {
        let middle = low + (high - low) / 2;
        if are_apart(alloc, &covers[..middle])? {
            low = middle;
        } else {
            high = middle;
        }
    }
    Ok(low)
}

/// Whether a fault stands before each of the choices.
fn leads(fault: Fault, covers: &[Cover]) -> bool
    ensures { result ≡ leads fault covers.now }
{
    'covers: for cover in covers {
        if !is_before(fault.pos, cover.at) {
            return false;
        }
    }
    true
}

/// Whether a fault is found, and stands before each of the choices.
fn is_first(found: Option<Fault>, covers: &[Cover]) -> bool
    ensures { result ≡ is_first found covers.now }
{
    match found {
        Some(fault) => leads(fault, covers),
        None => false,
    }
}

/// With a fault at each choice that has a value of one before it, where those at the front have
/// none. In a text the first of them is the first fault, since the others follow it.
fn doubled_from(found: Option<Fault>, count: usize, covers: &[Cover]) -> Option<Fault>
    requires within { count < length covers.now }
    requires apart { doubled [] (take count covers.now) ≡ [] }
    ensures { result ≡ noted found (doubled [] covers.now) }
{
    let cover = covers[count];
    let first = demand(found, 4, cover.at, !any_meets(cover, &covers[..count]));
    if is_first(first, &covers[count + 1..]) {
        first
    } else {
        compared(found, covers)
    }
}

/// With a fault at each choice that has a value of one before it.
pub fn doubled(
    alloc: Global,
    found: Option<Fault>,
    covers: &[Cover],
) -> Result<Option<Fault>, AllocError>
    ensures { IfOk result (λ first. first ≡ noted found (doubled [] covers.now)) }
{
    let count = count_apart(alloc, covers)?;
    if count < covers.len() {
        Ok(doubled_from(found, count, covers))
    } else {
        Ok(found)
    }
}
