//! Whether a table of types is fit for runs.
ghost use Rattle.std.specs.Prelude.{◌≡◌, ◌<◌, ℕ, IfOk, IsTrue, length, slice_get, true};
ghost use Rattle.std.specs.List.{list_all};
ghost use Rattle.type_definitions.specs.Types.{shape_found, full};
ghost use Rattle.type_definitions.specs.Entries.{boolean};
ghost use Rattle.settled_types.specs.TableLaws.Ranks as spec;
ghost use Rattle.settled_types.specs.TableLaws.Ranks.{shape_all, parent_all, is_same_as, is_listed, fits, IsFit};

use std::alloc::{AllocError, Global};
use type_definitions::{Component, Info, Shape, View};
use type_ranks::ranks;
use type_table::TypeTable;

/// The declaration of Boolean.
const BOOLEAN: u32 = 3;

/// The rank of a type.
fn rank(ranks: &[usize], t: usize) -> usize
    ensures { result ≡ spec.rank ranks.now t }
{
    match ranks.get(t) {
        Some(rank) => *rank,
        None => 0,
    }
}

/// Whether a type has a lower rank than this.
fn is_below(ranks: &[usize], limit: usize, t: u32) -> bool
    ensures { result ≡ spec.is_below ranks.now limit t }
{
    rank(ranks, t as usize) < limit
}

/// Whether the types of all components have lower ranks.
fn are_below(ranks: &[usize], limit: usize, components: &[Component]) -> bool
    ensures { result ≡ list_all (λ component. spec.is_below ranks.now limit component.of) components.now }
{
    components
        .iter()
        .all(|component| is_below(ranks, limit, component.of))
}

/// Whether the types that a definition is made of have lower ranks.
fn is_shape_below(ranks: &[usize], limit: usize, shape: &Shape) -> bool
    ensures { result ≡ shape_all (spec.is_below ranks.now limit) shape.now }
{
    match shape {
        Shape::Fields { components } => are_below(ranks, limit, components.as_slice()),
        Shape::Elements { element, .. } => is_below(ranks, limit, *element),
        Shape::Same { of } => is_below(ranks, limit, *of),
        Shape::Whole { .. } | Shape::Listed { .. } | Shape::Access { .. } => true,
    }
}

/// Whether the type in a mark has a lower rank.
fn is_parent_below(ranks: &[usize], limit: usize, parent: Option<u32>) -> bool
    ensures { result ≡ parent_all (spec.is_below ranks.now limit) parent }
{
    match parent {
        Some(t) => is_below(ranks, limit, t),
        None => true,
    }
}

/// Whether all that a type is made of has lower ranks.
fn is_ranked(ranks: &[usize], t: usize, info: &Info) -> bool
    ensures { result ≡ spec.is_ranked ranks.now t info.now }
{
    let limit = rank(ranks, t);
    is_shape_below(ranks, limit, &info.shape) && is_parent_below(ranks, limit, info.parent)
}

/// Whether a type is a subtype without a constraint.
fn is_same_as(table: &[Info], t: u32) -> bool
    ensures { result ≡ is_same_as (shape_found (slice_get table.now t)) }
{
    match table.get(t as usize) {
        Some(info) => matches!(info.shape, Shape::Same { .. }),
        None => false,
    }
}

/// Whether what a subtype without a constraint is the same as is no such subtype.
fn is_plain(table: &[Info], shape: &Shape) -> bool
    ensures { result ≡ spec.is_plain table.now shape.now }
{
    match shape {
        Shape::Same { of } => !is_same_as(table, *of),
        _ => true,
    }
}

/// Whether a type is as is asked.
fn fits(table: &TypeTable, ranks: &[usize], t: u32) -> bool
    ensures { result ≡ fits table.now ranks.now t (slice_get table.now t) }
{
    let infos = table.infos();
    match infos.get(t as usize) {
        Some(info) => {
            is_ranked(ranks, t as usize, info)
                && is_plain(infos, &info.shape)
                && table.words(t) <= 65_536
        }
        None => true,
    }
}

/// Whether all of so many types are.
fn all_fit(table: &TypeTable, ranks: &[usize], types: u32) -> bool
    ensures sound { IsTrue result → (t : ℕ) → t < types → fits table.now ranks.now t (slice_get table.now t) ≡ true }
    ensures complete { ((t : ℕ) → t < types → fits table.now ranks.now t (slice_get table.now t) ≡ true) → IsTrue result }
{
    'types: for t in 0..types {
        if !fits(table, ranks, t) {
            return false;
        }
    }
    true
}

/// Whether Boolean is an enumeration.
fn has_truth(table: &TypeTable) -> bool
    ensures { result ≡ is_listed (full table.now boolean) }
{
    matches!(table.view(BOOLEAN), View::Listed { .. })
}

/// How many types there are. More than a number counts is too much for memory.
fn count(table: &TypeTable) -> Result<u32, AllocError>
    ensures { IfOk result (λ types. types ≡ length table.now) }
{
    match u32::try_from(table.infos().len()) {
        Ok(types) => Ok(types),
        Err(_) => Err(AllocError),
    }
}

/// Whether no type of the table has itself in it, all are within the limit of words, and Boolean is an
/// enumeration.
pub fn is_fit(alloc: Global, table: &TypeTable) -> Result<bool, AllocError>
    ensures sound { IfOk result (λ fit. IsTrue fit → IsFit table.now) }
    ensures complete { IfOk result (λ fit. IsFit table.now → IsTrue fit) }
{
    let types = count(table)?;
    let ranks = ranks(alloc, table.infos())?;
    Ok(all_fit(table, &ranks, types) && has_truth(table))
}
