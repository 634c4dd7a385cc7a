//! The sorts of words, and which types have the same ones.
ghost use Rattle.std.specs.Prelude.{◌≡◌, IfSome, IsTrue, Some, true};
ghost use Rattle.type_definitions.specs.Types.{shape_of};
ghost use Rattle.machine.specs.Typed.{is_pointer, points_to, same_kind, same_designated, same_sort, sorts};
ghost use Rattle.run_codes.specs.Flat.{kind_of};
ghost use Rattle.run_codes.specs.Lowered.{are_composite, option_map, sort_of, scalar_of, same_scalar, one_type};
ghost use Rattle.type_sorts.specs.Sorted.{AreSorted};
ghost use Rattle.run_lowering.specs.Sorts.{sort_in, scalar_in};

use crate::types::{is_composite, meant_type};
use run_values::Kind;
use type_definitions::View;
use type_table::TypeTable;

/// The sort of a word.
#[derive(Clone, Copy)]
pub enum Sort {
    /// A value of Integer.
    Whole,
    /// One of an enumeration.
    Position,
    /// An access value that designates objects of a type.
    Pointer { of: u32 },
}

/// A scalar type: the sort of its word, and its bounds.
#[derive(Clone, Copy)]
pub struct Scalar {
    pub sort: Sort,
    pub low: i32,
    pub high: i32,
}

/// The sort of the word of a scalar or access type.
#[tactic(auto, using(crate::proofs::Shapes::sort_viewed))]
pub fn sort_of(table: &TypeTable, t: u32) -> Option<Sort>
    ensures { option_map sort_in result ≡ sort_of (shape_of table.now t) }
{
    match table.view(t) {
        View::Whole { .. } => Some(Sort::Whole),
        View::Listed { .. } => Some(Sort::Position),
        View::Access { designated, .. } => Some(Sort::Pointer { of: designated }),
        _ => None,
    }
}

/// The kind of the words of a sort.
pub fn kind_of(sort: Sort) -> Kind
    ensures { result ≡ kind_of (sort_in sort) }
{
    match sort {
        Sort::Whole => Kind::Int,
        Sort::Position => Kind::Enum,
        Sort::Pointer { .. } => Kind::Access,
    }
}

/// A scalar type.
#[tactic(auto, using(crate::proofs::Shapes::scalar_viewed))]
pub fn scalar_of(table: &TypeTable, t: u32) -> Option<Scalar>
    ensures { IfSome result (λ s. scalar_of (shape_of table.now t) ≡ Some (scalar_in s)) }
{
    match table.view(t) {
        View::Whole { low, high } => Some(Scalar {
            sort: Sort::Whole,
            low,
            high,
        }),
        View::Listed { low, high } => Some(Scalar {
            sort: Sort::Position,
            low: i32::try_from(low).ok()?,
            high: i32::try_from(high).ok()?,
        }),
        _ => None,
    }
}

/// Whether two views are both of Integer, or both of enumerations.
#[tactic(auto, using(crate::proofs::Shapes::kind_viewed))]
fn same_kind(table: &TypeTable, a: u32, b: u32) -> bool
    ensures { result ≡ same_kind (shape_of table.now a) (shape_of table.now b) }
{
    match (table.view(a), table.view(b)) {
        (View::Whole { .. }, View::Whole { .. }) => true,
        (View::Listed { .. }, View::Listed { .. }) => true,
        _ => false,
    }
}

/// Whether two types are one, or both of Integer, or both enumerations.
pub fn same_designated(table: &TypeTable, a: u32, b: u32) -> bool
    ensures { result ≡ same_designated table.now a b }
{
    meant_type(table, a) == meant_type(table, b) || same_kind(table, a, b)
}

/// Whether words of two sorts stand for each other.
pub fn same_sort(table: &TypeTable, a: Sort, b: Sort) -> bool
    ensures { result ≡ same_sort table.now (sort_in a) (sort_in b) }
{
    match (a, b) {
        (Sort::Whole, Sort::Whole) | (Sort::Position, Sort::Position) => true,
        (Sort::Pointer { of: a }, Sort::Pointer { of: b }) => same_designated(table, a, b),
        _ => false,
    }
}

/// Whether values of two types have words of the same sorts. Two types of several words have the
/// same ones only where both mean one type.
#[tactic(auto, using(crate::proofs::Shapes::one_sort, crate::proofs::Shapes::one_meant))]
pub fn one_type(table: &TypeTable, a: u32, b: u32) -> bool
    requires { AreSorted table.now }
    ensures { IsTrue result → IsTrue (one_type table.now a b) }
{
    match (sort_of(table, a), sort_of(table, b)) {
        (Some(a), Some(b)) => same_sort(table, a, b),
        (None, None) => meant_type(table, a) == meant_type(table, b),
        _ => false,
    }
}

/// Whether two sorts are both of Integer, or both of enumerations.
pub fn same_scalar(a: Sort, b: Sort) -> bool
    ensures { result ≡ same_scalar (sort_in a) (sort_in b) }
{
    match (a, b) {
        (Sort::Whole, Sort::Whole) | (Sort::Position, Sort::Position) => true,
        _ => false,
    }
}

/// Whether it is an access type.
#[tactic(auto, using(crate::proofs::Shapes::pointer_one))]
pub(crate) fn is_pointer(table: &TypeTable, t: u32) -> bool
    requires { AreSorted table.now }
    ensures { IsTrue result → is_pointer (sorts table.now t) ≡ true }
{
    matches!(sort_of(table, t), Some(Sort::Pointer { .. }))
}

/// Whether an access type designates objects of a type.
#[tactic(auto, using(crate::proofs::Shapes::pointed_one))]
pub(crate) fn points_to(table: &TypeTable, t: u32, want: u32) -> bool
    requires { AreSorted table.now }
    ensures { IsTrue result → points_to table.now t (sorts table.now want) ≡ true }
{
    match sort_of(table, want) {
        Some(Sort::Pointer { of }) => same_designated(table, of, t),
        _ => false,
    }
}

/// Whether an aggregate of a type is one of another type.
pub(crate) fn is_aggregate_of(table: &TypeTable, want: u32, t: u32) -> bool
    requires { AreSorted table.now }
    ensures composite { IsTrue result → are_composite table.now want t ≡ true }
    ensures one { IsTrue result → one_type table.now t want ≡ true }
{
    is_composite(table, want) && is_composite(table, t) && one_type(table, t, want)
}
