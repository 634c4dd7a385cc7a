//! Bounds of ranges.
ghost use Rattle.std.specs.Prelude.{◌≡◌, ◌<◌, length, Some, None, if◌then◌else◌};
ghost use Rattle.resolved_tree.specs.Nodes.{code_at, tree_at};
ghost use Rattle.type_definitions.specs.Gathered.{are_static_bounds, array_bounds, bound_pair, constrained_shape, is_asked, is_bound, is_bounded_range, is_whole, natural_of, whole_bounds};
ghost use Rattle.type_definitions.specs.Statics.{value};
ghost use Rattle.type_definitions.specs.Statements.{known_value};
ghost use Rattle.type_gather.specs.Gathering.{context};

use crate::gathering::Gathering;
use expression_types::{INTEGER, UNTYPED, is_sound};
use resolved_tree::{CodeNode, Rows};
use spark_base::Listed;
use std::alloc::Global;
use type_definitions::{Shape, Static, View};

/// The number of a value.
fn known_value(value: Option<Static>) -> i32
    ensures { result ≡ known_value value }
{
    match value {
        Some(value) => value.value,
        None => 0,
    }
}

/// The bounds of a subtype of Integer.
fn whole_bounds(view: View) -> (i32, i32)
    ensures { result ≡ whole_bounds view }
{
    match view {
        View::Whole { low, high } => (low, high),
        _ => (1, 1),
    }
}

/// Whether it is a subtype of Integer.
fn is_whole(view: View) -> bool
    ensures { result ≡ is_whole view }
{
    matches!(view, View::Whole { .. })
}

/// A position in an enumeration, from a value.
fn natural_of(value: i32) -> u32
    ensures { result ≡ natural_of value }
{
    if value < 0 { 0 } else { value as u32 }
}

/// The definition of a subtype with bounds of its own.
pub fn constrained_shape(alloc: Global, view: View, low: i32, high: i32) -> Shape
    ensures { result ≡ constrained_shape view (low, high) }
{
    match view {
        View::Listed { .. } => Shape::Listed {
            literals: Listed::new(alloc),
            low: natural_of(low),
            high: natural_of(high),
        },
        _ => Shape::Whole { low, high },
    }
}

impl Gathering {
    /// The value of a bound of a range, where it is static and of the type that is demanded.
    fn bound(&self, rows: &Rows, base: u32, bound: usize) -> Option<i32>
        requires { bound < length rows.now.0 }
        ensures { result ≡ (if is_bound (context self.now) base (tree_at rows.now bound)
            then Some (known_value (value (context self.now) (tree_at rows.now bound))) else None) }
    {
        let reader = self.reader(rows);
        let value = reader.value(bound);
        if reader.is_static(bound) && is_sound(base, value) {
            Some(known_value(value))
        } else {
            None
        }
    }

    /// The bounds of a range of a type. Where they are no static ones of that type, it has one
    /// value.
    pub fn bound_pair(&self, rows: &Rows, base: u32, low: usize, high: usize) -> (i32, i32)
        requires low { low < length rows.now.0 }
        requires high { high < length rows.now.0 }
        ensures { result ≡ bound_pair (context self.now) base (tree_at rows.now low) (tree_at rows.now high) }
    {
        match (self.bound(rows, base, low), self.bound(rows, base, high)) {
            (Some(first), Some(last)) => (first, last),
            _ => (1, 1),
        }
    }

    /// Whether the bounds of a range are static and of its type.
    pub fn are_static_bounds(&self, rows: &Rows, base: u32, low: usize, high: usize) -> bool
        requires low { low < length rows.now.0 }
        requires high { high < length rows.now.0 }
        ensures { result ≡ are_static_bounds (context self.now) base (tree_at rows.now low) (tree_at rows.now high) }
    {
        self.bound(rows, base, low).is_some() && self.bound(rows, base, high).is_some()
    }

    /// Whether it is asked which fault is told. Else the bounds of each range count as known.
    pub fn is_asked(&self, rows: &Rows) -> bool
        ensures { result ≡ is_asked (context self.now) }
    {
        self.reader(rows).is_untyped(UNTYPED)
    }

    /// Whether the bounds of the index of an array are known.
    pub fn is_bounded_range(&self, rows: &Rows, range: usize) -> bool
        requires { range < length rows.now.1 }
        ensures { result ≡ is_bounded_range (context self.now) (code_at rows.now range) }
    {
        match rows.code(range) {
            CodeNode::Bounds { low, high } => self.are_static_bounds(rows, INTEGER, *low, *high),
            CodeNode::Constrained { low, high, .. } => {
                self.are_static_bounds(rows, INTEGER, *low, *high)
            }
            CodeNode::Marked { mark } => {
                let reader = self.reader(rows);
                let of = reader.marked(*mark);
                is_whole(reader.full(of)) && reader.is_bounded(of)
            }
            _ => false,
        }
    }

    /// The bounds of the index of an array.
    pub fn array_bounds(&self, rows: &Rows, range: usize) -> (i32, i32)
        requires { range < length rows.now.1 }
        ensures { result ≡ array_bounds (context self.now) (code_at rows.now range) }
    {
        match rows.code(range) {
            CodeNode::Bounds { low, high } => self.bound_pair(rows, INTEGER, *low, *high),
            CodeNode::Constrained { low, high, .. } => self.bound_pair(rows, INTEGER, *low, *high),
            CodeNode::Marked { mark } => {
                let reader = self.reader(rows);
                whole_bounds(reader.full(reader.marked(*mark)))
            }
            _ => (1, 1),
        }
    }
}
