//! What is asked of the definition of a type.
ghost use Rattle.std.specs.Prelude.{◌≡◌, ◌≤◌, ◌^◌};
ghost use Rattle.type_definitions.specs.Types.{view_of, components_of, is_scalar, same_bounds, has_value, span};
ghost use Rattle.type_definitions.specs.Names.{extent, indexed, dereferenced, array_attribute};
ghost use Rattle.type_definitions.specs.Expressions.{is_access, is_composite, is_anonymous, designated, to_constant, element_type, fits_others};
ghost use Rattle.expression_types.specs.ComponentNames.{component_number};

use crate::look_up::INTEGER;
use crate::words::same_word;
use ada_tree::Word;
use resolved_tree::Attribute;
use type_definitions::{Component, Next, Shape, View};

/// A definition without what it lists.
pub fn view_of(shape: &Shape) -> View
    ensures { result ≡ view_of shape.now }
{
    match shape {
        Shape::Whole { low, high } => View::Whole {
            low: *low,
            high: *high,
        },
        Shape::Listed { low, high, .. } => View::Listed {
            low: *low,
            high: *high,
        },
        Shape::Access {
            designated,
            constant,
            named,
        } => View::Access {
            designated: *designated,
            constant: *constant,
            named: *named,
        },
        Shape::Fields { .. } | Shape::Same { .. } => View::Fields,
        Shape::Elements { low, high, element } => View::Elements {
            low: *low,
            high: *high,
            element: *element,
        },
    }
}

/// The components of a record; none of another type.
pub fn components_of(shape: &Shape) -> &[Component]
    ensures { result.now ≡ components_of shape.now }
{
    match shape {
        Shape::Fields { components } => components.as_slice(),
        _ => &[],
    }
}

/// The number of the first component with an identifier, or how many there are: compared with each.
pub fn component_number(word: &Word, components: &[Component]) -> usize
    ensures { result ≡ component_number word.now components.now }
{
    'search: for (number, component) in components.iter().enumerate() {
        if same_word(word.as_bytes(), component.name.as_bytes()) {
            return number;
        }
    }
    components.len()
}

/// Whether it is a scalar type.
pub fn is_scalar(view: View) -> bool
    ensures { result ≡ is_scalar view }
{
    matches!(view, View::Whole { .. } | View::Listed { .. })
}

/// Whether two scalar types have the same bounds.
pub fn same_bounds(view: View, other: View) -> bool
    ensures { result ≡ same_bounds view other }
{
    match (view, other) {
        (View::Whole { low, high }, View::Whole { low: l, high: h }) => low == l && high == h,
        (View::Listed { low, high }, View::Listed { low: l, high: h }) => low == l && high == h,
        _ => true,
    }
}

/// Whether a type has a value: a scalar subtype has none where its low bound is above its high one.
pub fn has_value(view: View) -> bool
    ensures { result ≡ has_value view }
{
    match view {
        View::Whole { low, high } => low <= high,
        View::Listed { low, high } => low <= high,
        _ => true,
    }
}

/// Whether it is an access type.
pub fn is_access(view: View) -> bool
    ensures { result ≡ is_access view }
{
    matches!(view, View::Access { .. })
}

/// Whether it is a record or an array.
pub fn is_composite(view: View) -> bool
    ensures { result ≡ is_composite view }
{
    matches!(view, View::Fields | View::Elements { .. })
}

/// Whether it is an anonymous access type.
pub fn is_anonymous(view: View) -> bool
    ensures { result ≡ is_anonymous view }
{
    match view {
        View::Access { named, .. } => !named,
        _ => false,
    }
}

/// What it designates, or Integer.
pub fn designated(view: View) -> u32
    ensures { result ≡ designated view }
{
    match view {
        View::Access { designated, .. } => designated,
        _ => INTEGER,
    }
}

/// Whether it is an access-to-constant type.
pub fn to_constant(view: View) -> bool
    ensures { result ≡ to_constant view }
{
    match view {
        View::Access { constant, .. } => constant,
        _ => false,
    }
}

/// The type of its elements, or Integer.
pub fn element_type(view: View) -> u32
    ensures { result ≡ element_type view }
{
    match view {
        View::Elements { element, .. } => element,
        _ => INTEGER,
    }
}

/// Whether `(others => value)` may be of it.
pub fn fits_others(view: View) -> bool
    ensures { result ≡ fits_others view }
{
    !matches!(view, View::Fields)
}

/// Where an index leads.
pub fn indexed(is_index: bool, view: View) -> Next
    ensures { result ≡ indexed is_index view }
{
    match view {
        View::Elements { element, .. } if is_index => Next::Goes { of: element },
        _ => Next::Stops,
    }
}

/// Where `.all` leads.
pub fn dereferenced(view: View) -> Next
    ensures { result ≡ dereferenced view }
{
    match view {
        View::Access { designated, .. } => Next::Goes { of: designated },
        _ => Next::Stops,
    }
}

/// What First, Last and Length of an array give.
pub fn array_attribute(attribute: Attribute, view: View) -> Next
    ensures { result ≡ array_attribute attribute view }
{
    let View::Elements { low, high, .. } = view else {
        return Next::Stops;
    };
    match attribute {
        Attribute::First => Next::Gives {
            value: i64::from(low),
        },
        Attribute::Last => Next::Gives {
            value: i64::from(high),
        },
        Attribute::Length => Next::Gives {
            value: extent(low, high),
        },
        _ => Next::Stops,
    }
}

/// The count of elements from a low bound to a high bound.
fn extent(low: i32, high: i32) -> i64
    ensures { result ≡ extent low high }
{
    if low <= high {
        i64::from(high) - i64::from(low) + 1
    } else {
        0
    }
}

/// The same count, without a sign.
pub fn span(low: i32, high: i32) -> usize
    ensures count { result ≡ span low high }
    ensures bound { result ≤ 2 ^ 32 }
{
    if low <= high {
        (i64::from(high) - i64::from(low)).unsigned_abs() as usize + 1
    } else {
        0
    }
}
