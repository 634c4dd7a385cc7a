//! What a type is made of, or a subtype of.
ghost use Rattle.std.specs.Prelude.{◌≡◌, true, nat_eq};
ghost use Rattle.type_definitions.specs.Declarations.{any_of, holds_parent, holds_shape};
ghost use Rattle.type_settled.specs.Reach.{holds};

use type_definitions::{Component, Info, Shape};

/// Whether some component has this type.
fn any_is(components: &[Component], part: usize) -> bool
    ensures { result ≡ any_of (λ u. nat_eq u part) components.now }
{
    'components: for component in components {
        if component.of as usize == part {
            return true;
        }
    }
    false
}

/// Whether this definition is made of this type.
fn shape_is(shape: &Shape, part: usize) -> bool
    ensures { result ≡ holds_shape (λ u. nat_eq u part) shape.now }
{
    match shape {
        Shape::Fields { components } => any_is(components.as_slice(), part),
        Shape::Elements { element, .. } => *element as usize == part,
        Shape::Same { of } => *of as usize == part,
        _ => false,
    }
}

/// Whether this type is the one in a mark.
fn parent_is(parent: Option<u32>, part: usize) -> bool
    ensures { result ≡ holds_parent (λ u. nat_eq u part) parent }
{
    match parent {
        Some(of) => of as usize == part,
        None => false,
    }
}

/// Whether a type is made of this one, or is a subtype of it.
pub fn is_part(info: &Info, part: usize) -> bool
    ensures { result ≡ holds true (λ u. nat_eq u part) info.now }
{
    shape_is(&info.shape, part) || parent_is(info.parent, part)
}
