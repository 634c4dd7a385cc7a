//! Types that have themselves in them.
ghost use Rattle.std.specs.Prelude.{◌≡◌, ◌<◌, map, nat_eq, IfOk, IfSome};
ghost use Rattle.type_definitions.specs.Types.{base};
ghost use Rattle.type_definitions.specs.Declarations.{any_of, holds_itself, holds_parent, holds_shape};
ghost use Rattle.type_settled.specs.Holding.{has, has_below};

use crate::measure::is_marked;
use crate::reach::reached;
use std::alloc::{AllocError, Global};
use type_definitions::{Component, Info, Shape};

/// The type that a type is a subtype of.
fn base(table: &[Info], t: u32) -> u32
    ensures { result ≡ base table.now t }
{
    match table.get(t as usize) {
        Some(info) => info.base,
        None => 0,
    }
}

/// Whether some of these components has the type `part`, or has it in itself as deep as `depth`.
#[cycle(holding)]
fn any_holds(table: &[Info], depth: usize, part: u32, components: &[Component]) -> bool
    ensures { result ≡ any_of (has table.now part depth) components.now }
{
    'components: for component in components {
        if holds_within(table, depth, part, component.of) {
            return true;
        }
    }
    false
}

/// Whether what a type is made of has the type `part` as deep as `depth`.
#[cycle(holding)]
fn shape_holds(table: &[Info], depth: usize, part: u32, shape: &Shape) -> bool
    ensures { result ≡ holds_shape (has table.now part depth) shape.now }
{
    match shape {
        Shape::Fields { components } => any_holds(table, depth, part, components.as_slice()),
        Shape::Elements { element, .. } => holds_within(table, depth, part, *element),
        Shape::Same { of } => holds_within(table, depth, part, *of),
        _ => false,
    }
}

/// Whether what a type is a subtype of has it.
#[cycle(holding)]
fn parent_holds(table: &[Info], depth: usize, part: u32, parent: Option<u32>) -> bool
    ensures { result ≡ holds_parent (has table.now part depth) parent }
{
    match parent {
        Some(of) => holds_within(table, depth, part, of),
        None => false,
    }
}

/// Whether what a type is made of, or a subtype of, has it.
#[cycle(holding)]
fn holds_below(table: &[Info], depth: usize, part: u32, of: u32) -> bool
    ensures { result ≡ has_below table.now part depth of }
{
    match table.get(of as usize) {
        Some(info) => {
            shape_holds(table, depth, part, &info.shape)
                || parent_holds(table, depth, part, info.parent)
        }
        None => false,
    }
}

/// Whether a type is `part` or has it in itself, looked at as deep as `depth`.
#[cycle(holding)]
#[tactic(auto, using(crate::proofs::Holding::has_none, crate::proofs::Holding::has_more))]
fn holds_within(table: &[Info], depth: usize, part: u32, of: u32) -> bool
    ensures { result ≡ has table.now part depth of }
{
    if depth == 0 {
        return false;
    }
    base(table, of) == part || holds_below(table, depth - 1, part, of)
}

/// Whether a type has itself in it, looked for without memory.
#[tactic(auto, unfolding(type_definitions::specs::Declarations::some_part))]
fn is_found_in(table: &[Info], t: u32) -> bool
    ensures { result ≡ holds_itself table.now t }
{
    holds_below(table, table.len(), t, t)
}

/// Marks of the subtypes of a type, with the type itself.
fn subtypes(alloc: Global, table: &[Info], t: u32) -> Result<Vec<bool>, AllocError>
    ensures { IfOk result (λ marks. marks.items ≡ map (λ i. nat_eq i.base t) table.now) }
{
    let mut marks = Vec::new(alloc);
    'types: for info in table {
        marks.push(info.base == t)?;
    }
    Ok(marks)
}

/// Whether a type but the first has itself in it, looked for in all types at once. None where that
/// isn't found out.
fn is_reached(alloc: Global, table: &[Info], t: u32) -> Result<Option<bool>, AllocError>
    requires { 0 < t }
    ensures { IfOk result (λ r. IfSome r (λ found. found ≡ holds_itself table.now t)) }
{
    let marks = subtypes(alloc, table, t)?;
    let Some(made) = reached(alloc, table, &marks, true)? else {
        return Ok(None);
    };
    Ok(Some(is_marked(&made, t as usize)))
}

/// Whether a type has itself in it.
pub fn is_in_itself(alloc: Global, table: &[Info], t: u32) -> bool
    ensures { result ≡ holds_itself table.now t }
{
    if t > 0 {
        if let Ok(Some(found)) = is_reached(alloc, table, t) {
            return found;
        }
    }
    is_found_in(table, t)
}
