//! Types that are to be visited, on a stack.
ghost use Rattle.std.specs.Prelude.{◌≡◌, ◌++◌, ◌∷◌, [], OnOk, map, take};
ghost use Rattle.type_ranks.specs.Ranks.{component_parts, shape_parts, parent_parts, parts};
ghost use Rattle.type_ranks.specs.Stages.{fresh};

use std::alloc::AllocError;
use type_definitions::{Component, Info, Shape};

/// A type that is to be visited.
#[derive(Clone, Copy)]
pub struct Visit {
    /// The type.
    pub of: usize,
    /// Whether it was entered, so that what it is made of was put on the stack after it.
    pub entered: bool,
}

/// Puts a type on the stack.
fn put(stack: &mut Vec<Visit>, t: u32) -> Result<(), AllocError>
    ensures { OnOk result (stack.new.items ≡ stack.old.items ++ fresh t ∷ []) }
{
    stack.push(Visit {
        of: t as usize,
        entered: false,
    })?;
    Ok(())
}

/// Puts the types of components on the stack.
fn put_components(stack: &mut Vec<Visit>, components: &[Component]) -> Result<(), AllocError>
    ensures { OnOk result (stack.new.items ≡ stack.old.items ++ map fresh (component_parts components.now)) }
{
    'components: for component in components {
        put(stack, component.of)?;
    }
    Ok(())
}

/// Puts on the stack what a definition is made of.
fn put_shape(stack: &mut Vec<Visit>, shape: &Shape) -> Result<(), AllocError>
    ensures { OnOk result (stack.new.items ≡ stack.old.items ++ map fresh (shape_parts shape.now)) }
{
    match shape {
        Shape::Fields { components } => put_components(stack, components.as_slice()),
        Shape::Elements { element, .. } => put(stack, *element),
        Shape::Same { of } => put(stack, *of),
        Shape::Whole { .. } | Shape::Listed { .. } | Shape::Access { .. } => Ok(()),
    }
}

/// Puts the type in a mark on the stack.
fn put_parent(stack: &mut Vec<Visit>, parent: Option<u32>) -> Result<(), AllocError>
    ensures { OnOk result (stack.new.items ≡ stack.old.items ++ map fresh (parent_parts parent)) }
{
    match parent {
        Some(t) => put(stack, t),
        None => Ok(()),
    }
}

/// Puts on the stack what a type is made of.
pub fn put_parts(stack: &mut Vec<Visit>, info: &Info) -> Result<(), AllocError>
    ensures { OnOk result (stack.new.items ≡ stack.old.items ++ map fresh (parts info.now)) }
{
    put_shape(stack, &info.shape)?;
    put_parent(stack, info.parent)
}
