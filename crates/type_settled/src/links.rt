//! Types linked with what they are made of.

use crate::chains::Chains;
use std::alloc::{AllocError, Global};
use type_definitions::{Component, Info, Shape};

/// The direction of links.
#[derive(Clone, Copy)]
pub enum Way {
    /// From a type to those that are made of it, or are subtypes of it.
    Up,
    /// From a type to those that it is made of, and to those that it is a subtype of.
    Down,
}

/// Links a type with one that it is made of, or a subtype of.
fn link(chains: &mut Chains, way: Way, t: usize, part: u32) -> Result<(), AllocError> {
    match way {
        Way::Up => chains.add(part as usize, t),
        Way::Down => chains.add(t, part as usize),
    }
}

/// Links a record with the types of its components.
fn link_components(
    chains: &mut Chains,
    way: Way,
    t: usize,
    components: &[Component],
) -> Result<(), AllocError> {
    'components: for component in components {
        link(chains, way, t, component.of)?;
    }
    Ok(())
}

/// Links a type with those that it is made of.
fn link_shape(chains: &mut Chains, way: Way, t: usize, shape: &Shape) -> Result<(), AllocError> {
    match shape {
        Shape::Fields { components } => link_components(chains, way, t, components.as_slice()),
        Shape::Elements { element, .. } => link(chains, way, t, *element),
        Shape::Same { of } => link(chains, way, t, *of),
        Shape::Whole { .. } | Shape::Listed { .. } | Shape::Access { .. } => Ok(()),
    }
}

/// Links a type with those that it is made of, or a subtype of.
fn link_type(chains: &mut Chains, way: Way, t: usize, info: &Info) -> Result<(), AllocError> {
    if let Some(parent) = info.parent {
        link(chains, way, t, parent)?;
    }
    if info.base as usize != t {
        link(chains, way, t, info.base)?;
    }
    link_shape(chains, way, t, &info.shape)
}

/// All types linked with what they are made of, or a subtype of.
pub(crate) fn links(alloc: Global, table: &[Info], way: Way) -> Result<Chains, AllocError> {
    let mut chains = Chains::new(alloc, table.len())?;
    'types: for (t, info) in table.iter().enumerate() {
        link_type(&mut chains, way, t, info)?;
    }
    Ok(chains)
}
