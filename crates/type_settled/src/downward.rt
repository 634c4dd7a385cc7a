//! The types of rings that are in the root of their ring, found for all rings at once.
ghost use Rattle.std.specs.Prelude.{◌≡◌, IfOk};
ghost use Rattle.type_definitions.specs.Types.{info};
ghost use Rattle.type_settled.specs.Rings.{AreInRoots, AreParts, IsPart, LooksAt};

use crate::measure::is_marked;
use crate::roots::{is_linked, mark, root};
use std::alloc::{AllocError, Global};
use type_definitions::{Component, Info, Shape};

/// The types that are found so far.
#[derive(Drop)]
struct Search {
    /// Whether a type is found.
    made: Vec<bool>,
    /// The roots, and the types that were found, whose parts weren't looked at.
    stack: Vec<usize>,
}

/// Marks a part of a type, where it is in the ring of that type. Says whether it is marked now and
/// wasn't before.
fn take(made: &mut Vec<bool>, table: &[Info], roots: &[usize], whole: usize, t: usize) -> bool
    requires part { IsPart table.now t whole }
    requires looks { LooksAt table.now roots.now whole made.old.items }
    ensures { LooksAt table.now roots.now whole made.new.items }
{
    if is_marked(made, t) || root(roots, t) != root(roots, whole) {
        return false;
    }
    mark(made, t);
    true
}

/// Finds a part of a type, where it is in the ring of that type.
fn find(
    search: &mut Search,
    table: &[Info],
    roots: &[usize],
    whole: usize,
    part: u32,
) -> Result<(), AllocError>
    requires part { IsPart table.now part whole }
    requires looks { LooksAt table.now roots.now whole search.old.made.items }
    ensures { LooksAt table.now roots.now whole search.new.made.items }
{
    let t = part as usize;
    if take(&mut search.made, table, roots, whole, t) && root(roots, t) != t {
        search.stack.push(t)?;
    }
    Ok(())
}

/// Finds the types of these components.
fn find_components(
    search: &mut Search,
    table: &[Info],
    roots: &[usize],
    whole: usize,
    components: &[Component],
) -> Result<(), AllocError>
    requires parts { AreParts table.now components.now whole }
    requires looks { LooksAt table.now roots.now whole search.old.made.items }
    ensures { LooksAt table.now roots.now whole search.new.made.items }
{
    'components: for component in components {
        find(search, table, roots, whole, component.of)?;
    }
    Ok(())
}

/// Finds the types that the definition of a type is made of.
fn find_shape(
    search: &mut Search,
    table: &[Info],
    roots: &[usize],
    whole: usize,
    shape: &Shape,
) -> Result<(), AllocError>
    requires shape { shape.now ≡ (info table.now whole).shape }
    requires looks { LooksAt table.now roots.now whole search.old.made.items }
    ensures { LooksAt table.now roots.now whole search.new.made.items }
{
    match shape {
        Shape::Fields { components } => {
            find_components(search, table, roots, whole, components.as_slice())
        }
        Shape::Elements { element, .. } => find(search, table, roots, whole, *element),
        Shape::Same { of } => find(search, table, roots, whole, *of),
        _ => Ok(()),
    }
}

/// Finds the type in the mark of a type.
fn find_parent(
    search: &mut Search,
    table: &[Info],
    roots: &[usize],
    whole: usize,
    parent: Option<u32>,
) -> Result<(), AllocError>
    requires parent { parent ≡ (info table.now whole).parent }
    requires looks { LooksAt table.now roots.now whole search.old.made.items }
    ensures { LooksAt table.now roots.now whole search.new.made.items }
{
    match parent {
        Some(of) => find(search, table, roots, whole, of),
        None => Ok(()),
    }
}

/// Finds the parts of a type that is found, or the root of its ring.
fn find_parts(
    search: &mut Search,
    table: &[Info],
    roots: &[usize],
    whole: usize,
) -> Result<(), AllocError>
    requires { LooksAt table.now roots.now whole search.old.made.items }
    ensures { LooksAt table.now roots.now whole search.new.made.items }
{
    let Some(info) = table.get(whole) else {
        return Ok(());
    };
    find_shape(search, table, roots, whole, &info.shape)?;
    find_parent(search, table, roots, whole, info.parent)
}

/// Finds the parts of the last type on the stack. Says whether there was one.
fn spread(search: &mut Search, table: &[Info], roots: &[usize]) -> Result<bool, AllocError>
    requires { AreInRoots table.now roots.now search.old.made.items }
    ensures { AreInRoots table.now roots.now search.new.made.items }
{
    let Some(last) = search.stack.pop() else {
        return Ok(false);
    };
    if is_linked(roots, &search.made, last) {
        find_parts(search, table, roots, last)?;
    }
    Ok(true)
}

/// The types that are in the root of their ring. The stack has the roots.
pub fn downward(
    alloc: Global,
    table: &[Info],
    roots: &[usize],
    stack: Vec<usize>,
) -> Result<Vec<bool>, AllocError>
    ensures { IfOk result (λ made. AreInRoots table.now roots.now made.items) }
{
    let made = vec![in alloc; false; table.len()]?;
    let mut search = Search { made, stack };
    'steps: for _step in 0..table.len() {
        if !spread(&mut search, table, roots)? {
            break;
        }
    }
    Ok(search.made)
}
