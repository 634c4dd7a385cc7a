//! The types that have a marked type in them, found for all types at once.
ghost use Rattle.std.specs.Prelude.{◌≡◌, ◌<◌, ◌∷◌, ℕ, false, length, get_or, IfOk, IfSome, IsTrue};
ghost use Rattle.type_definitions.specs.Declarations.{any_of, holds_parent, holds_shape};
ghost use Rattle.type_settled.specs.Measures.{marked};
ghost use Rattle.type_settled.specs.Reach.{AreFound, IsClosed, IsFound, holds, is_in};

use crate::chains::Chains;
use crate::links::{Way, links};
use crate::measure::is_marked;
use std::alloc::{AllocError, Global};
use type_definitions::{Component, Info, Shape};

/// The types that are found so far.
#[derive(Drop)]
pub struct Found {
    /// Whether a type is found.
    pub made: Vec<bool>,
    /// How many are found: in none of them the marked type is deeper.
    pub depth: usize,
}

/// Whether a type is marked or found.
fn is_in(marks: &[bool], made: &[bool], t: u32) -> bool
    ensures { result ≡ is_in marks.now made.now t }
{
    is_marked(marks, t as usize) || is_marked(made, t as usize)
}

/// Whether the type of some component is marked or found.
fn any_in(marks: &[bool], made: &[bool], components: &[Component]) -> bool
    ensures { result ≡ any_of (is_in marks.now made.now) components.now }
{
    'components: for component in components {
        if is_in(marks, made, component.of) {
            return true;
        }
    }
    false
}

/// Whether a type that this definition is made of is marked or found.
fn shape_in(marks: &[bool], made: &[bool], shape: &Shape) -> bool
    ensures { result ≡ holds_shape (is_in marks.now made.now) shape.now }
{
    match shape {
        Shape::Fields { components } => any_in(marks, made, components.as_slice()),
        Shape::Elements { element, .. } => is_in(marks, made, *element),
        Shape::Same { of } => is_in(marks, made, *of),
        _ => false,
    }
}

/// Whether the type in a mark is marked or found.
fn parent_in(marks: &[bool], made: &[bool], parent: Option<u32>) -> bool
    ensures { result ≡ holds_parent (is_in marks.now made.now) parent }
{
    match parent {
        Some(of) => is_in(marks, made, of),
        None => false,
    }
}

/// Whether what a type is made of is marked or found, or where that counts the type in its mark.
fn holds(marks: &[bool], made: &[bool], parents: bool, info: &Info) -> bool
    ensures { result ≡ holds parents (is_in marks.now made.now) info.now }
{
    shape_in(marks, made, &info.shape) || (parents && parent_in(marks, made, info.parent))
}

/// No type is found.
fn begin(alloc: Global, table: &[Info], marks: &[bool], parents: bool) -> Result<Found, AllocError>
    requires { 0 < length table.now }
    ensures { IfOk result (λ found. IsFound parents (marked marks.now) table.now found) }
{
    Ok(Found {
        made: vec![in alloc; false; table.len()]?,
        depth: 0,
    })
}

/// Finds a type, where one that it is made of is marked or found. Says whether it is found now and
/// wasn't before.
fn find(found: &mut Found, table: &[Info], marks: &[bool], parents: bool, t: usize) -> bool
    requires within { t < length table.now }
    requires right { IsFound parents (marked marks.now) table.now found.old }
    ensures { IsFound parents (marked marks.now) table.now found.new }
{
    let room = table.len() - found.depth;
    if is_marked(&found.made, t) || room <= 1 || !holds(marks, &found.made, parents, &table[t]) {
        return false;
    }
    found.made[t] = true;
    found.depth += 1;
    true
}

/// The marked types of a table.
fn marked_types(alloc: Global, table: &[Info], marks: &[bool]) -> Result<Vec<usize>, AllocError> {
    let mut types = Vec::new(alloc);
    'types: for t in 0..table.len() {
        if is_marked(marks, t) {
            types.push(t)?;
        }
    }
    Ok(types)
}

/// Finds the types that are made of the last type on the stack, one at a time.
fn spread(
    found: &mut Found,
    stack: &mut Vec<usize>,
    users: &mut Chains,
    table: &[Info],
    marks: &[bool],
    parents: bool,
) -> Result<bool, AllocError>
    requires { IsFound parents (marked marks.now) table.now found.old }
    ensures { IsFound parents (marked marks.now) table.now found.new }
{
    let Some(last) = stack.last().copied() else {
        return Ok(false);
    };
    let Some(user) = users.take(last) else {
        stack.pop();
        return Ok(true);
    };
    if user < table.len() && find(found, table, marks, parents, user) && !is_marked(marks, user) {
        stack.push(user)?;
    }
    Ok(true)
}

/// Finds the types that are made of marked ones, and those that are made of found ones.
fn find_all(
    alloc: Global,
    table: &[Info],
    marks: &[bool],
    parents: bool,
) -> Result<Found, AllocError>
    requires { 0 < length table.now }
    ensures { IfOk result (λ found. IsFound parents (marked marks.now) table.now found) }
{
    let mut found = begin(alloc, table, marks, parents)?;
    let mut users = links(alloc, table, Way::Up)?;
    let mut stack = marked_types(alloc, table, marks)?;
    'steps: for _step in 0..users.steps() {
        if !spread(&mut found, &mut stack, &mut users, table, marks, parents)? {
            break;
        }
    }
    Ok(found)
}

/// Whether no type is left that is made of marked or found ones.
#[tactic(auto, using(crate::proofs::Reached::all_closed))]
fn is_closed(table: &[Info], marks: &[bool], made: &[bool], parents: bool) -> bool
    ensures { IsTrue result → IsClosed parents marks.now table.now made.now }
{
    'types: for (t, info) in table.iter().enumerate() {
        if !is_marked(made, t) && holds(marks, made, parents, info) {
            return false;
        }
    }
    true
}

/// The types that have a marked type in them, at any depth, in time linear in the table. That a
/// type is in the type in whose mark it is counts where `parents` says so. None where the search
/// left a type out, which it doesn't.
pub fn reached(
    alloc: Global,
    table: &[Info],
    marks: &[bool],
    parents: bool,
) -> Result<Option<Vec<bool>>, AllocError>
    ensures { IfOk result (λ r. IfSome r (λ made. AreFound parents (marked marks.now) table.now made.items)) }
{
    if table.is_empty() {
        return Ok(None);
    }
    let found = find_all(alloc, table, marks, parents)?;
    if is_closed(table, marks, &found.made, parents) {
        Ok(Some(found.made))
    } else {
        Ok(None)
    }
}
