//! The types of rings that have the root of their ring in them, found for all rings at once.
ghost use Rattle.std.specs.Prelude.{◌≡◌, ◌<◌, length, IfOk};
ghost use Rattle.type_settled.specs.Rings.{HaveRoots};

use crate::chains::Chains;
use crate::links::{Way, links};
use crate::measure::is_marked;
use crate::parts::is_part;
use crate::roots::{is_linked, mark, root};
use std::alloc::{AllocError, Global};
use type_definitions::Info;

/// Finds a type, where it is made of a type of its ring that has the root in it, or is the root.
/// Says whether it is found now and wasn't before.
fn find(made: &mut Vec<bool>, table: &[Info], roots: &[usize], part: usize, t: usize) -> bool
    requires within { t < length table.now }
    requires right { HaveRoots table.now roots.now made.old.items }
    ensures { HaveRoots table.now roots.now made.new.items }
{
    if is_marked(made, t) || root(roots, t) != root(roots, part) || !is_linked(roots, made, part) {
        return false;
    }
    if !is_part(&table[t], part) {
        return false;
    }
    mark(made, t);
    true
}

/// Finds the types that are made of the last type on the stack, one at a time.
fn spread(
    made: &mut Vec<bool>,
    stack: &mut Vec<usize>,
    users: &mut Chains,
    table: &[Info],
    roots: &[usize],
) -> Result<bool, AllocError>
    requires { HaveRoots table.now roots.now made.old.items }
    ensures { HaveRoots table.now roots.now made.new.items }
{
    let Some(last) = stack.last().copied() else {
        return Ok(false);
    };
    let Some(user) = users.take(last) else {
        stack.pop();
        return Ok(true);
    };
    if user < table.len() && find(made, table, roots, last, user) && root(roots, user) != user {
        stack.push(user)?;
    }
    Ok(true)
}

/// The types that have the root of their ring in them. The stack has the roots.
pub fn upward(
    alloc: Global,
    table: &[Info],
    roots: &[usize],
    mut stack: Vec<usize>,
) -> Result<Vec<bool>, AllocError>
    ensures { IfOk result (λ made. HaveRoots table.now roots.now made.items) }
{
    let mut made = vec![in alloc; false; table.len()]?;
    let mut users = links(alloc, table, Way::Up)?;
    'steps: for _step in 0..users.steps() {
        if !spread(&mut made, &mut stack, &mut users, table, roots)? {
            break;
        }
    }
    Ok(made)
}
