//! The roots of rings: the first type of each.
ghost use Rattle.std.specs.Prelude.{◌≡◌, true, set};
ghost use Rattle.type_settled.specs.Rings.{is_linked, root};

use crate::measure::is_marked;
use std::alloc::{AllocError, Global};

/// The first type with this rank: this one, where none was before.
fn first(firsts: &mut Vec<Option<usize>>, rank: u32, t: usize) -> usize {
    let Some(first) = firsts.get_mut(rank as usize) else {
        return t;
    };
    match *first {
        Some(t) => t,
        None => {
            *first = Some(t);
            t
        }
    }
}

/// Of each type the first one with its rank.
pub(crate) fn roots(alloc: Global, ranks: &[u32]) -> Result<Vec<usize>, AllocError> {
    let mut firsts = vec![in alloc; None; ranks.len()]?;
    let mut roots = Vec::new(alloc);
    'types: for (t, rank) in ranks.iter().enumerate() {
        roots.push(first(&mut firsts, *rank, t))?;
    }
    Ok(roots)
}

/// The root of the ring that a type is in.
pub fn root(roots: &[usize], t: usize) -> usize
    ensures { result ≡ root roots.now t }
{
    match roots.get(t) {
        Some(root) => *root,
        None => 0,
    }
}

/// Whether a type is the root of its ring, or marked.
pub fn is_linked(roots: &[usize], marks: &[bool], t: usize) -> bool
    ensures { result ≡ is_linked roots.now marks.now t }
{
    t == root(roots, t) || is_marked(marks, t)
}

/// Marks a type.
#[tactic(auto, using(std::proofs::lemmas::List::set_past))]
pub fn mark(marks: &mut Vec<bool>, t: usize)
    ensures { marks.new.items ≡ set marks.old.items t true }
{
    if t < marks.len() {
        marks[t] = true;
    }
}

/// The types that are roots of rings. A lone type is in no ring.
pub(crate) fn ring_roots(
    alloc: Global,
    roots: &[usize],
    lone: &[bool],
) -> Result<Vec<usize>, AllocError> {
    let mut types = Vec::new(alloc);
    'types: for (t, root) in roots.iter().enumerate() {
        if *root == t && !is_marked(lone, t) {
            types.push(t)?;
        }
    }
    Ok(types)
}
