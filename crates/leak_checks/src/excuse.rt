//! Whether one leak check is excused.
ghost use Rattle.std.specs.Prelude.{◌≡◌, ◌&&◌, ◌<◌, length, take, not, IfOk, OnOk};
ghost use Rattle.place_names.specs.Names as names;
ghost use Rattle.place_names.specs.Facts as facts;
ghost use Rattle.place_names.specs.declared.fact.Fact.TheVariants as variant;
ghost use Rattle.state_trees.specs.FactStates.{always_at};
ghost use Rattle.point_states.specs.Carries.{state_along, acts_of};
ghost use Rattle.leak_checks.specs.Lines.{always_moved, excused_at, excused_where};

use flow_paths::LeakSpot;
use place_names::{Fact, PlaceName, Placed, Sel};
use state_trees::Tree;
use std::alloc::AllocError;

/// Whether a list has an `Elem`.
fn has_elem(sels: &[Sel]) -> bool
    ensures { result ≡ names.has_elem sels.now }
{
    sels.iter().any(|s| *s == Sel::Elem)
}

/// Whether two names are the same.
fn is_same_name(a: &PlaceName, b: &PlaceName) -> bool
    ensures { result ≡ names.is_same a.now b.now }
{
    a == b
}

/// Whether a fact is that a name was moved.
fn is_move(fact: &Fact, name: &PlaceName) -> bool
    ensures { result ≡ facts.is_same_fact fact.now (variant.Moved name.now) }
{
    match fact {
        Fact::Moved(moved) => is_same_name(moved, name),
        Fact::Lent { .. } => false,
    }
}

/// Whether each path has moved exactly this name.
fn is_always_moved(tree: &Tree<'_>, name: &PlaceName) -> bool
    ensures { result ≡ always_moved tree.now name.now }
{
    let facts = tree.facts();
    'numbers: for i in 0..facts.len() {
        let always = tree.always(i as u32);
        if is_move(&facts[i], name) && always {
            return true;
        }
    }
    false
}

/// What some acts do to a state, in order.
fn apply_all(tree: &mut Tree<'_>, acts: &[Placed]) -> Result<(), AllocError>
    ensures { OnOk result (tree.new ≡ state_along (acts_of acts.now) tree.old) }
{
    'acts: for placed in acts {
        tree.apply(&placed.act)?;
    }
    Ok(())
}

/// The first acts, or all where there are fewer.
fn front(acts: &[Placed], count: u32) -> &[Placed]
    ensures { result.now ≡ take count acts.now }
{
    if (count as usize) < acts.len() {
        &acts[..count as usize]
    } else {
        acts
    }
}

/// Whether a leak check is excused at a point whose acts follow such a state.
fn is_excused(tree: &Tree<'_>, acts: &[Placed], spot: &LeakSpot) -> Result<bool, AllocError>
    ensures { IfOk result (λ excused. excused ≡ excused_at tree.now acts.now spot.now) }
{
    if has_elem(spot.name.sels()) {
        return Ok(false);
    }
    let mut state = tree.copy()?;
    apply_all(&mut state, front(acts, spot.before))?;
    Ok(is_always_moved(&state, &spot.name))
}

/// The same where some path comes there; else it isn't excused.
pub(crate) fn is_excused_where(
    tree: &Option<Tree<'_>>,
    acts: &[Placed],
    spot: &LeakSpot,
) -> Result<bool, AllocError>
    ensures { IfOk result (λ excused. excused ≡ excused_where tree.now acts.now spot.now) }
{
    match tree {
        Some(tree) => is_excused(tree, acts, spot),
        None => Ok(false),
    }
}
