//! The worklist over the points of a subprogram.
ghost use Rattle.std.specs.Prelude.{◌≡◌, ◌∷◌, ℕ, ◌+◌, ◌*◌, ◌<◌, ◌≤◌, length, vec_len, OnOk, IfOk};
ghost use Rattle.spark_base.specs.Lists.{Has};
ghost use Rattle.flow_paths.specs.Paths.{path_point};
ghost use Rattle.state_trees.specs.FactStates.{none_hold, IsKept};
ghost use Rattle.point_states.specs.PointTrees.{path_points_of, AreWithin, successors, IsExact};
ghost use Rattle.point_states.specs.Labels.{SearchedOn};
ghost use Rattle.point_states.specs.Carries.{state_along, acts_of, IsBrought, CarriedTo, CarriedAlong, AreOver, IsStarted};
ghost use Rattle.point_states.specs.Turns.{IsTurned};

use crate::steps::Steps;
use flow_paths::Point;
use place_names::{Fact, Placed};
use state_trees::Tree;
use std::alloc::{AllocError, Global};
use std::collections::BTreeSet;
use std::sync::ledger::Ledger;

/// What the acts of a point do to a state, in order.
fn apply_all(tree: &mut Tree<'_>, acts: &[Placed]) -> Result<(), AllocError>
    ensures { OnOk result (tree.new ≡ state_along (acts_of acts.now) tree.old) }
{
    'acts: for placed in acts {
        tree.apply(&placed.act)?;
    }
    Ok(())
}

/// Brings a state to a point and tells whether the point's tree changed. The first state is kept as
/// the tree, a further one is joined.
fn bring<'f>(
    trees: &mut Vec<Option<Tree<'f>>>,
    q: usize,
    state: Tree<'f>,
) -> Result<bool, AllocError>
    requires within { q < vec_len trees.old }
    requires over { AreOver state.facts trees.old.items }
    requires kept { IsKept state }
    ensures { IfOk result (λ changed. IsBrought q state.entry trees.old.items trees.new.items changed) }
{
    match trees[q].take() {
        None => {
            trees[q] = Some(state);
            Ok(true)
        }
        Some(mut tree) => {
            let changed = tree.join(&state)?;
            trees[q] = Some(tree);
            Ok(changed)
        }
    }
}

/// Carries a state to a point, which is put into the work where its tree changed.
// A profile of the program counts its calls, the steps (`docs/COSTS.md`), so it stays a function.
#[inline(never)]
fn carry<'f, L: Ledger>(
    trees: &mut Vec<Option<Tree<'f>>>,
    work: &mut BTreeSet<usize>,
    q: usize,
    state: Tree<'f>,
    steps: &mut Steps<L>,
) -> Result<(), AllocError>
    requires within { q < vec_len trees.old }
    requires over { AreOver state.facts trees.old.items }
    requires kept { IsKept state }
    ensures carried { OnOk result (CarriedTo q state.entry trees.old.items work.old.keys trees.new.items work.new.keys) }
    ensures one { steps.new ≡ steps.old + 1 }
{
    steps.tick();
    if bring(trees, q, state)? {
        work.insert(q)?;
    }
    Ok(())
}

/// Passes a state on to some successors. The last one is given the state itself.
fn pass_on<'f, L: Ledger>(
    trees: &mut Vec<Option<Tree<'f>>>,
    work: &mut BTreeSet<usize>,
    next: &[u32],
    state: Tree<'f>,
    steps: &mut Steps<L>,
) -> Result<(), AllocError>
    requires within { (q : ℕ) → Has next.now q → q < vec_len trees.old }
    requires over { AreOver state.facts trees.old.items }
    requires kept { IsKept state }
    ensures carried { OnOk result
        (CarriedAlong next.now state.entry trees.old.items work.old.keys trees.new.items work.new.keys) }
    ensures ticks { steps.new ≤ steps.old + length next.now }
{
    let Some((last, front)) = next.split_last() else {
        return Ok(());
    };
    'edges: for q in front {
        carry(trees, work, *q as usize, state.copy()?, steps)?;
    }
    carry(trees, work, *last as usize, state, steps)?;
    Ok(())
}

/// The iteration for a point that was taken from the work: the state after its acts is carried
/// along each of its successors.
fn turn<'f, L: Ledger>(
    points: &[Point],
    facts: &'f [Fact],
    trees: &mut Vec<Option<Tree<'f>>>,
    work: &mut BTreeSet<usize>,
    p: usize,
    steps: &mut Steps<L>,
) -> Result<(), AllocError>
    requires place { p < length points.now }
    requires count { vec_len trees.old ≡ length points.now }
    requires over { AreOver facts.now trees.old.items }
    requires edges { AreWithin (path_points_of points.now) }
    requires places { (a : ℕ) → Has work.old.keys a → a < length points.now }
    requires searched { SearchedOn (path_points_of points.now) facts.now trees.old.items (p ∷ work.old.keys) }
    ensures turned { OnOk result (IsTurned (path_points_of points.now) facts.now (length points.now)
        trees.old.items work.old.keys trees.new.items work.new.keys) }
    ensures ticks { steps.new ≤ steps.old + length (path_point (path_points_of points.now) p).next }
{
    let mut state = match &trees[p] {
        Some(tree) => tree.copy()?,
        None => return Ok(()),
    };
    apply_all(&mut state, points[p].acts.as_slice())?;
    pass_on(trees, work, points[p].next.as_slice(), state, steps)?;
    Ok(())
}

/// The tree where no fact holds.
fn first_tree<'f>(alloc: Global, facts: &'f [Fact]) -> Result<Tree<'f>, AllocError>
    ensures value { IfOk result (λ tree. tree ≡ none_hold facts.now) }
    ensures kept { IfOk result (λ tree. IsKept tree) }
{
    let tree = Tree::start(alloc, facts)?;
    let _list = tree.facts();
    Ok(tree)
}

/// At the first point no fact holds, and no other has a tree yet.
fn start_trees<'f>(
    alloc: Global,
    points: &[Point],
    facts: &'f [Fact],
) -> Result<Vec<Option<Tree<'f>>>, AllocError>
    requires { 0 < length points.now }
    ensures { IfOk result (λ trees. IsStarted (length points.now) facts.now trees.items) }
{
    let mut trees = Vec::new(alloc);
    trees.push(Some(first_tree(alloc, facts)?))?;
    'points: for _point in 1..points.len() {
        trees.push(None)?;
    }
    Ok(trees)
}

/// For each point, what may hold and what may not hold of the facts before its acts, where some
/// control path ends there. Whatever comes of it, each state that is carried along a successor
/// counts one step.
pub fn point_trees<'f, L: Ledger>(
    alloc: Global,
    points: &[Point],
    facts: &'f [Fact],
    steps: &mut Steps<L>,
) -> Result<Vec<Option<Tree<'f>>>, AllocError>
    requires { AreWithin (path_points_of points.now) }
    ensures exact { IfOk result (λ trees. IsExact (path_points_of points.now) facts.now trees.items) }
    ensures cost { steps.new ≤ steps.old + successors (path_points_of points.now) * (2 * length facts.now + 2) }
{
    if points.is_empty() {
        return Ok(Vec::new(alloc));
    }
    let mut trees = start_trees(alloc, points, facts)?;
    let mut work = BTreeSet::new(alloc);
    work.insert(0usize)?;
    // Numbers ascend along the text. So a point is taken once the states of the points before it
    // have come, and what follows a loop waits until the loop is done.
    'turns: while let Some(p) = work.pop_first() {
        turn(points, facts, &mut trees, &mut work, p, steps)?;
    }
    Ok(trees)
}
