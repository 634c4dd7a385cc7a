//! The reports of a subprogram.
ghost use Rattle.std.specs.Prelude.{◌≡◌, ◌+◌, ◌*◌, ◌≤◌, length, vec_len, map, OnOk};
ghost use Rattle.place_names.specs.Reports.{report_at};
ghost use Rattle.report_lists.specs.Gains.{put_told, Gains};
ghost use Rattle.flow_paths.specs.Paths.{PathReport};
ghost use Rattle.flow_paths.specs.Printing.{printed_name};
ghost use Rattle.state_trees.specs.FactStates.{IsKept};
ghost use Rattle.point_states.specs.PointTrees.{path_points_of, successors, AreWithin};
ghost use Rattle.point_states.specs.Carries.{state_along, acts_of};
ghost use Rattle.path_reports.specs.CalledPoints.{called_points, AreAscending, AreListed};
ghost use Rattle.path_reports.specs.Told.{found_at, told_along, IsKeptWhere, AreKept};
ghost use Rattle.path_reports.specs.Uses.{point_told, where_told, all_told};

use crate::called::put_called;
use crate::printed::put_found;
use borrow_observe::test_loans;
use flow_paths::{Effects, Point};
use move_rules::test_moves;
use place_names::{Fact, Placed};
use point_states::{Steps, point_trees};
use report_lists::ReportSet;
use state_trees::Tree;
use std::alloc::{AllocError, Global};
use std::sync::ledger::Ledger;
use type_definitions::Info;
use typed_tree::Object;

/// Puts in what the facts that may hold forbid at an act.
fn put_act(
    alloc: Global,
    table: &[Info],
    objects: &[Object],
    tree: &Tree<'_>,
    placed: &Placed,
    set: &mut ReportSet,
) -> Result<(), AllocError>
    ensures { OnOk result (set.new ≡ put_told (printed_name table.now objects.now) set.old
        (map (report_at placed.now.pos) (found_at placed.now.act tree.now))) }
{
    let mut found = Vec::new(alloc);
    test_moves(tree, &placed.act, &mut found)?;
    test_loans(tree, &placed.act, &mut found)?;
    put_found(alloc, table, objects, placed.pos, &found, set)?;
    Ok(())
}

/// Puts in the reports of some acts, each tested before what it does.
fn put_acts(
    alloc: Global,
    table: &[Info],
    objects: &[Object],
    tree: &mut Tree<'_>,
    acts: &[Placed],
    set: &mut ReportSet,
) -> Result<(), AllocError>
    ensures set { OnOk result (set.new ≡ put_told (printed_name table.now objects.now) set.old
        (told_along acts.now tree.old)) }
    ensures tree { OnOk result (tree.new ≡ state_along (acts_of acts.now) tree.old) }
{
    'acts: for placed in acts {
        put_act(alloc, table, objects, tree, placed, set)?;
        tree.apply(&placed.act)?;
    }
    Ok(())
}

/// Puts in the reports of a point: those of its own acts, and then those of its call.
fn put_point(
    alloc: Global,
    table: &[Info],
    objects: &[Object],
    effects: &Effects,
    mut tree: Tree<'_>,
    point: &Point,
    set: &mut ReportSet,
) -> Result<(), AllocError>
    requires { AreAscending effects.now }
    ensures set { OnOk result (set.new ≡ put_told (printed_name table.now objects.now) set.old
        (point_told objects.now effects.now point.now tree.entry)) }
    ensures kept { IsKept tree.entry }
{
    let _list = tree.facts();
    put_acts(alloc, table, objects, &mut tree, point.acts.as_slice(), set)?;
    put_called(alloc, table, objects, effects, &tree, point, set)?;
    Ok(())
}

/// The same, where some path comes there.
fn put_where(
    alloc: Global,
    table: &[Info],
    objects: &[Object],
    effects: &Effects,
    tree: Option<Tree<'_>>,
    point: &Point,
    set: &mut ReportSet,
) -> Result<(), AllocError>
    requires { AreAscending effects.now }
    ensures kept { IsKeptWhere tree.entry }
    ensures set { OnOk result (set.new ≡ put_told (printed_name table.now objects.now) set.old
        (where_told objects.now effects.now point.now tree.entry)) }
{
    match tree {
        Some(tree) => put_point(alloc, table, objects, effects, tree, point, set),
        None => Ok(()),
    }
}

/// Puts in the reports of all points, whose trees are used up.
fn put_points(
    alloc: Global,
    table: &[Info],
    objects: &[Object],
    effects: &Effects,
    mut trees: Vec<Option<Tree<'_>>>,
    points: &[Point],
    set: &mut ReportSet,
) -> Result<(), AllocError>
    requires order { AreAscending effects.now }
    requires count { vec_len trees ≡ length points.now }
    ensures kept { OnOk result (AreKept trees.entry.items) }
    ensures set { OnOk result (set.new ≡ put_told (printed_name table.now objects.now) set.old
        (all_told objects.now effects.now points.now trees.entry.items)) }
{
    'points: for p in 0..points.len() {
        put_where(
            alloc,
            table,
            objects,
            effects,
            trees[p].take(),
            &points[p],
            set,
        )?;
    }
    Ok(())
}

/// Puts in exactly the reports of the rules on facts over all control paths of a subprogram, each
/// with the text of its name. Each state that is carried along a successor counts one step,
/// whatever comes of it. The only error is out of memory.
pub fn path_reports<L: Ledger>(
    alloc: Global,
    table: &[Info],
    objects: &[Object],
    effects: &Effects,
    points: &[Point],
    facts: &[Fact],
    set: &mut ReportSet,
    steps: &mut Steps<L>,
) -> Result<(), AllocError>
    requires within { AreWithin (path_points_of points.now) }
    requires listed { AreListed facts.now (path_points_of points.now) }
    requires order { AreAscending effects.now }
    ensures reports { OnOk result (Gains (printed_name table.now objects.now)
        (PathReport (called_points objects.now effects.now points.now)) set.old set.new) }
    ensures cost { steps.new
        ≤ steps.old + successors (path_points_of points.now) * (2 * length facts.now + 2) }
{
    let trees = point_trees(alloc, points, facts, steps)?;
    put_points(alloc, table, objects, effects, trees, points, set)?;
    Ok(())
}
