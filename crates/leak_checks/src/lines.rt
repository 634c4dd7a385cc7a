//! The lines of all leak checks, in the order of the text.
ghost use Rattle.std.specs.Prelude.{◌≡◌, ◌+◌, ◌≤◌, ◌++◌, length, IfOk, OnOk};
ghost use Rattle.flow_paths.specs.declared.report.Effects.{Effects};
ghost use Rattle.path_reports.specs.Told.{IsKeptWhere, AreKept};
ghost use Rattle.path_check.specs.Verdicts.{sub_steps, all_steps};
ghost use Rattle.point_states.specs.PointTrees.{path_points_of, AreWithin};
ghost use Rattle.laid_program.specs.Programs.{program_of};
ghost use Rattle.leak_checks.specs.Plan.{TellAll, checks_of};
ghost use Rattle.leak_checks.specs.Lines as spec;
ghost use Rattle.leak_checks.specs.Lines.{lines_at, lines_along, HasLines};

use crate::excuse::is_excused_where;
use flow_paths::{LaidSub, LeakLine, LeakSpot, Point};
use laid_program::Laid;
use place_names::Placed;
use point_states::{Steps, point_trees};
use state_trees::Tree;
use std::alloc::{AllocError, Global};
use std::sync::ledger::Ledger;

/// The line of a leak check.
fn line_of(
    tree: &Option<Tree<'_>>,
    acts: &[Placed],
    spot: &LeakSpot,
) -> Result<LeakLine, AllocError>
    ensures { IfOk result (λ line. line ≡ spec.line_of tree.now acts.now spot.now) }
{
    let excused = is_excused_where(tree, acts, spot)?;
    Ok(LeakLine {
        pos: spot.pos,
        name: spot.name.clone()?,
        excused,
    })
}

/// Adds the lines of a point.
fn push_point(
    tree: &Option<Tree<'_>>,
    point: &Point,
    lines: &mut Vec<LeakLine>,
) -> Result<(), AllocError>
    ensures { OnOk result (lines.new.items ≡ lines.old.items ++ lines_at tree.now point.now) }
{
    let acts = point.acts.as_slice();
    'spots: for spot in point.leaks.as_slice() {
        lines.push(line_of(tree, acts, spot)?)?;
    }
    Ok(())
}

/// A tree has a mark for each fact. It does nothing.
fn keep(tree: &Option<Tree<'_>>)
    ensures { IsKeptWhere tree.now }
{
    if let Some(tree) = tree {
        let _facts = tree.facts();
    }
}

/// Adds the lines of all points of a subprogram.
fn push_points(
    trees: &[Option<Tree<'_>>],
    points: &[Point],
    lines: &mut Vec<LeakLine>,
) -> Result<(), AllocError>
    requires { length trees.now ≡ length points.now }
    ensures kept { OnOk result (AreKept trees.now) }
    ensures lines { OnOk result (lines.new.items ≡ lines.old.items ++ lines_along points.now trees.now) }
{
    'points: for p in 0..points.len() {
        let tree = &trees[p];
        keep(tree);
        push_point(tree, &points[p], lines)?;
    }
    Ok(())
}

/// Adds the lines of a subprogram.
fn push_sub<L: Ledger>(
    alloc: Global,
    sub: &LaidSub,
    lines: &mut Vec<LeakLine>,
    steps: &mut Steps<L>,
) -> Result<(), AllocError>
    requires { AreWithin (path_points_of sub.now.points) }
    ensures lines { OnOk result (HasLines sub.now lines.old.items lines.new.items) }
    ensures cost { steps.new ≤ steps.old + sub_steps sub.now }
{
    let points = sub.points.as_slice();
    let trees = point_trees(alloc, points, sub.facts.as_slice(), steps)?;
    push_points(&trees, points, lines)?;
    Ok(())
}

/// The lines of all leak checks of a program, in the order of the text.
pub(crate) fn all_lines<L: Ledger>(
    alloc: Global,
    laid: &Laid,
    steps: &mut Steps<L>,
) -> Result<Vec<LeakLine>, AllocError>
    ensures lines { IfOk result (λ lines. (effects : Effects)
        → TellAll (program_of laid.now) effects (checks_of (program_of laid.now).subs) lines.items) }
    ensures cost { steps.new ≤ steps.old + all_steps laid.now.subs }
{
    let mut lines = Vec::new(alloc);
    'subs: for sub in laid.subs.as_slice() {
        push_sub(alloc, sub, &mut lines, steps)?;
    }
    Ok(lines)
}
