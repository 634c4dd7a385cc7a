//! The reports on the actuals of all calls.
ghost use Rattle.std.specs.Prelude.{◌≡◌, None, is_some, map, flat_map, IfOk, OnOk};
ghost use Rattle.spark_base.specs.Lists.{Has};
ghost use Rattle.typed_tree.specs.Nodes.{typed_at};
ghost use Rattle.flow_paths.specs.Objects.{sub_at};
ghost use Rattle.flow_paths.specs.Aliases.{passed, alias_reports};
ghost use Rattle.flow_paths.specs.Reports.{report_of};
ghost use Rattle.laid_program.specs.Programs.{program_of};
ghost use Rattle.alias_rules.specs.Told.{known, formals_of, actuals_reports, Adds, point_reports, sub_reports, IsPointOf, ArePointsOf};
ghost use Rattle.alias_rules.specs.Steps.{AreShallow};
ghost use Rattle.alias_rules.specs.Order.{AreOrdered};

use crate::actuals::named_actuals;
use crate::order::are_ordered;
use crate::rules::{globals, overlaps};
use flow_paths::{Effects, Instr, Point, Report};
use laid_program::Laid;
use spark_base::Listed;
use std::alloc::{AllocError, Global};

/// The formals of a subprogram, in order.
#[tactic(auto, using(crate::proofs::Subs::formals_past))]
fn formals(laid: &Laid, callee: u32) -> &[u32]
    ensures { result.now ≡ formals_of laid.now callee }
{
    match laid.subs.as_slice().get(callee as usize) {
        Some(sub) => sub.formals.as_slice(),
        None => &[],
    }
}

/// The type of the result of a subprogram, where it is a function.
#[tactic(auto, using(crate::proofs::Subs::result_past))]
fn given(laid: &Laid, callee: u32) -> Option<u32>
    ensures { result ≡ (sub_at (known laid.now) callee).result }
{
    match laid.subs.as_slice().get(callee as usize) {
        Some(sub) => sub.result,
        None => None,
    }
}

/// Whether a subprogram is a function.
fn is_function(laid: &Laid, callee: u32) -> bool
    ensures { result ≡ is_some (sub_at (known laid.now) callee).result }
{
    given(laid, callee).is_some()
}

/// The reports of one call of a procedure.
fn report_call(
    alloc: Global,
    laid: &Laid,
    effects: &Effects,
    ordered: bool,
    callee: u32,
    actuals: usize,
    reports: &mut Listed<Report>,
) -> Result<(), AllocError>
    requires order { AreOrdered ordered effects.now }
    requires shallow { AreShallow (passed (formals_of laid.now callee) (typed_at laid.now.rows actuals)) }
    ensures { OnOk result (Adds reports.old reports.new (actuals_reports laid.now effects.now callee actuals)) }
{
    let names = named_actuals(alloc, &laid.rows, formals(laid, callee), actuals)?;
    overlaps(laid, &names, reports)?;
    globals(laid, effects, ordered, callee, &names, reports)?;
    Ok(())
}

/// The reports of one point.
fn report_point(
    alloc: Global,
    laid: &Laid,
    effects: &Effects,
    ordered: bool,
    point: &Point,
    reports: &mut Listed<Report>,
) -> Result<(), AllocError>
    requires order { AreOrdered ordered effects.now }
    requires point { IsPointOf laid.now.subs point.now }
    ensures { OnOk result (Adds reports.old reports.new (point_reports (known laid.now) effects.now laid.now.rows point.now)) }
{
    match &point.instr {
        Instr::Call {
            sub,
            actuals,
            result: None,
        } => {
            if is_function(laid, *sub) {
                return Ok(());
            }
            report_call(alloc, laid, effects, ordered, *sub, *actuals, reports)
        }
        _ => Ok(()),
    }
}

/// The reports of the points of a subprogram.
fn report_points(
    alloc: Global,
    laid: &Laid,
    effects: &Effects,
    ordered: bool,
    points: &[Point],
    reports: &mut Listed<Report>,
) -> Result<(), AllocError>
    requires order { AreOrdered ordered effects.now }
    requires points { ArePointsOf laid.now.subs points.now }
    ensures { OnOk result (Adds reports.old reports.new (flat_map (point_reports (known laid.now) effects.now laid.now.rows) points.now)) }
{
    'points: for point in points {
        report_point(alloc, laid, effects, ordered, point, reports)?;
    }
    Ok(())
}

/// What A1 and A2 report of a program, call by call (`docs/FLOW.md`, "Actuals that overlap").
pub fn alias_reports(
    alloc: Global,
    laid: &Laid,
    effects: &Effects,
) -> Result<Listed<Report>, AllocError>
    ensures { IfOk result (λ reports. map report_of reports ≡ alias_reports (program_of laid.now) effects.now) }
{
    let ordered = are_ordered(effects);
    let mut reports = Listed::new(alloc);
    'subs: for sub in laid.subs.as_slice() {
        report_points(
            alloc,
            laid,
            effects,
            ordered,
            sub.points.as_slice(),
            &mut reports,
        )?;
    }
    Ok(reports)
}
