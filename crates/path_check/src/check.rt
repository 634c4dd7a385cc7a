//! All reports of a program.
ghost use Rattle.std.specs.Prelude.{◌≡◌, ◌+◌, ◌≤◌, map, length, IfOk, OnOk};
ghost use Rattle.std.specs.List.Sorted.{IsStrictlySortedBy};
ghost use Rattle.report_lists.specs.PrintedReports.{printed_cmp};
ghost use Rattle.report_lists.specs.Gains.{told, put_told, Gains};
ghost use Rattle.flow_paths.specs.Effects.{AreEffects};
ghost use Rattle.flow_paths.specs.Printing.{printed_name};
ghost use Rattle.flow_paths.specs.Reports.{report_of, AreReports};
ghost use Rattle.path_reports.specs.CalledPoints.{AreAscending};
ghost use Rattle.laid_program.specs.Programs.{program_of};
ghost use Rattle.path_check.specs.Told.{reports_in, AreOfActuals, AreOfViews};
ghost use Rattle.path_check.specs.Verdicts.{IsVerdict, all_steps};
ghost use Rattle.path_check.specs.Paths.{OnPaths};

use crate::accepted::AcceptedProgram;
use crate::verdict::Verdict;
use flow_paths::{Effects, Report};
use laid_program::Laid;
use path_reports::path_reports;
use point_states::Steps;
use report_lists::{PrintedReport, ReportSet};
use spark_base::Listed;
use std::alloc::{AllocError, Global};
use std::sync::ledger::Ledger;
use type_definitions::Info;
use typed_tree::{Object, print_name};

/// A report with the text of its name.
fn printed_report(
    alloc: Global,
    table: &[Info],
    objects: &[Object],
    report: &Report,
) -> Result<PrintedReport, AllocError>
    ensures { IfOk result (λ printed. printed
        ≡ told (printed_name table.now objects.now) (report_of report.now)) }
{
    let text = print_name(alloc, table, objects, &report.name)?;
    Ok(PrintedReport {
        pos: report.pos,
        rule: report.rule,
        name: report.name.clone()?,
        state: report.state,
        text,
    })
}

/// Puts in some reports.
fn put_reports(
    alloc: Global,
    table: &[Info],
    objects: &[Object],
    reports: &[Report],
    set: &mut ReportSet,
) -> Result<(), AllocError>
    ensures { OnOk result (set.new
        ≡ put_told (printed_name table.now objects.now) set.old (reports_in reports.now)) }
{
    'reports: for report in reports {
        set.insert(printed_report(alloc, table, objects, report)?)?;
    }
    Ok(())
}

/// Puts in the reports of the rules on facts over all control paths of each subprogram.
fn put_paths<L: Ledger>(
    alloc: Global,
    laid: &Laid,
    effects: &Effects,
    set: &mut ReportSet,
    steps: &mut Steps<L>,
) -> Result<(), AllocError>
    requires { AreAscending effects.now }
    ensures reports { OnOk result (Gains (printed_name laid.now.table laid.now.objects)
        (OnPaths laid.now.objects effects.now laid.now.subs) set.old set.new) }
    ensures cost { steps.new ≤ steps.old + all_steps laid.now.subs }
{
    let table = laid.table.infos();
    let objects = laid.objects.as_slice();
    'subs: for sub in laid.subs.as_slice() {
        let points = sub.points.as_slice();
        path_reports(
            alloc,
            table,
            objects,
            effects,
            points,
            sub.facts.as_slice(),
            set,
            steps,
        )?;
    }
    Ok(())
}

/// A report without the text of its name.
fn without_text(printed: &PrintedReport) -> Result<Report, AllocError>
    ensures { IfOk result (λ report. report_of report ≡ printed.now.report) }
{
    Ok(Report {
        pos: printed.pos,
        rule: printed.rule,
        name: printed.name.clone()?,
        state: printed.state,
    })
}

/// The reports of a set, in order.
fn in_order(alloc: Global, set: ReportSet) -> Result<Listed<Report>, AllocError>
    ensures reports { IfOk result (λ reports. reports_in reports ≡ map (λ p. p.report) set) }
    ensures ordered { IsStrictlySortedBy printed_cmp set }
{
    let ordered = set.into_ordered(alloc)?;
    let mut reports = Listed::new(alloc);
    'ordered: for printed in &ordered {
        reports.push(without_text(printed)?)?;
    }
    Ok(reports)
}

/// All reports of a program, in order.
fn all_reports<L: Ledger>(
    alloc: Global,
    laid: &Laid,
    effects: &Effects,
    alias: &[Report],
    views: &[Report],
    steps: &mut Steps<L>,
) -> Result<Listed<Report>, AllocError>
    requires effects { AreEffects (program_of laid.now) effects.now }
    requires alias { AreOfActuals (program_of laid.now) effects.now alias.now }
    requires views { AreOfViews (program_of laid.now) effects.now views.now }
    ensures reports { IfOk result
        (λ reports. AreReports (program_of laid.now) effects.now (reports_in reports)) }
    ensures cost { steps.new ≤ steps.old + all_steps laid.now.subs }
{
    let table = laid.table.infos();
    let objects = laid.objects.as_slice();
    let mut set = ReportSet::new(alloc);
    put_reports(alloc, table, objects, alias, &mut set)?;
    put_reports(alloc, table, objects, views, &mut set)?;
    put_paths(alloc, laid, effects, &mut set, steps)?;
    Ok(in_order(alloc, set)?)
}

/// Tells whether a program is accepted, or all of its reports. What the rules on the text report
/// comes in any order. Each state that is carried along a successor counts one step, whatever comes
/// of it. The only error is out of memory.
pub fn check_paths<L: Ledger>(
    alloc: Global,
    laid: Laid,
    effects: Effects,
    alias: Listed<Report>,
    views: Listed<Report>,
    steps: &mut Steps<L>,
) -> Result<Verdict, AllocError>
    requires effects { AreEffects (program_of laid) effects }
    requires alias { AreOfActuals (program_of laid) effects alias }
    requires views { AreOfViews (program_of laid) effects views }
    ensures verdict { IfOk result (λ verdict. IsVerdict laid effects verdict) }
    ensures cost { steps.new ≤ steps.old + all_steps laid.subs }
{
    let reports = all_reports(
        alloc,
        &laid,
        &effects,
        alias.as_slice(),
        views.as_slice(),
        steps,
    )?;
    Ok(if reports.is_empty() {
        Verdict::Accepted(AcceptedProgram::new(laid, effects))
    } else {
        Verdict::Rejected {
            names: laid.into_names(),
            reports,
        }
    })
}
