//! Findings as reports with their texts.
ghost use Rattle.std.specs.Prelude.{◌≡◌, map, IfOk, OnOk};
ghost use Rattle.report_lists.specs.Gains.{told, put_told};
ghost use Rattle.flow_paths.specs.Printing.{printed_name};
ghost use Rattle.path_reports.specs.Told.{report_found};

use fact_questions::Found;
use report_lists::{PrintedReport, ReportSet};
use spark_base::Pos;
use std::alloc::{AllocError, Global};
use type_definitions::Info;
use typed_tree::{Object, print_name};

/// What was found, as a report with the text of its name.
fn printed_report(
    alloc: Global,
    table: &[Info],
    objects: &[Object],
    pos: Pos,
    found: &Found,
) -> Result<PrintedReport, AllocError>
    ensures { IfOk result (λ report. report
        ≡ told (printed_name table.now objects.now) (report_found pos found.now)) }
{
    let text = print_name(alloc, table, objects, &found.name)?;
    Ok(PrintedReport {
        pos,
        rule: found.rule,
        name: found.name.clone()?,
        state: Some(found.state),
        text,
    })
}

/// Puts in what was found at a position.
pub(crate) fn put_found(
    alloc: Global,
    table: &[Info],
    objects: &[Object],
    pos: Pos,
    found: &[Found],
    set: &mut ReportSet,
) -> Result<(), AllocError>
    ensures { OnOk result (set.new ≡ put_told (printed_name table.now objects.now) set.old
        (map (report_found pos) found.now)) }
{
    'found: for one in found {
        set.insert(printed_report(alloc, table, objects, pos, one)?)?;
    }
    Ok(())
}
