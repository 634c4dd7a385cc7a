//! Lines of reports (`docs/TOOL.md`, "Lines").
ghost use Rattle.std.specs.Prelude.{◌≡◌, IfOk, map, string_bytes};
ghost use Rattle.flow_paths.specs.Printing.{printed_name};
ghost use Rattle.flow_paths.specs.Reports.{report_of};
ghost use Rattle.rule_reports.specs.Lines as spec;

use crate::refusal::any_position;
use flow_paths::Report;
use place_names::{Rule, State};
use std::alloc::{AllocError, Global};
use type_definitions::Info;
use typed_tree::{Object, print_name};

/// What the rules that look at the text without paths say. A report of another rule has a word.
fn rule_words(rule: Rule) -> &'static str
    ensures { result.now ≡ spec.rule_words rule }
{
    match rule {
        Rule::A1 => "overlaps another actual",
        Rule::A2 => "overlaps a global of the callee",
        Rule::V1 => "constant view",
        Rule::V2 => "source ends before the observer",
        Rule::V3 => "not rooted in the traversed parameter",
        Rule::V4 => "not rooted in the borrower",
        _ => "",
    }
}

/// What a report says of its name.
fn word_text(rule: Rule, state: Option<State>) -> &'static str
    ensures { result.now ≡ spec.word_text rule state }
{
    match state {
        Some(state) => state.text(),
        None => rule_words(rule),
    }
}

/// The line of a report, `POS: RULE NAME: WORD`. The files are the names as they were given, by
/// number; `table` has the types and `objects` the objects that its name speaks of.
pub fn report_line(
    alloc: Global,
    files: &[String],
    table: &[Info],
    objects: &[Object],
    report: &Report,
) -> Result<Vec<u8>, AllocError>
    ensures { IfOk result (λ text. text.items
        ≡ spec.report_line (map string_bytes files.now) (printed_name table.now objects.now) (report_of report.now)) }
{
    let rule = report.rule.text();
    let word = word_text(report.rule, report.state);
    let name = print_name(alloc, table, objects, &report.name)?;
    let mut line = any_position(alloc, files, report.pos)?;
    line.extend_from_slice(format!(in alloc; ": {rule} ")?.as_bytes())?;
    line.extend_from_slice(&name)?;
    line.extend_from_slice(format!(in alloc; ": {word}\n")?.as_bytes())?;
    Ok(line)
}

/// The lines of some reports, in their order.
pub fn report_lines(
    alloc: Global,
    files: &[String],
    table: &[Info],
    objects: &[Object],
    reports: &[Report],
) -> Result<Vec<u8>, AllocError>
    ensures { IfOk result (λ text. text.items
        ≡ spec.report_lines (map string_bytes files.now) (printed_name table.now objects.now) (map report_of reports.now)) }
{
    let mut lines = Vec::new(alloc);
    'reports: for report in reports {
        let line = report_line(alloc, files, table, objects, report)?;
        lines.extend_from_slice(&line)?;
    }
    Ok(lines)
}
