//! Lines of leak checks (`docs/TOOL.md`, "Lines").
ghost use Rattle.std.specs.Prelude.{◌≡◌, IfOk, map, string_bytes};
ghost use Rattle.flow_paths.specs.Printing.{printed_name};
ghost use Rattle.rule_reports.specs.Lines as spec;

use crate::refusal::any_position;
use flow_paths::LeakLine;
use std::alloc::{AllocError, Global};
use type_definitions::Info;
use typed_tree::{Object, print_name};

/// What is said of a leak check.
fn check_word(excused: bool) -> &'static str
    ensures { result.now ≡ spec.check_word excused }
{
    if excused { "excused" } else { "checked" }
}

/// The line of a leak check, `POS: NAME checked` or `POS: NAME excused`. The files are the names as
/// they were given, by number; `table` has the types and `objects` the objects that its name speaks
/// of.
pub fn leak_plan_line(
    alloc: Global,
    files: &[String],
    table: &[Info],
    objects: &[Object],
    check: &LeakLine,
) -> Result<Vec<u8>, AllocError>
    ensures { IfOk result (λ text. text.items
        ≡ spec.leak_plan_line (map string_bytes files.now) (printed_name table.now objects.now) check.now) }
{
    let word = check_word(check.excused);
    let name = print_name(alloc, table, objects, &check.name)?;
    let mut line = any_position(alloc, files, check.pos)?;
    line.extend_from_slice(b": ")?;
    line.extend_from_slice(&name)?;
    line.extend_from_slice(format!(in alloc; " {word}\n")?.as_bytes())?;
    Ok(line)
}

/// The lines of some leak checks, in their order.
pub fn leak_plan_lines(
    alloc: Global,
    files: &[String],
    table: &[Info],
    objects: &[Object],
    checks: &[LeakLine],
) -> Result<Vec<u8>, AllocError>
    ensures { IfOk result (λ text. text.items
        ≡ spec.leak_plan_lines (map string_bytes files.now) (printed_name table.now objects.now) checks.now) }
{
    let mut lines = Vec::new(alloc);
    'checks: for check in checks {
        let line = leak_plan_line(alloc, files, table, objects, check)?;
        lines.extend_from_slice(&line)?;
    }
    Ok(lines)
}
