//! Lines of refusals, and the fixed lines (`docs/TOOL.md`, "Lines").
ghost use Rattle.std.specs.Prelude.{◌≡◌, ◌≤◌, ℕ, List, IfOk, length, map, string_bytes};
ghost use Rattle.spark_base.specs.Positions.{position_text};
ghost use Rattle.rule_reports.specs.Lines as spec;

use crate::Code;
use spark_base::{Pos, position_text};
use std::alloc::{AllocError, Global};

/// A position in a file that has no name.
fn nameless_position(alloc: Global, pos: Pos) -> Result<Vec<u8>, AllocError>
    ensures { IfOk result (λ text. (files : List (List ℕ)) → length files ≤ pos.file → text.items ≡ position_text files pos) }
{
    let line = pos.line;
    let column = pos.column;
    Ok(format!(in alloc; ":{line}:{column}")?.into_bytes())
}

/// A position by the names of the files; it is nameless where none of them has its number.
pub(crate) fn any_position(alloc: Global, files: &[String], pos: Pos) -> Result<Vec<u8>, AllocError>
    ensures { IfOk result (λ text. text.items ≡ position_text (map string_bytes files.now) pos) }
{
    if (pos.file as usize) < files.len() {
        return position_text(alloc, files, pos);
    }
    nameless_position(alloc, pos)
}

/// The line of a refusal, `POS: CODE TEXT`. The files are the names as they were given, by number.
/// A position in a file that none of them has is told without a name.
pub fn refusal_line(
    alloc: Global,
    files: &[String],
    pos: Pos,
    code: Code,
) -> Result<Vec<u8>, AllocError>
    ensures { IfOk result
        (λ text. text.items ≡ spec.refusal_line (map string_bytes files.now) pos code) }
{
    let letters = code.letters();
    let text = code.text();
    let rest = format!(in alloc; ": {letters} {text}\n")?;
    let mut line = any_position(alloc, files, pos)?;
    line.extend_from_slice(rest.as_bytes())?;
    Ok(line)
}

/// What `spark check` writes where nothing is reported.
pub fn accepted_line() -> &'static str
    ensures { result.now ≡ spec.accepted_line }
{
    "accepted\n"
}

/// The words that the program takes, in one line.
pub fn usage_line() -> &'static str
    ensures { result.now ≡ spec.usage_line }
{
    "usage: spark check FILE... | run [--steps=N] [--stats] FILE... | leaks FILE... | make N | selftest N\n"
}
