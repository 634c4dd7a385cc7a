//! Leak checks that failed, and their lines.
ghost use Rattle.std.specs.Prelude.{◌≡◌, ◌++◌, IfOk, OnOk, map, string_bytes};
ghost use Rattle.spark_base.specs.Positions as positions;
ghost use Rattle.run_results.specs.Results.{leak_of, leaks_of};
ghost use Rattle.run_results.specs.Lines as spec;

use spark_base::Pos;
use std::alloc::{AllocError, Global};

/// A leak check that failed: the number of the cell, from 1, and where the check stands.
#[derive(Clone, Copy, Drop)]
pub struct Leak {
    pub number: u64,
    pub pos: Pos,
}

/// The name of a file by its number: empty where none of them has it.
fn file_name(files: &[String], file: u16) -> &str
    ensures { result.now ≡ positions.file_name (map string_bytes files.now) file }
{
    match files.get(file as usize) {
        Some(name) => name.as_str(),
        None => "",
    }
}

/// A position as `FILE:LINE:COLUMN`.
fn place_text(alloc: Global, files: &[String], pos: Pos) -> Result<Vec<u8>, AllocError>
    ensures { IfOk result (λ text. text.items ≡ positions.position_text (map string_bytes files.now) pos) }
{
    let name = file_name(files, pos.file);
    let line = pos.line;
    let column = pos.column;
    Ok(format!(in alloc; "{name}:{line}:{column}")?.into_bytes())
}

/// What stands after the position in the line of a leak.
#[tactic(auto, unfolding(crate::specs::Lines::leak_text))]
fn leak_text(alloc: Global, number: u64) -> Result<Vec<u8>, AllocError>
    ensures { IfOk result (λ text. text.items ≡ spec.leak_text number) }
{
    Ok(format!(in alloc; ": leak of cell {number}\n")?.into_bytes())
}

/// The line of a failed leak check, `POS: leak of cell N`. The files are the names as they were
/// given, by number; a position in a file that none of them has is told without a name.
pub fn leak_line(alloc: Global, files: &[String], leak: Leak) -> Result<Vec<u8>, AllocError>
    ensures { IfOk result (λ line. line.items ≡ spec.leak_line (map string_bytes files.now) (leak_of leak)) }
{
    let rest = leak_text(alloc, leak.number)?;
    let mut line = place_text(alloc, files, leak.pos)?;
    line.extend_from_slice(&rest)?;
    Ok(line)
}

/// Adds the lines of failed leak checks to a text.
pub fn push_lines(
    alloc: Global,
    files: &[String],
    leaks: &[Leak],
    text: &mut Vec<u8>,
) -> Result<(), AllocError>
    ensures { OnOk result (text.new.items ≡ text.old.items ++ spec.leak_lines (map string_bytes files.now) (leaks_of leaks.now)) }
{
    'leaks: for leak in leaks {
        let line = leak_line(alloc, files, *leak)?;
        text.extend_from_slice(&line)?;
    }
    Ok(())
}
