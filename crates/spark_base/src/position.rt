//! Where something stands in the sources.
ghost use Rattle.std.specs.Prelude.{◌≡◌, ◌<◌, IfOk, length, map, string_bytes};
ghost use Rattle.spark_base.specs.Positions as spec;

use std::alloc::{AllocError, Global};

/// A position in a source file. Lines and columns count from 1, and a column is a byte.
#[derive(Clone, Copy, Debug, PartialEq, Eq, PartialOrd, Ord)]
pub struct Pos {
    /// The number of the file, from 0, in the order of the command line.
    pub file: u16,
    /// The line. A line ends at its line feed.
    pub line: u32,
    /// The byte within the line.
    pub column: u32,
}

/// A position as `FILE:LINE:COLUMN`, with the file's name as it was given (`docs/TOOL.md`,
/// "Lines").
pub fn position_text(alloc: Global, files: &[String], pos: Pos) -> Result<Vec<u8>, AllocError>
    requires { pos.file < length files.now }
    ensures { IfOk result (λ text. text.items ≡ spec.position_text (map string_bytes files.now) pos) }
{
    let name = files[pos.file as usize].as_str();
    let line = pos.line;
    let column = pos.column;
    Ok(format!(in alloc; "{name}:{line}:{column}")?.into_bytes())
}
