//! How a run ends, as a line and a status.
ghost use Rattle.std.specs.Prelude.{◌≡◌, ◌++◌, [], ◌∷◌, codes, IfOk, map, string_bytes};
ghost use Rattle.std.specs.Fmt.{decimal};
ghost use Rattle.code_rows.specs.Stops.{exception_of};
ghost use Rattle.run_results.specs.Results.{ending_of};
ghost use Rattle.spark_base.specs.Positions as positions;
ghost use Rattle.run_command.specs.Endings as spec;

use code_rows::Exception;
use run_results::{Ending, Ran};
use spark_base::Pos;
use std::alloc::{AllocError, Global};

/// The name of an exception (Ada 2012, A.1 and A.13).
fn exception_name(exception: Exception) -> &'static str
    ensures { result.now ≡ spec.exception_name (exception_of exception) }
{
    match exception {
        Exception::ConstraintError => "Constraint_Error",
        Exception::ProgramError => "Program_Error",
        Exception::StorageError => "Storage_Error",
        Exception::DataError => "Data_Error",
        Exception::EndError => "End_Error",
    }
}

/// The name of a file by its number: empty where none of them has it.
fn file_name(files: &[String], file: u16) -> &str
    ensures { result.now ≡ positions.file_name (map string_bytes files.now) file }
{
    match files.get(file as usize) {
        Some(name) => name.as_str(),
        None => "",
    }
}

/// `POS: WORD NAME`.
fn line_at(
    alloc: Global,
    files: &[String],
    pos: Pos,
    word: &str,
    name: &str,
) -> Result<Vec<u8>, AllocError>
    ensures { IfOk result (λ line. line.items ≡ spec.line_at (map string_bytes files.now) pos (word.now ++ codes " " ++ name.now)) }
{
    let file = file_name(files, pos.file);
    let row = pos.line;
    let column = pos.column;
    Ok(format!(in alloc; "{file}:{row}:{column}: {word} {name}\n")?.into_bytes())
}

/// The line of an ending, with the budget. A normal ending has none.
pub fn ending_line(
    alloc: Global,
    files: &[String],
    budget: u64,
    ending: Ending,
) -> Result<Vec<u8>, AllocError>
    ensures { IfOk result (λ line. line.items ≡ spec.ending_line (map string_bytes files.now) budget (ending_of ending)) }
{
    match ending {
        Ending::Normal => Ok(Vec::new(alloc)),
        Ending::Raised { exception, pos } => {
            line_at(alloc, files, pos, "raised", exception_name(exception))
        }
        Ending::Spent => Ok(format!(in alloc; "steps spent: {budget}\n")?.into_bytes()),
    }
}

/// The status of a run.
pub fn ending_status(ran: &Ran) -> u8
    ensures { result ≡ spec.ending_status ran.now.leaked (ending_of ran.now.ending) }
{
    match ran.ending {
        Ending::Normal if ran.leaked == 0 => 0,
        Ending::Normal => 5,
        Ending::Raised { .. } => 3,
        Ending::Spent => 4,
    }
}
