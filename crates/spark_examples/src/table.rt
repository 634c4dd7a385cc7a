//! Runs the rows of a table.
use crate::differences::differences;
use crate::head::HeadFault;
use crate::response::response_to;
use crate::rows::{Row, read_rows};
use crate::tally::Tally;
use std::alloc::AllocError;
use std::{fs, io, mem};

/// Runs a row, and prints what differs where something does. The answer is whether nothing does.
fn judge_row(rt: &HostRuntime, path: &str, row: &mut Row) -> io::Result<bool> {
    let alloc = rt.alloc();
    let files = mem::replace(&mut row.files, Vec::new(alloc));
    let response = response_to(alloc, &row.head, files)?;
    if row.is_kept_by(&response) {
        return Ok(true);
    }
    let line = row.line;
    let why = differences(alloc, &row.head, &response)?;
    print!(rt; "FAILED {path}:{line}\n{why}")?;
    Ok(false)
}

/// Runs the rows of a table, and prints a line for each that fails, or one for the table.
pub(crate) fn judge_table(rt: &HostRuntime, path: &str) -> io::Result<Tally> {
    let text = fs::read(rt, path)?;
    let mut rows = match read_rows(rt.alloc(), &text) {
        Ok(rows) => rows,
        Err(HeadFault::Memory) => return Err(io::Error::from(AllocError)),
        Err(HeadFault::BadEntry) => {
            println!(rt; "FAILED {path}\na name or a word isn't UTF-8")?;
            return Ok(Tally {
                count: 0,
                failed: 1,
            });
        }
        Err(HeadFault::Missing) => {
            println!(rt; "FAILED {path}\nthe last row has no last line")?;
            return Ok(Tally {
                count: 0,
                failed: 1,
            });
        }
    };
    let mut failed = 0usize;
    'rows: for row in &mut rows {
        if !judge_row(rt, path, row)? {
            failed = failed.saturating_add(1);
        }
    }
    let count = rows.len();
    if failed == 0 {
        println!(rt; "ok {path}: {count} rows")?;
    }
    Ok(Tally { count, failed })
}
