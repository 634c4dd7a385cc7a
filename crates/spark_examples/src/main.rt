//! Runs every example and every row of the tables of the folder `data` through the tool, over
//! memory, and compares all bytes.
//!
//! An example is an Ada file whose head has its command, its status and each line that is expected;
//! `head.rt` says in which form. A table, in the folder `tables`, is a text file with a row for
//! each of its small sources; `rows.rt` says in which form. The program lists the folders where it
//! runs, so an added example or table changes no code. It prints a line for each example and each
//! table, in the order of the paths. For an example or a row that isn't as its head or its last
//! line says it prints a line that begins with `FAILED`, followed by what differs. The last line
//! counts them. The status is 0 where none failed, else 1. No clause says that they are as
//! expected: this program is a test.
#![tactic(auto)]

mod differences;
mod example;
mod head;
mod index;
mod response;
mod rows;
mod table;
mod tally;

use example::{Verdict, judge};
use index::{example_paths, table_paths};
use std::io;
use std::process::ExitCode;
use table::judge_table;
use tally::Tally;

/// Runs all examples.
fn judge_examples(rt: &HostRuntime) -> io::Result<Tally> {
    let paths = example_paths(rt)?;
    let mut failed = 0usize;
    'examples: for path in &paths {
        match judge(rt, path.as_str())? {
            Verdict::Kept => println!(rt; "ok {path}")?,
            Verdict::Failed(why) => {
                failed = failed.saturating_add(1);
                print!(rt; "FAILED {path}\n{why}")?;
            }
        }
    }
    let count = paths.len();
    Ok(Tally { count, failed })
}

/// Runs all tables.
fn judge_tables(rt: &HostRuntime) -> io::Result<Tally> {
    let mut tally = Tally::new();
    let paths = table_paths(rt)?;
    'tables: for path in &paths {
        tally.add(judge_table(rt, path.as_str())?);
    }
    Ok(tally)
}

/// Runs all, and says how many failed.
fn judge_all(rt: &HostRuntime) -> io::Result<usize> {
    let examples = judge_examples(rt)?;
    let rows = judge_tables(rt)?;
    let failed = examples.failed.saturating_add(rows.failed);
    let (examples, rows) = (examples.count, rows.count);
    println!(rt; "{examples} examples and {rows} rows, {failed} failed")?;
    Ok(failed)
}

fn main(rt: HostRuntime) -> io::Result<ExitCode> {
    let failed = judge_all(&rt)?;
    Ok(ExitCode::from(if failed == 0 { 0u8 } else { 1u8 }))
}
