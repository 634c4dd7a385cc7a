//! The counts of a run, as a line.
ghost use Rattle.std.specs.Prelude.{◌≡◌, ◌++◌, IfOk, map, string_bytes};
ghost use Rattle.std.specs.Fmt.{decimal};
ghost use Rattle.run_command.specs.Counts as counts;
ghost use Rattle.run_command.specs.Endings as endings;
ghost use Rattle.run_results.specs.Results.{ending_of};

use crate::ending::ending_line;
use run_results::Ran;
use std::alloc::{AllocError, Global};

/// The steps, and the cells that were made and freed.
fn cells_part(alloc: Global, steps: u64, made: u64, freed: u64) -> Result<Vec<u8>, AllocError>
    ensures { IfOk result (λ text. text.items ≡ counts.cells_part steps made freed) }
{
    Ok(format!(in alloc; "steps {steps}, made {made}, freed {freed}")?.into_bytes())
}

/// The leak checks that failed, and the slots.
fn slots_part(alloc: Global, leaked: u64, slots: u64) -> Result<Vec<u8>, AllocError>
    ensures { IfOk result (λ text. text.items ≡ counts.slots_part leaked slots) }
{
    Ok(format!(in alloc; ", leaked {leaked}, slots {slots}\n")?.into_bytes())
}

/// `steps S, made M, freed F, leaked K, slots W`.
pub fn counts_line(alloc: Global, ran: &Ran, slots: u64) -> Result<Vec<u8>, AllocError>
    ensures { IfOk result (λ line. line.items ≡ counts.counts_line ran.now.steps ran.now.made ran.now.freed ran.now.leaked slots) }
{
    let rest = slots_part(alloc, ran.leaked, slots)?;
    let mut line = cells_part(alloc, ran.steps, ran.made, ran.freed)?;
    line.extend_from_slice(&rest)?;
    Ok(line)
}

/// What comes after the lines of leaks: that of the ending, with the budget, and that of the counts
/// where it is asked for.
pub(crate) fn last_lines(
    alloc: Global,
    files: &[String],
    budget: u64,
    stats: bool,
    ran: &Ran,
    slots: u64,
) -> Result<Vec<u8>, AllocError>
    ensures { IfOk result (λ text. text.items ≡ endings.ending_line (map string_bytes files.now) budget (ending_of ran.now.ending)
        ++ counts.asked_line stats ran.now.steps ran.now.made ran.now.freed ran.now.leaked slots) }
{
    let mut text = ending_line(alloc, files, budget, ran.ending)?;
    if stats {
        let line = counts_line(alloc, ran, slots)?;
        text.extend_from_slice(&line)?;
    }
    Ok(text)
}
