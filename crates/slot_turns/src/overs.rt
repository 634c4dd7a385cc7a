//! Runs that are over.
ghost use Rattle.std.specs.Prelude.{◌≡◌, ◌+◌, IfOk};
ghost use Rattle.slot_turns.specs.Overs.{EndsBy, IsCounted};

use crate::halt::Halt;
use code_rows::Stop;
use run_results::Ending;
use spark_base::Pos;
use std::alloc::AllocError;

/// How a run ended, and how many cells were made and freed then.
#[derive(Clone, Copy)]
pub struct Over {
    pub ending: Ending,
    pub made: u64,
    pub freed: u64,
}

/// The ending of a run whose point there raises an exception.
fn ending(stop: Stop, pos: Pos) -> Result<Ending, AllocError>
    ensures { IfOk result (λ ending. EndsBy stop pos ending) }
{
    match stop {
        Stop::Raises(exception) => Ok(Ending::Raised { exception, pos }),
        _ => Err(AllocError),
    }
}

/// A number with more.
fn more(number: u64, more: u64) -> Result<u64, AllocError>
    ensures { IfOk result (λ sum. sum ≡ number + more) }
{
    match number.checked_add(more) {
        Some(sum) => Ok(sum),
        None => Err(AllocError),
    }
}

/// A step stops, before which there were so many cells, of which so many were freed: the cells that
/// it made count as freed. Where it stops for too little memory there is no answer.
pub fn stopped(halt: Halt, pos: Pos, made: u64, freed: u64) -> Result<Over, AllocError>
    ensures { IfOk result (λ over. IsCounted halt pos made freed over) }
{
    let new = halt.made.saturating_sub(made);
    Ok(Over {
        ending: ending(halt.stop, pos)?,
        made: halt.made,
        freed: more(freed, new)?,
    })
}
