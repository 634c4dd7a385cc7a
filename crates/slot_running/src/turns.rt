//! The next step of a run.
ghost use Rattle.std.specs.Prelude.{◌≡◌, ◌≢◌, ◌<◌, None, IfOk};
ghost use Rattle.code_rows.specs.Points.{IsWhole};
ghost use Rattle.code_rows.specs.declared.stop.Stop.TheVariants as stop;
ghost use Rattle.slot_memory.specs.Memory.{IsKnown};
ghost use Rattle.slot_memory.specs.Given.{CanGive};
ghost use Rattle.slot_steps.specs.slot_parts.Stages.{IsAt};
ghost use Rattle.slot_running.specs.Runs.{AreKept, CanTurns, AreTurns};
ghost use Rattle.slot_running.specs.Points.{IsHalted, IsPointTurn};

use crate::free::{Free, free_point};
use code_rows::{Codes, Point};
use run_results::Ending;
use slot_heap::Store;
use slot_steps::{Parts, Passing, step_point, step_values};
use slot_turns::{Halt, Over, point_at, stopped, take};
use spark_base::Pos;
use std::alloc::{AllocError, Global};
use type_layouts::Layouts;

/// The run is over after the end of the main procedure.
pub(crate) fn ended<R: Store>(parts: &Parts<R>) -> Over
    requires { IsKnown R.Means parts.now.memory }
    ensures ending { result.ending ≡ Ending.Normal }
    ensures made { result.made ≡ parts.now.memory.heap.made }
    ensures freed { result.freed ≡ parts.now.memory.heap.freed }
{
    let made = parts.memory.made();
    Over {
        ending: Ending::Normal,
        made,
        freed: parts.memory.freed_with(made),
    }
}

/// The run is over where a point stops, before which there were so many cells, of which so many were
/// freed: those that it made are given up.
#[inline(never)]
fn halted<R: Store>(
    parts: &mut Parts<R>,
    halt: Halt,
    pos: Pos,
    made: u64,
    freed: u64,
) -> Result<Over, AllocError>
    requires { halt.stop ≢ stop.Memory → CanGive R.Means parts.old.memory.heap made }
    ensures { IfOk result (λ over. IsHalted R.Means halt pos made freed over parts.old parts.new) }
{
    let over = stopped(halt, pos, made, freed)?;
    parts.memory.give_up(made);
    Ok(over)
}

/// The step of a point.
#[inline(never)]
fn turn_point<R: Store>(
    alloc: Global,
    codes: &Codes,
    table: &Layouts,
    parts: &mut Parts<R>,
    passing: &mut Passing,
    point: &Point,
    k: usize,
) -> Result<Option<Over>, AllocError>
    requires { IsAt R.Means codes.now table.now point.now k parts.old }
    ensures { IfOk result (λ over. IsPointTurn R.Means codes.now table.now point.now over parts.old parts.new) }
{
    let made = parts.memory.made();
    let freed = parts.memory.freed_with(made);
    match step_point(alloc, codes, table, parts, passing, point, k) {
        Ok(true) => Ok(None),
        Ok(false) => Ok(Some(ended(parts))),
        Err(halt) => Ok(Some(halted(parts, halt, point.pos, made, freed)?)),
    }
}

/// Makes at most so many steps, but at least one, until a leak is to be told or a point was another
/// one, which may have written. Where a step can't be made for want of memory, nothing is told.
pub(crate) fn turns<R: Store>(
    alloc: Global,
    codes: &Codes,
    table: &Layouts,
    parts: &mut Parts<R>,
    passing: &mut Passing,
    limit: u64,
) -> Result<(u64, Option<Over>), AllocError>
    requires some { 0 < limit }
    requires whole { IsWhole codes.now }
    requires kept { AreKept R.Means None parts.old }
    requires can { CanTurns R.Means codes.now table.now limit parts.old }
    ensures { IfOk result (λ made. AreTurns R.Means codes.now table.now limit made.0 made.1 parts.old parts.new) }
{
    let mut made = 0u64;
    'steps: while made < limit {
        let point = point_at(codes, parts.frames.frame().next);
        let takes = point.takes;
        let Some(k) = take(codes, &mut parts.memory, &parts.frames, takes) else {
            return Err(AllocError);
        };
        match free_point(codes, table, parts, point, takes.count, k) {
            Free::Goes => made += 1,
            Free::Values => {
                let cells = parts.memory.made();
                let freed = parts.memory.freed_with(cells);
                match step_values(codes, table, parts, point, k) {
                    Ok(()) => made += 1,
                    Err(halt) => {
                        let over = halted(parts, halt, point.pos, cells, freed)?;
                        return Ok((made + 1, Some(over)));
                    }
                }
                if !parts.leaks.is_empty() {
                    return Ok((made, None));
                }
            }
            Free::Stays => {
                let over = turn_point(alloc, codes, table, parts, passing, point, k)?;
                return Ok((made + 1, over));
            }
            Free::Fails => return Err(AllocError),
        }
    }
    Ok((made, None))
}
