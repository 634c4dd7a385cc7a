//! Calls and their ends.
ghost use Rattle.std.specs.Prelude.{◌≡◌};
ghost use Rattle.slot_tells.specs.slot_parts.Stages.{IsAt};
ghost use Rattle.slot_tells.specs.slot_parts.Steps.{Leads, StepsOf};

use code_rows::{Codes, Does, Exception, Point, Range, Stop};
use slot_called::{Passing, call};
use slot_finished::finish;
use slot_heap::Store;
use slot_tells::{Parts, tell};
use slot_turns::Halt;
use type_layouts::Layouts;

/// A call, whose frame runs then.
pub(crate) fn step_call<R: Store>(
    codes: &Codes,
    table: &Layouts,
    parts: &mut Parts<R>,
    passing: &mut Passing,
    point: Point,
    k: usize,
    sub: u32,
    actuals: Range,
    next: u32,
) -> Result<(), Halt>
    requires at { IsAt R.Means codes.now table.now point k parts.old }
    requires does { point.does ≡ Does.Call sub actuals next }
    ensures { Leads R.Means codes.now table.now point result parts.old parts.new }
{
    parts.found.clear();
    match call(
        table,
        codes,
        &mut parts.memory,
        &mut parts.frames,
        &mut parts.hand,
        passing,
        &mut parts.found,
        &mut parts.words,
        k,
        sub,
        actuals,
        next,
    ) {
        Ok(()) => tell(parts),
        Err(stop) => Err(Halt {
            stop,
            made: parts.memory.made(),
        }),
    }
}

/// The end of a call: whether the run goes on.
pub(crate) fn step_finish<R: Store>(
    codes: &Codes,
    table: &Layouts,
    parts: &mut Parts<R>,
    point: Point,
    k: usize,
) -> Result<bool, Halt>
    requires at { IsAt R.Means codes.now table.now point k parts.old }
    requires does { point.does ≡ Does.Finish }
    ensures { StepsOf R.Means codes.now table.now point result parts.old parts.new }
{
    match finish(
        table,
        &mut parts.memory,
        &mut parts.frames,
        &mut parts.hand,
        &mut parts.words,
    ) {
        Ok(others) => Ok(others),
        Err(stop) => Err(Halt {
            stop,
            made: parts.memory.made(),
        }),
    }
}

/// The end of a function raises an exception.
pub(crate) fn step_fall<R: Store>(
    codes: &Codes,
    table: &Layouts,
    parts: &Parts<R>,
    point: Point,
    k: usize,
) -> Result<bool, Halt>
    requires at { IsAt R.Means codes.now table.now point k parts.now }
    requires does { point.does ≡ Does.Fall }
    ensures { StepsOf R.Means codes.now table.now point result parts.now parts.now }
{
    Err(Halt {
        stop: Stop::Raises(Exception::ProgramError),
        made: parts.memory.made(),
    })
}
