//! Results of functions.
ghost use Rattle.std.specs.Prelude.{◌≡◌};
ghost use Rattle.slot_tells.specs.slot_parts.Stages.{IsAt};
ghost use Rattle.slot_tells.specs.slot_parts.Steps.{Leads};

use code_rows::{Codes, Does, Point};
use slot_called::hold;
use slot_heap::Store;
use slot_tells::Parts;
use slot_turns::Halt;
use type_layouts::Layouts;

/// The result of a function waits in the frame of its caller.
pub(crate) fn step_hold<R: Store>(
    codes: &Codes,
    table: &Layouts,
    parts: &mut Parts<R>,
    point: Point,
    k: usize,
    value: u32,
    of: u32,
    next: u32,
) -> Result<(), Halt>
    requires at { IsAt R.Means codes.now table.now point k parts.old }
    requires does { point.does ≡ Does.Hold value of next }
    ensures { Leads R.Means codes.now table.now point result parts.old parts.new }
{
    match hold(
        table,
        &codes.rows,
        &mut parts.memory,
        &mut parts.frames,
        &mut parts.hand,
        k,
        value,
        of,
        next,
    ) {
        Ok(()) => Ok(()),
        Err(stop) => Err(Halt {
            stop,
            made: parts.memory.made(),
        }),
    }
}
