//! Points that write or read.
ghost use Rattle.std.specs.Prelude.{◌≡◌};
ghost use Rattle.slot_parts.specs.Stages.{IsAt};
ghost use Rattle.slot_parts.specs.Steps.{Leads};

use code_rows::{Codes, Does, Place, Point, Range};
use slot_heap::Store;
use slot_parts::{Parts, go};
use slot_points::{input, output};
use slot_turns::Halt;
use std::alloc::Global;
use type_layouts::Layouts;

/// Pieces of a string are written.
pub fn step_output<R: Store>(
    alloc: Global,
    codes: &Codes,
    table: &Layouts,
    parts: &mut Parts<R>,
    point: Point,
    k: usize,
    texts: Range,
    line: bool,
    next: u32,
) -> Result<(), Halt>
    requires at { IsAt R.Means codes.now table.now point k parts.old }
    requires does { point.does ≡ Does.Output texts line next }
    ensures { Leads R.Means codes.now table.now point result parts.old parts.new }
{
    let made = parts.memory.made();
    match output(
        alloc,
        &codes.rows,
        table.table(),
        &parts.memory,
        texts,
        line,
        &mut parts.output,
    ) {
        Ok(()) => go(codes, table, parts, k, next),
        Err(stop) => Err(Halt { stop, made }),
    }
}

/// The next item of the input is stored at a place.
pub fn step_input<R: Store>(
    codes: &Codes,
    table: &Layouts,
    parts: &mut Parts<R>,
    point: Point,
    k: usize,
    place: Place,
    low: i32,
    high: i32,
    next: u32,
) -> Result<(), Halt>
    requires at { IsAt R.Means codes.now table.now point k parts.old }
    requires does { point.does ≡ Does.Input place low high next }
    ensures { Leads R.Means codes.now table.now point result parts.old parts.new }
{
    let made = parts.memory.made();
    match input(&codes.rows.nodes, &mut parts.memory, place, low, high) {
        Ok(end) => {
            parts.memory.read_to(end);
            go(codes, table, parts, k, next)
        }
        Err(stop) => Err(Halt { stop, made }),
    }
}
