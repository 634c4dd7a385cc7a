//! Points that change the memory alone.
ghost use Rattle.std.specs.Prelude.{◌≡◌};
ghost use Rattle.slot_goings.specs.Groups.{group_of};
ghost use Rattle.slot_tells.specs.slot_parts.Stages.{IsAt};
ghost use Rattle.slot_tells.specs.slot_parts.Steps.{Leads};

use code_rows::{Codes, Point};
use slot_goings::{Group, change_values, change_words};
use slot_heap::Store;
use slot_tells::{Parts, go, tell};
use slot_turns::Halt;
use type_layouts::Layouts;

/// A point that stores one word at most.
#[inline(always)]
pub fn step_words<R: Store>(
    codes: &Codes,
    table: &Layouts,
    parts: &mut Parts<R>,
    point: &Point,
    k: usize,
) -> Result<(), Halt>
    requires at { IsAt R.Means codes.now table.now point.now k parts.old }
    requires group { group_of point.now.does ≡ Group.Words }
    ensures { Leads R.Means codes.now table.now point.now result parts.old parts.new }
{
    match change_words(&codes.rows, &mut parts.memory, &point.does) {
        Ok(next) => go(codes, table, parts, k, next),
        Err(stop) => Err(Halt {
            stop,
            made: parts.memory.made(),
        }),
    }
}

/// A point that may have leak checks.
#[inline(always)]
pub fn step_values<R: Store>(
    codes: &Codes,
    table: &Layouts,
    parts: &mut Parts<R>,
    point: &Point,
    k: usize,
) -> Result<(), Halt>
    requires at { IsAt R.Means codes.now table.now point.now k parts.old }
    requires group { group_of point.now.does ≡ Group.Values }
    ensures { Leads R.Means codes.now table.now point.now result parts.old parts.new }
{
    parts.found.clear();
    match change_values(
        table,
        &codes.rows,
        &mut parts.memory,
        &mut parts.hand,
        &mut parts.found,
        point.pos,
        &point.does,
    ) {
        Ok(next) => {
            tell(parts)?;
            go(codes, table, parts, k, next)
        }
        Err(stop) => Err(Halt {
            stop,
            made: parts.memory.made(),
        }),
    }
}
