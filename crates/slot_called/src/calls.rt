//! Calls.
ghost use Rattle.std.specs.Prelude.{◌≡◌, ◌≤◌, length, OnOk, IsTrue, Some};
ghost use Rattle.code_rows.specs.Points.{actuals_of, is_range, next_of, program_of, IsWhole};
ghost use Rattle.run_codes.specs.Points as points;
ghost use Rattle.run_results.specs.Results.{leaks_of};
ghost use Rattle.slot_memory.specs.Answers.{LentOn};
ghost use Rattle.slot_frames.specs.Frames.{word_at};
ghost use Rattle.slot_entries.specs.Entries.{stacked_words};
ghost use Rattle.slot_called.specs.Calls.{Callable, Calling};

use crate::entering::enter;
use crate::passes::pass_tested;
use crate::passing::Passing;
use code_rows::{Codes, NONE, Range, Stop};
use run_results::Leak;
use slot_formals::begin_frame;
use slot_frames::Frames;
use slot_hand::Hand;
use slot_heap::Store;
use slot_leads::sub_at;
use slot_memory::Memory;
use type_layouts::Layouts;

/// A call of a subprogram, after which the frame that runs goes on at a point: the actuals are passed,
/// the words of all frames are counted, and the formals get their values in a new frame; what was
/// moved is gone, leaks of `out` actuals are found, and the frame runs. The values that wait from a
/// number on are gone: the point took them.
#[tactic(auto, using(crate::proofs::Called::call_rules))]
pub fn call<R: Store>(
    table: &Layouts,
    codes: &Codes,
    memory: &mut Memory<R>,
    frames: &mut Frames,
    hand: &mut Hand,
    passing: &mut Passing,
    found: &mut Vec<Leak>,
    words: &mut u64,
    k: usize,
    sub: u32,
    actuals: Range,
    next: u32,
) -> Result<(), Stop>
    requires whole { IsWhole codes.now }
    requires there { IsTrue (is_range codes.now.rows.actuals.items actuals) }
    requires words { words.old ≡ stacked_words frames.old }
    requires below { word_at frames.old.waits k (length memory.old.waits) ≤ length memory.old.waits }
    requires can { Callable R.Means memory.old table.now (points.sub_at (program_of codes.now) sub) words.old (actuals_of codes.now.rows actuals) }
    ensures called { Calling R.Means memory.old table.now (points.sub_at (program_of codes.now) sub) words.old (actuals_of codes.now.rows actuals) result frames.old k next (leaks_of found.old.items) (leaks_of found.new.items) memory.new frames.new }
    ensures lent { LentOn result memory.old memory.new }
    ensures next { OnOk result (next_of next ≡ Some next) }
    ensures words { OnOk result (words.new ≡ stacked_words frames.new) }
{
    if next == NONE {
        return Err(Stop::Memory);
    }
    let row = sub_at(codes, sub);
    let returned = frames.returning();
    pass_tested(
        table,
        codes,
        memory,
        hand,
        &mut passing.passes,
        *words,
        row,
        actuals,
    )?;
    let base = begin_frame(
        table,
        codes,
        memory,
        frames,
        hand,
        &passing.passes,
        &mut passing.formals,
        &mut passing.kinds,
        found,
        row,
    )?;
    enter(memory, frames, words, k, next, row, base, returned)
}
