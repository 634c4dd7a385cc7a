//! The actuals of a call, and room for its frame.
ghost use Rattle.std.specs.Prelude.{◌≡◌, ◌+◌, length, map, nat_le, IsTrue, OnOk};
ghost use Rattle.machine.specs.States.{stack_words};
ghost use Rattle.code_rows.specs.Points.{actuals_of, is_range, sub_of, AreSound};
ghost use Rattle.slot_memory.specs.Memory.{elsewhere};
ghost use Rattle.slot_formals.specs.slot_calls.Calls.{passed_of, AreWithin, PassableAll, PassedAll};
ghost use Rattle.slot_called.specs.Calls.{Callable, PassedTested};

use code_rows::{Codes, Exception, Range, Rows, Stop, Sub};
use slot_formals::{Pass, pass_actuals};
use slot_hand::Hand;
use slot_heap::Store;
use slot_memory::Memory;
use type_layouts::Layouts;

/// The most words of all frames.
const STACK_WORDS: u64 = 4_194_304;

/// Whether words of a frame and those of the others aren't too many.
fn have_room(more: u64, words: u64) -> bool
    ensures { result ≡ nat_le (more + words) stack_words }
{
    more <= STACK_WORDS && words <= STACK_WORDS - more
}

/// The actuals of a call are passed in order.
fn pass_all<R: Store>(
    table: &Layouts,
    rows: &Rows,
    memory: &mut Memory<R>,
    hand: &mut Hand,
    passes: &mut Vec<Pass>,
    actuals: Range,
) -> Result<(), Stop>
    requires sound { AreSound rows.now }
    requires range { IsTrue (is_range rows.now.actuals.items actuals) }
    requires whole { PassableAll R.Means memory.old table.now (actuals_of rows.now actuals) }
    ensures passed { PassedAll R.Means memory.old table.now (actuals_of rows.now actuals) result (map (passed_of hand.new) passes.new.items) memory.new }
    ensures within { OnOk result (AreWithin (length hand.new) passes.new.items) }
    ensures elsewhere { elsewhere memory.new ≡ elsewhere memory.old }
{
    hand.clear();
    passes.clear();
    let first = actuals.first as usize;
    let actuals = &rows.actuals[first..first + actuals.count as usize];
    pass_actuals(table, rows, memory, hand, actuals, passes)
}

/// The same, where there is room for the frame of a subprogram beside so many words.
#[tactic(auto, using(crate::proofs::Tested::tested_rules))]
pub(crate) fn pass_tested<R: Store>(
    table: &Layouts,
    codes: &Codes,
    memory: &mut Memory<R>,
    hand: &mut Hand,
    passes: &mut Vec<Pass>,
    words: u64,
    sub: Sub,
    actuals: Range,
) -> Result<(), Stop>
    requires sound { AreSound codes.now.rows }
    requires range { IsTrue (is_range codes.now.rows.actuals.items actuals) }
    requires can { Callable R.Means memory.old table.now (sub_of codes.now sub) words (actuals_of codes.now.rows actuals) }
    ensures passed { PassedTested R.Means memory.old table.now (sub_of codes.now sub) words (actuals_of codes.now.rows actuals) result (map (passed_of hand.new) passes.new.items) memory.new }
    ensures within { OnOk result (AreWithin (length hand.new) passes.new.items) }
    ensures elsewhere { elsewhere memory.new ≡ elsewhere memory.old }
{
    pass_all(table, &codes.rows, memory, hand, passes, actuals)?;
    if have_room(sub.words, words) {
        Ok(())
    } else {
        Err(Stop::Raises(Exception::StorageError))
    }
}
