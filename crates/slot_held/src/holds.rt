//! Results that wait.
ghost use Rattle.std.specs.Prelude.{◌≡◌, ◌≤◌, length, IsTrue, OnOk, OnErr, IsErrOf};
ghost use Rattle.code_rows.specs.Points.{is_value};
ghost use Rattle.code_rows.specs.Values.{fill_at, are_within};
ghost use Rattle.slot_memory.specs.Answers.{LentOn};
ghost use Rattle.slot_frames.specs.Frames.{word_at};
ghost use Rattle.slot_held.specs.Holds.{Waits, Holdable, Holding};

use code_rows::{Rows, Stop};
use slot_frames::{Frames, Wait};
use slot_hand::Hand;
use slot_heap::Store;
use slot_memory::Memory;
use slot_values::fill;
use type_layouts::Layouts;

/// The words at hand are a value that waits in the frame of the caller; those that the point takes,
/// from a number on, are gone. There is too little memory where other values wait in the frame that
/// runs: rows have no frames with such values between those of others.
fn let_wait<R: Store>(
    memory: &mut Memory<R>,
    frames: &mut Frames,
    hand: &Hand,
    k: usize,
    of: u32,
    next: u32,
) -> Result<(), Stop>
    requires { word_at frames.old.waits k (length memory.old.waits) ≤ length memory.old.waits }
    ensures waits { OnOk result (Waits memory.old frames.old k of hand.now next memory.new frames.new) }
    ensures memory { OnErr result (IsErrOf result Stop.Memory) }
{
    if frames.frame().waits != k {
        return Err(Stop::Memory);
    }
    let first = frames.first_word(k, memory.waiting_words());
    memory.cut_waits(first);
    frames.cut_waits(k);
    let first = memory.waiting_words();
    memory.wait(hand.words())?;
    frames.push_wait(Wait { of, first })?;
    frames.leave_waits();
    frames.go(next);
    Ok(())
}

/// The result of a function waits in the frame of its caller. The values that the point takes, from a
/// number on, are gone.
#[tactic(auto, using(crate::proofs::Held::hold_rules))]
pub fn hold<R: Store>(
    table: &Layouts,
    rows: &Rows,
    memory: &mut Memory<R>,
    frames: &mut Frames,
    hand: &mut Hand,
    k: usize,
    value: u32,
    of: u32,
    next: u32,
) -> Result<(), Stop>
    requires within { IsTrue (are_within rows.now.nodes rows.now.fills) }
    requires there { IsTrue (is_value rows.now value) }
    requires waits { word_at frames.old.waits k (length memory.old.waits) ≤ length memory.old.waits }
    requires whole { Holdable R.Means memory.old table.now (fill_at rows.now.nodes rows.now.fills value) }
    ensures lent { LentOn result memory.old memory.new }
    ensures held { Holding R.Means memory.old table.now (fill_at rows.now.nodes rows.now.fills value) result frames.old k of next memory.new frames.new }
{
    hand.clear();
    fill(table, &rows.nodes, &rows.fills, memory, hand, value)?;
    memory.settle();
    let_wait(memory, frames, hand, k, of, next)
}
