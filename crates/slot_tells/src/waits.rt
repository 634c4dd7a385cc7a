//! Operands of short circuits, whose values wait.
ghost use Rattle.std.specs.Prelude.{◌≡◌, ◌≤◌, length, OnOk, IfErr};
ghost use Rattle.slot_frames.specs.Frames.{word_at};
ghost use Rattle.slot_entries.specs.Entries.{stacked_words};
ghost use Rattle.slot_held.specs.Holds.{number_before};
ghost use Rattle.slot_parts.specs.Stages.{IsAt};
ghost use Rattle.slot_parts.specs.Steps.{Leads};
ghost use Rattle.slot_tells.specs.Truths.{WaitsTruth};

use code_rows::{Codes, Does, NONE, Point, Stop};
use expression_types::BOOLEAN;
use slot_entries::drop_taken;
use slot_frames::{Frames, Wait};
use slot_heap::Store;
use slot_parts::Parts;
use slot_points::decided;
use slot_turns::{Halt, no_memory};
use slot_words::word;
use type_layouts::Layouts;

/// A truth waits in place of the values from a number on, and the run goes on at a point.
fn wait_truth<R: Store>(parts: &mut Parts<R>, k: usize, truth: i64, next: u32) -> Result<(), Halt>
    requires waits { word_at parts.old.frames.waits k (length parts.old.memory.waits) ≤ length parts.old.memory.waits }
    requires words { parts.old.words ≡ stacked_words parts.old.frames }
    ensures waits { OnOk result (WaitsTruth k truth next parts.old parts.new) }
    ensures memory { IfErr result (λ h. h.stop ≡ Stop.Memory) }
{
    if next == NONE {
        return Err(no_memory());
    }
    drop_taken(&mut parts.memory, &mut parts.frames, k);
    let first = parts.memory.waiting_words();
    if parts.memory.wait(&[truth]).is_err() {
        return Err(no_memory());
    }
    if parts.frames.push_wait(Wait { of: BOOLEAN, first }).is_err() {
        return Err(no_memory());
    }
    parts.frames.go(next);
    Ok(())
}

/// The value of the left operand waits.
pub fn step_left<R: Store>(
    codes: &Codes,
    table: &Layouts,
    parts: &mut Parts<R>,
    point: Point,
    k: usize,
    operand: u32,
    or_else: bool,
    next: u32,
    other: u32,
) -> Result<(), Halt>
    requires at { IsAt R.Means codes.now table.now point k parts.old }
    requires does { point.does ≡ Does.EvaluateLeft operand or_else next other }
    ensures { Leads R.Means codes.now table.now point result parts.old parts.new }
{
    let made = parts.memory.made();
    match word(&codes.rows.nodes, &parts.memory, operand) {
        Ok(truth) => wait_truth(parts, k, truth, decided(truth, or_else, next, other)),
        Err(stop) => Err(Halt { stop, made }),
    }
}

/// The number of the value that waits before those from a number on, in the frame that runs, where
/// there is one.
fn before(frames: &Frames, k: usize) -> usize
    ensures { result ≡ number_before frames.now.frame.waits k }
{
    if frames.frame().waits < k { k - 1 } else { k }
}

/// The value of the right operand waits in place of the left one's.
pub fn step_right<R: Store>(
    codes: &Codes,
    table: &Layouts,
    parts: &mut Parts<R>,
    point: Point,
    k: usize,
    operand: u32,
    next: u32,
) -> Result<(), Halt>
    requires at { IsAt R.Means codes.now table.now point k parts.old }
    requires does { point.does ≡ Does.EvaluateRight operand next }
    ensures { Leads R.Means codes.now table.now point result parts.old parts.new }
{
    let made = parts.memory.made();
    let left = before(&parts.frames, k);
    match word(&codes.rows.nodes, &parts.memory, operand) {
        Ok(truth) => wait_truth(parts, left, truth, next),
        Err(stop) => Err(Halt { stop, made }),
    }
}
