//! Frames with the values of their formals.
ghost use Rattle.std.specs.Prelude.{◌≡◌, ◌++◌, length, map, IfOk, OnOk, OnErr, IsErrOf, IsTrue};
ghost use Rattle.code_rows.specs.Points.{sub_of, is_sub_there};
ghost use Rattle.run_results.specs.Results.{leaks_of};
ghost use Rattle.slot_memory.specs.Memory.{Changes, elsewhere};
ghost use Rattle.slot_calls.specs.Calls.{passed_of, AreWithin};
ghost use Rattle.slot_entries.specs.Entries.{stacked_words};
ghost use Rattle.slot_formals.specs.Formals.{placed_in, framed, Begins, returned};
ghost use Rattle.slot_formals.specs.Leads.{Gives};

use crate::formals::pass_formals;
use crate::moves::note_moves;
use crate::out_checks::check_outs;
use code_rows::{Codes, Stop, Sub};
use run_results::Leak;
use run_values::Kind;
use slot_calls::Pass;
use slot_entries::{front, push_rooms, push_types, rooms};
use slot_frames::Frames;
use slot_hand::Hand;
use slot_heap::Store;
use slot_memory::Memory;
use type_layouts::Layouts;

/// The frame of a subprogram comes after the others, and its formals get what is passed. Where it
/// begins.
fn fill_frame<R: Store>(
    table: &Layouts,
    codes: &Codes,
    memory: &mut Memory<R>,
    frames: &mut Frames,
    hand: &mut Hand,
    passes: &[Pass],
    formals: &mut Vec<u32>,
    kinds: &mut Vec<Kind>,
    sub: Sub,
) -> Result<usize, Stop>
    requires sub { IsTrue (is_sub_there codes.now sub) }
    requires within { AreWithin (length hand.old) passes.now }
    requires whole { Gives R.Means memory.old (placed_in table.now (sub_of codes.now sub) (map (passed_of hand.old) passes.now)) }
    ensures base { IfOk result (λ base. base ≡ length memory.old.stack) }
    ensures placed { OnOk result (Changes R.Means memory.old (placed_in table.now (sub_of codes.now sub) (map (passed_of hand.old) passes.now)) memory.new) }
    ensures returns { OnOk result (frames.new ≡ record frames.old { returns = frames.old.returns ++ returned table.now 0 (sub_of codes.now sub).formals passes.now }) }
    ensures formals { OnOk result (formals.new.items ≡ (sub_of codes.now sub).formals) }
    ensures words { stacked_words frames.new ≡ stacked_words frames.old }
    ensures hand { OnOk result (hand.new ≡ hand.old) }
    ensures elsewhere { OnOk result (elsewhere memory.new ≡ elsewhere memory.old) }
    ensures memory { OnErr result (IsErrOf result Stop.Memory) }
{
    let base = memory.top();
    let rooms = rooms(codes, sub);
    push_rooms(table, memory, hand, rooms)?;
    formals.clear();
    push_types(front(rooms, sub.formals as usize), formals)?;
    pass_formals(table, memory, hand, kinds, frames, base, formals, passes)?;
    Ok(base)
}

/// The same. What was moved so far is gone then, leaks of `out` actuals are checked, and what the
/// actuals move is gone, too.
pub fn begin_frame<R: Store>(
    table: &Layouts,
    codes: &Codes,
    memory: &mut Memory<R>,
    frames: &mut Frames,
    hand: &mut Hand,
    passes: &[Pass],
    formals: &mut Vec<u32>,
    kinds: &mut Vec<Kind>,
    found: &mut Vec<Leak>,
    sub: Sub,
) -> Result<usize, Stop>
    requires sub { IsTrue (is_sub_there codes.now sub) }
    requires within { AreWithin (length hand.old) passes.now }
    requires whole { Gives R.Means memory.old (framed table.now (sub_of codes.now sub) (map (passed_of hand.old) passes.now)) }
    ensures base { IfOk result (λ base. base ≡ length memory.old.stack) }
    ensures begun { OnOk result (Begins R.Means memory.old table.now (sub_of codes.now sub) (map (passed_of hand.old) passes.now) (leaks_of found.old.items) (leaks_of found.new.items) memory.new) }
    ensures returns { OnOk result (frames.new ≡ record frames.old { returns = frames.old.returns ++ returned table.now 0 (sub_of codes.now sub).formals passes.now }) }
    ensures words { stacked_words frames.new ≡ stacked_words frames.old }
    ensures elsewhere { OnOk result (elsewhere memory.new ≡ elsewhere memory.old) }
    ensures memory { OnErr result (IsErrOf result Stop.Memory) }
{
    let base = fill_frame(
        table, codes, memory, frames, hand, passes, formals, kinds, sub,
    )?;
    memory.settle();
    check_outs(table, memory, hand, passes, found)?;
    note_moves(table, memory, hand, formals, passes)?;
    memory.settle();
    Ok(base)
}
