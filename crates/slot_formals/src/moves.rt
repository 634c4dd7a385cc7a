//! What the actuals of a call move.
ghost use Rattle.std.specs.Prelude.{◌≡◌, map, OnOk, OnErr, IsErrOf};
ghost use Rattle.run_codes.specs.Flat.{Given};
ghost use Rattle.slot_memory.specs.Memory.{Changes, elsewhere};
ghost use Rattle.slot_calls.specs.Calls.{passed_of};
ghost use Rattle.slot_formals.specs.Formals.{moved_one, all_moved};

use code_rows::Stop;
use slot_calls::Pass;
use slot_hand::Hand;
use slot_heap::Store;
use slot_memory::Memory;
use type_layouts::Layouts;

/// What one passes by its place is noted as moved.
fn note_move<R: Store>(
    table: &Layouts,
    memory: &mut Memory<R>,
    hand: &mut Hand,
    pass: &Pass,
) -> Result<(), Stop>
    ensures moved { OnOk result (Changes R.Means memory.old (λ s. Given (moved_one table.now (passed_of hand.old pass.now) s)) memory.new) }
    ensures hand { hand.new ≡ hand.old }
    ensures elsewhere { elsewhere memory.new ≡ elsewhere memory.old }
    ensures memory { OnErr result (IsErrOf result Stop.Memory) }
{
    match pass {
        Pass::Value { .. } => Ok(()),
        Pass::From { spot, of } => hand.move_out(table, memory, spot.same(), *of),
        Pass::To { spot, of, .. } => hand.move_out(table, memory, spot.same(), *of),
    }
}

/// What formals are passed by its place is noted as moved.
pub(crate) fn note_moves<R: Store>(
    table: &Layouts,
    memory: &mut Memory<R>,
    hand: &mut Hand,
    formals: &[u32],
    passes: &[Pass],
) -> Result<(), Stop>
    ensures moved { OnOk result (Changes R.Means memory.old (λ s. Given (all_moved table.now formals.now (map (passed_of hand.old) passes.now) s)) memory.new) }
    ensures hand { hand.new ≡ hand.old }
    ensures elsewhere { elsewhere memory.new ≡ elsewhere memory.old }
    ensures memory { OnErr result (IsErrOf result Stop.Memory) }
{
    'passes: for i in 0..formals.len().min(passes.len()) {
        note_move(table, memory, hand, &passes[i])?;
    }
    Ok(())
}
