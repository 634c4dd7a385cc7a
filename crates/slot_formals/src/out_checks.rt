//! The leak checks of what `out` formals are copied back to.
ghost use Rattle.std.specs.Prelude.{◌≡◌, ◌∷◌, [], map, OnOk, OnErr, IsErrOf};
ghost use Rattle.handled_steps.specs.Steps.{out_leaks};
ghost use Rattle.run_results.specs.Results.{leaks_of};
ghost use Rattle.slot_calls.specs.Calls.{passed_of};
ghost use Rattle.slot_formals.specs.Formals.{Tells};
ghost use Rattle.slot_formals.specs.Leads.{Gives};

use code_rows::Stop;
use run_results::Leak;
use slot_calls::Pass;
use slot_hand::Hand;
use slot_heap::Store;
use slot_memory::Memory;
use type_layouts::Layouts;

/// Appends the failed leak checks of what is passed to an `out` formal.
fn check_out<R: Store>(
    table: &Layouts,
    memory: &Memory<R>,
    hand: &mut Hand,
    pass: &Pass,
    leaks: &mut Vec<Leak>,
) -> Result<(), Stop>
    requires { Gives R.Means memory.now (λ s. out_leaks table.now s (passed_of hand.old pass.now ∷ [])) }
    ensures leaks { OnOk result (Tells R.Means memory.now table.now (passed_of hand.old pass.now ∷ []) (leaks_of leaks.old.items) (leaks_of leaks.new.items)) }
    ensures hand { hand.new ≡ hand.old }
    ensures memory { OnErr result (IsErrOf result Stop.Memory) }
{
    match pass {
        Pass::To { spot, of, pos } => hand.push_leaks(table, memory, spot.same(), *of, *pos, leaks),
        _ => Ok(()),
    }
}

/// Appends the failed leak checks of what is passed to `out` formals.
pub(crate) fn check_outs<R: Store>(
    table: &Layouts,
    memory: &Memory<R>,
    hand: &mut Hand,
    passes: &[Pass],
    leaks: &mut Vec<Leak>,
) -> Result<(), Stop>
    requires { Gives R.Means memory.now (λ s. out_leaks table.now s (map (passed_of hand.old) passes.now)) }
    ensures leaks { OnOk result (Tells R.Means memory.now table.now (map (passed_of hand.old) passes.now) (leaks_of leaks.old.items) (leaks_of leaks.new.items)) }
    ensures hand { hand.new ≡ hand.old }
    ensures memory { OnErr result (IsErrOf result Stop.Memory) }
{
    'passes: for i in 0..passes.len() {
        check_out(table, memory, hand, &passes[i], leaks)?;
    }
    Ok(())
}
