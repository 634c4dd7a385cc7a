//! Whole runs of programs.
ghost use Rattle.std.specs.Prelude.{◌≡◌, ◌≢◌, ◌≤◌, ◌⊎◌, true, length, map, string_bytes, IsSome, Some, Err, IfOk, OnErr};
ghost use Rattle.spark_base.specs.Outside.{Rose};
ghost use Rattle.machine.specs.Run.{run, main_of};
ghost use Rattle.laid_program.specs.Programs.{program_of};
ghost use Rattle.code_rows.specs.Points.{program_of as rows_program};
ghost use Rattle.slot_heap.specs.Heaps.{no_heap, Knows};
ghost use Rattle.slot_runs.specs.Tellings.{HaveFronts};
ghost use Rattle.slot_executor.specs.Executes.{IsExecuted, AreSame, MayEnd, fits as fits_first};
ghost use Rattle.accepted_runs.specs.Headline.{IsSoundRun};
ghost use Rattle.slot_execute.specs.Executes.{IsReady};
ghost use Rattle.slot_execute.specs.Left.{LeavesHeap};

use crate::starts::{fits, is_declaring};
use accepted_runs::lower_ready;
use code_rows::Codes;
use laid_program::Laid;
use path_check::AcceptedProgram;
use run_results::{ExecFault, Ran};
use slot_executor::{run_started, run_unfit};
use slot_heap::Store;
use slot_running::Run;
use spark_base::Sink;
use std::alloc::Global;

/// Runs a program in rows whose first frames fit into the stack.
fn run_fitting<R: Store, K: Sink>(
    alloc: Global,
    laid: &Laid,
    codes: Codes,
    store: &mut R,
    input: &[u8],
    steps: u64,
    out: &mut K,
    err: &mut K,
) -> Result<Ran, ExecFault>
    requires ready { IsReady laid.now codes }
    requires fits { fits_first (rows_program codes) (main_of laid.now.main) ≡ true }
    requires same { AreSame (program_of laid.now) input.now }
    requires store { R.Means store.old no_heap }
    ensures executed { IfOk result (λ ran. IsExecuted (map string_bytes laid.now.names.items) (run (program_of laid.now) input.now steps) ran
        (record { output = K.written out.old; lines = K.written err.old }) (record { output = K.written out.new; lines = K.written err.new })) }
    ensures left { IfOk result (λ ran. Knows R.Means store.new (MayEnd (program_of laid.now) input.now steps)) }
    ensures fronts { OnErr result (HaveFronts (map string_bytes laid.now.names.items)
        (record { output = K.written out.old; lines = K.written err.old }) (record { output = K.written out.new; lines = K.written err.new })
        (run (program_of laid.now) input.now steps).output (run (program_of laid.now) input.now steps).leaks) }
    ensures later_out { K.faults out.old ≤ K.faults out.new }
    ensures later_err { K.faults err.old ≤ K.faults err.new }
    ensures cause { result ≡ Err ExecFault.WriteFault → Rose (K.faults out.old) (K.faults out.new) ⊎ Rose (K.faults err.old) (K.faults err.new) }
    ensures one_fault { result ≡ Err ExecFault.WriteFault → (K.faults out.new ≡ K.faults out.old) ⊎ (K.faults err.new ≡ K.faults err.old) }
    ensures no_fault_out { result ≢ Err ExecFault.WriteFault → K.faults out.new ≡ K.faults out.old }
    ensures no_fault_err { result ≢ Err ExecFault.WriteFault → K.faults err.new ≡ K.faults err.old }
{
    let declares = is_declaring(laid);
    let Ok(mut run) = Run::new(alloc, codes, &laid.table, store, input, declares) else {
        return Err(ExecFault::Memory);
    };
    let ran = run_started(alloc, laid, &mut run, steps, out, err);
    let _ = run.into_store();
    ran
}

/// Runs a program in rows.
fn run_codes<R: Store, K: Sink>(
    alloc: Global,
    laid: &Laid,
    codes: Codes,
    main: u32,
    store: &mut R,
    input: &[u8],
    steps: u64,
    out: &mut K,
    err: &mut K,
) -> Result<Ran, ExecFault>
    requires ready { IsReady laid.now codes }
    requires main { laid.now.main ≡ Some main }
    requires same { AreSame (program_of laid.now) input.now }
    requires store { R.Means store.old no_heap }
    ensures executed { IfOk result (λ ran. IsExecuted (map string_bytes laid.now.names.items) (run (program_of laid.now) input.now steps) ran
        (record { output = K.written out.old; lines = K.written err.old }) (record { output = K.written out.new; lines = K.written err.new })) }
    ensures left { IfOk result (λ ran. Knows R.Means store.new (MayEnd (program_of laid.now) input.now steps)) }
    ensures fronts { OnErr result (HaveFronts (map string_bytes laid.now.names.items)
        (record { output = K.written out.old; lines = K.written err.old }) (record { output = K.written out.new; lines = K.written err.new })
        (run (program_of laid.now) input.now steps).output (run (program_of laid.now) input.now steps).leaks) }
    ensures later_out { K.faults out.old ≤ K.faults out.new }
    ensures later_err { K.faults err.old ≤ K.faults err.new }
    ensures cause { result ≡ Err ExecFault.WriteFault → Rose (K.faults out.old) (K.faults out.new) ⊎ Rose (K.faults err.old) (K.faults err.new) }
    ensures one_fault { result ≡ Err ExecFault.WriteFault → (K.faults out.new ≡ K.faults out.old) ⊎ (K.faults err.new ≡ K.faults err.old) }
    ensures no_fault_out { result ≢ Err ExecFault.WriteFault → K.faults out.new ≡ K.faults out.old }
    ensures no_fault_err { result ≢ Err ExecFault.WriteFault → K.faults err.new ≡ K.faults err.old }
{
    if !fits(&codes, main) {
        return run_unfit(laid, input, steps, main);
    }
    run_fitting(alloc, laid, codes, store, input, steps, out, err)
}

/// Runs an accepted program with a main procedure on an input, in so many steps at most. Its output
/// goes to `out`, and its leak lines go to `err`. Where a write fails, nothing more is written; then,
/// and out of memory, each sink has a front of its bytes. The run is sound. The store has neither a
/// live handle nor a slot before it. After it there are as many slots of each size as cells of this
/// size were live at once, and the live handles stand one to one for the cells that were made and not
/// freed, with their words.
pub fn execute<R: Store, K: Sink>(
    alloc: Global,
    program: &AcceptedProgram,
    store: &mut R,
    input: &[u8],
    steps: u64,
    out: &mut K,
    err: &mut K,
) -> Result<Ran, ExecFault>
    requires main { IsSome program.now.laid.main }
    requires store { R.Means store.old no_heap }
    requires steps { steps ≤ 4294967296 }
    requires input { length input.now ≤ 16777216 }
    ensures sound { ∥ IsSoundRun (program_of program.now.laid) input.now ∥₁ }
    ensures executed { IfOk result (λ ran. IsExecuted (map string_bytes program.now.laid.names.items) (run (program_of program.now.laid) input.now steps) ran
        (record { output = K.written out.old; lines = K.written err.old }) (record { output = K.written out.new; lines = K.written err.new })) }
    ensures left { IfOk result (λ ran. Knows R.Means store.new (LeavesHeap (program_of program.now.laid) input.now steps)) }
    ensures fronts { OnErr result (HaveFronts (map string_bytes program.now.laid.names.items)
        (record { output = K.written out.old; lines = K.written err.old }) (record { output = K.written out.new; lines = K.written err.new })
        (run (program_of program.now.laid) input.now steps).output (run (program_of program.now.laid) input.now steps).leaks) }
    ensures later_out { K.faults out.old ≤ K.faults out.new }
    ensures later_err { K.faults err.old ≤ K.faults err.new }
    ensures cause { result ≡ Err ExecFault.WriteFault → Rose (K.faults out.old) (K.faults out.new) ⊎ Rose (K.faults err.old) (K.faults err.new) }
    ensures one_fault { result ≡ Err ExecFault.WriteFault → (K.faults out.new ≡ K.faults out.old) ⊎ (K.faults err.new ≡ K.faults err.old) }
    ensures no_fault_out { result ≢ Err ExecFault.WriteFault → K.faults out.new ≡ K.faults out.old }
    ensures no_fault_err { result ≢ Err ExecFault.WriteFault → K.faults err.new ≡ K.faults err.old }
{
    let laid = program.laid();
    let Some(main) = laid.main else {
        return Err(ExecFault::Memory);
    };
    let Ok(codes) = lower_ready(alloc, laid) else {
        return Err(ExecFault::Memory);
    };
    run_codes(alloc, laid, codes, main, store, input, steps, out, err)
}
