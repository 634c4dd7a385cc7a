//! Runs that stand at the start of a program.
ghost use Rattle.std.specs.Prelude.{◌≡◌, ◌≢◌, ◌≤◌, ◌⊎◌, Err, IfOk, OnOk, OnErr, map, string_bytes};
ghost use Rattle.spark_base.specs.Outside.{Rose};
ghost use Rattle.machine.specs.Run.{run as run_of};
ghost use Rattle.laid_program.specs.Programs.{program_of};
ghost use Rattle.slot_runs.specs.Tellings.{HaveFronts};
ghost use Rattle.slot_executor.specs.Executes.{IsExecuted, IsLeft, IsStarted, AreSame};

use laid_program::Laid;
use run_results::{ExecFault, Ran};
use slot_runs::{Stepping, run_whole};
use spark_base::Sink;
use std::alloc::Global;

/// Makes the steps of a run at the start of a program whose first frames fit into the stack. Its
/// output goes to `out`, and its leak lines go to `err`. Where a write fails, nothing more is written;
/// then, and out of memory, each sink has a front of its bytes.
pub fn run_started<S: Stepping, K: Sink>(
    alloc: Global,
    laid: &Laid,
    run: &mut S,
    steps: u64,
    out: &mut K,
    err: &mut K,
) -> Result<Ran, ExecFault>
    requires started { IsStarted laid.now (S.setting run.old) (S.untold run.old) (S.Stands run.old) }
    requires same { AreSame (program_of laid.now) (S.setting run.old).input }
    ensures executed { IfOk result (λ ran. IsExecuted (map string_bytes laid.now.names.items) (run_of (program_of laid.now) (S.setting run.old).input steps) ran
        (record { output = K.written out.old; lines = K.written err.old }) (record { output = K.written out.new; lines = K.written err.new })) }
    ensures left { IfOk result (λ ran. IsLeft (program_of laid.now) (S.setting run.old).input steps (S.Stands run.new)) }
    ensures lent { OnOk result (S.lent run.new ≡ S.lent run.old) }
    ensures fronts { OnErr result (HaveFronts (map string_bytes laid.now.names.items)
        (record { output = K.written out.old; lines = K.written err.old }) (record { output = K.written out.new; lines = K.written err.new })
        (run_of (program_of laid.now) (S.setting run.old).input steps).output (run_of (program_of laid.now) (S.setting run.old).input steps).leaks) }
    ensures later_out { K.faults out.old ≤ K.faults out.new }
    ensures later_err { K.faults err.old ≤ K.faults err.new }
    ensures cause { result ≡ Err ExecFault.WriteFault → Rose (K.faults out.old) (K.faults out.new) ⊎ Rose (K.faults err.old) (K.faults err.new) }
    ensures one_fault { result ≡ Err ExecFault.WriteFault → (K.faults out.new ≡ K.faults out.old) ⊎ (K.faults err.new ≡ K.faults err.old) }
    ensures no_fault_out { result ≢ Err ExecFault.WriteFault → K.faults out.new ≡ K.faults out.old }
    ensures no_fault_err { result ≢ Err ExecFault.WriteFault → K.faults err.new ≡ K.faults err.old }
{
    run_whole(alloc, &laid.names, run, steps, out, err)
}
