//! Whole runs.
ghost use Rattle.std.specs.Prelude.{◌≡◌, ◌≢◌, ◌≤◌, ◌⊎◌, ℕ, Err, OnOk, OnErr, IfOk, map, string_bytes};
ghost use Rattle.spark_base.specs.Outside.{Rose};
ghost use Rattle.handled_steps.specs.States.{State};
ghost use Rattle.run_results.specs.Results.{ending_of};
ghost use Rattle.slot_runs.specs.Turns.{Setting, SomeSteps};
ghost use Rattle.slot_runs.specs.Tellings.{Sinks, TellsFronts};
ghost use Rattle.slot_runs.specs.Answers.{IsOver, IsWritten, CanStart, Writes, Cuts};

use crate::going::go;
use crate::stepping::{Stepping, Turn};
use crate::told::{Told, tell, tell_leaks};
use run_results::{Ending, ExecFault, Ran, write_all};
use spark_base::Sink;
use std::alloc::Global;

/// What is left is written, and the run is answered.
fn answer<S: Stepping, K: Sink>(
    alloc: Global,
    files: &[String],
    run: &mut S,
    told: &mut Told,
    ending: Ending,
    steps: u64,
    out: &mut K,
    err: &mut K,
) -> Result<Ran, ExecFault>
    ensures written { IfOk result (λ ran. (c : Setting) (first : State) (most : ℕ) (start : Sinks)
        → IsOver (map string_bytes files.now) c start (record { output = K.written out.old; lines = K.written err.old }) told.old.lines.items told.old.leaked first most (ending_of ending) steps (S.untold run.old) (S.Stands run.old)
        → IsWritten (map string_bytes files.now) (SomeSteps most c first) (S.Stands run.new) ran start (record { output = K.written out.new; lines = K.written err.new })) }
    ensures lent { OnOk result (S.lent run.new ≡ S.lent run.old) }
    ensures front { OnErr result (TellsFronts (map string_bytes files.now)
        (record { output = K.written out.old; lines = K.written err.old }) (record { output = K.written out.new; lines = K.written err.new })
        told.old.lines.items told.old.leaked (S.untold run.old)) }
    ensures later_out { K.faults out.old ≤ K.faults out.new }
    ensures later_err { K.faults err.old ≤ K.faults err.new }
    ensures cause { result ≡ Err ExecFault.WriteFault → Rose (K.faults out.old) (K.faults out.new) ⊎ Rose (K.faults err.old) (K.faults err.new) }
    ensures one_fault { result ≡ Err ExecFault.WriteFault → (K.faults out.new ≡ K.faults out.old) ⊎ (K.faults err.new ≡ K.faults err.old) }
    ensures no_fault_out { result ≢ Err ExecFault.WriteFault → K.faults out.new ≡ K.faults out.old }
    ensures no_fault_err { result ≢ Err ExecFault.WriteFault → K.faults err.new ≡ K.faults err.old }
{
    tell_leaks(alloc, files, run, told)?;
    write_all(run.output(), out)?;
    write_all(&told.lines, err)?;
    Ok(Ran {
        ending,
        steps,
        made: run.made(),
        freed: run.freed(),
        leaked: told.leaked,
    })
}

/// Makes at most so many steps. The output goes to `out` and the leak lines to `err`, in pieces and
/// at the end; the files are the names that the lines tell, by number. Where a write fails, nothing
/// more is written.
pub fn run_whole<S: Stepping, K: Sink>(
    alloc: Global,
    files: &[String],
    run: &mut S,
    limit: u64,
    out: &mut K,
    err: &mut K,
) -> Result<Ran, ExecFault>
    requires known { CanStart limit (S.setting run.old) (S.untold run.old) (S.Stands run.old) }
    ensures written { IfOk result (λ ran. Writes (map string_bytes files.now) limit (S.setting run.old) (S.untold run.old) (S.Stands run.old) (S.Stands run.new) ran
        (record { output = K.written out.old; lines = K.written err.old }) (record { output = K.written out.new; lines = K.written err.new })) }
    ensures lent { OnOk result (S.lent run.new ≡ S.lent run.old) }
    ensures cut { OnErr result (Cuts (map string_bytes files.now) limit (S.setting run.old) (S.untold run.old) (S.Stands run.old)
        (record { output = K.written out.old; lines = K.written err.old }) (record { output = K.written out.new; lines = K.written err.new })) }
    ensures later_out { K.faults out.old ≤ K.faults out.new }
    ensures later_err { K.faults err.old ≤ K.faults err.new }
    ensures cause { result ≡ Err ExecFault.WriteFault → Rose (K.faults out.old) (K.faults out.new) ⊎ Rose (K.faults err.old) (K.faults err.new) }
    ensures one_fault { result ≡ Err ExecFault.WriteFault → (K.faults out.new ≡ K.faults out.old) ⊎ (K.faults err.new ≡ K.faults err.old) }
    ensures no_fault_out { result ≢ Err ExecFault.WriteFault → K.faults out.new ≡ K.faults out.old }
    ensures no_fault_err { result ≢ Err ExecFault.WriteFault → K.faults err.new ≡ K.faults err.old }
{
    let mut told = Told {
        lines: Vec::new(alloc),
        leaked: 0,
    };
    let mut steps = 0u64;
    'steps: while steps < limit {
        let (made, turn) = go(run, limit - steps)?;
        steps += made;
        match turn {
            Turn::On => tell(alloc, files, run, &mut told, out, err)?,
            Turn::Ends(ending) => {
                return answer(alloc, files, run, &mut told, ending, steps, out, err);
            }
        }
    }
    answer(alloc, files, run, &mut told, Ending::Spent, steps, out, err)
}
