//! What was told of a run.
ghost use Rattle.std.specs.Prelude.{◌≡◌, ◌≢◌, ◌≤◌, ◌+◌, ◌++◌, ◌⊎◌, [], Err, OnOk, OnErr, length, map, string_bytes};
ghost use Rattle.spark_base.specs.Outside.{Rose, AppendsPrefix};
ghost use Rattle.run_results.specs.Lines.{leak_lines};
ghost use Rattle.slot_runs.specs.Turns.{Still};
ghost use Rattle.slot_runs.specs.Tellings.{Flushes, TellsOn, TellsFronts};

use crate::stepping::Stepping;
use run_results::{ExecFault, push_lines, write_long};
use spark_base::Sink;
use std::alloc::Global;

/// Leak lines that aren't written yet, and how many leak checks failed.
pub(crate) struct Told {
    pub(crate) lines: Vec<u8>,
    pub(crate) leaked: u64,
}

impl Drop for Told {
    fn drop(self) {
        let Self {
            lines: _,
            leaked: _,
        } = self;
    }
}

/// The output is written, if it is long. Where that fails, some front of it may be written.
fn tell_output<S: Stepping, K: Sink>(run: &mut S, out: &mut K) -> Result<(), ExecFault>
    ensures setting { S.setting run.new ≡ S.setting run.old }
    ensures lent { S.lent run.new ≡ S.lent run.old }
    ensures stands { Still (S.Stands run.old) (S.Stands run.new) }
    ensures untold { S.untold run.new ≡ record (S.untold run.old) { output = (S.untold run.new).output } }
    ensures flushed { OnOk result (Flushes (K.written out.old) (K.written out.new) (S.untold run.old).output (S.untold run.new).output) }
    ensures front { OnErr result (AppendsPrefix (K.written out.old) (K.written out.new) (S.untold run.old).output) }
    ensures later { K.faults out.old ≤ K.faults out.new }
    ensures cause { result ≡ Err ExecFault.WriteFault → Rose (K.faults out.old) (K.faults out.new) }
    ensures no_fault { result ≢ Err ExecFault.WriteFault → K.faults out.new ≡ K.faults out.old }
{
    if write_long(run.output(), out)? {
        run.clear_output();
    }
    Ok(())
}

/// The leaks are told, in lines that are to be written.
#[inline(always)]
pub(crate) fn tell_leaks<S: Stepping>(
    alloc: Global,
    files: &[String],
    run: &mut S,
    told: &mut Told,
) -> Result<(), ExecFault>
    ensures setting { S.setting run.new ≡ S.setting run.old }
    ensures lent { S.lent run.new ≡ S.lent run.old }
    ensures stands { Still (S.Stands run.old) (S.Stands run.new) }
    ensures untold { OnOk result (S.untold run.new ≡ record (S.untold run.old) { leaks = [] }) }
    ensures lines { OnOk result (told.new.lines.items ≡ told.old.lines.items ++ leak_lines (map string_bytes files.now) (S.untold run.old).leaks) }
    ensures leaked { OnOk result (told.new.leaked ≡ told.old.leaked + length (S.untold run.old).leaks) }
    ensures memory { result ≢ Err ExecFault.WriteFault }
{
    let failed = run.leaks().len();
    if failed == 0 {
        return Ok(());
    }
    let Some(leaked) = told.leaked.checked_add(failed as u64) else {
        return Err(ExecFault::Memory);
    };
    told.leaked = leaked;
    push_lines(alloc, files, run.leaks(), &mut told.lines)?;
    run.clear_leaks();
    Ok(())
}

/// The leak lines are written, if they are long. Where that fails, some front of them may be.
fn tell_lines<K: Sink>(told: &mut Told, err: &mut K) -> Result<(), ExecFault>
    ensures leaked { told.new.leaked ≡ told.old.leaked }
    ensures flushed { OnOk result (Flushes (K.written err.old) (K.written err.new) told.old.lines.items told.new.lines.items) }
    ensures front { OnErr result (AppendsPrefix (K.written err.old) (K.written err.new) told.old.lines.items) }
    ensures later { K.faults err.old ≤ K.faults err.new }
    ensures cause { result ≡ Err ExecFault.WriteFault → Rose (K.faults err.old) (K.faults err.new) }
    ensures no_fault { result ≢ Err ExecFault.WriteFault → K.faults err.new ≡ K.faults err.old }
{
    if write_long(&told.lines, err)? {
        told.lines.clear();
    }
    Ok(())
}

/// After a step, what is long is written.
pub(crate) fn tell<S: Stepping, K: Sink>(
    alloc: Global,
    files: &[String],
    run: &mut S,
    told: &mut Told,
    out: &mut K,
    err: &mut K,
) -> Result<(), ExecFault>
    ensures setting { S.setting run.new ≡ S.setting run.old }
    ensures lent { S.lent run.new ≡ S.lent run.old }
    ensures stands { Still (S.Stands run.old) (S.Stands run.new) }
    ensures told { OnOk result (TellsOn (map string_bytes files.now)
        (record { output = K.written out.old; lines = K.written err.old }) (record { output = K.written out.new; lines = K.written err.new })
        told.old.lines.items told.new.lines.items told.old.leaked told.new.leaked (S.untold run.old) (S.untold run.new)) }
    ensures front { OnErr result (TellsFronts (map string_bytes files.now)
        (record { output = K.written out.old; lines = K.written err.old }) (record { output = K.written out.new; lines = K.written err.new })
        told.old.lines.items told.old.leaked (S.untold run.old)) }
    ensures later_out { K.faults out.old ≤ K.faults out.new }
    ensures later_err { K.faults err.old ≤ K.faults err.new }
    ensures cause { result ≡ Err ExecFault.WriteFault → Rose (K.faults out.old) (K.faults out.new) ⊎ Rose (K.faults err.old) (K.faults err.new) }
    ensures one_fault { result ≡ Err ExecFault.WriteFault → (K.faults out.new ≡ K.faults out.old) ⊎ (K.faults err.new ≡ K.faults err.old) }
    ensures no_fault_out { result ≢ Err ExecFault.WriteFault → K.faults out.new ≡ K.faults out.old }
    ensures no_fault_err { result ≢ Err ExecFault.WriteFault → K.faults err.new ≡ K.faults err.old }
{
    tell_output(run, out)?;
    if run.leaks().is_empty() {
        // no line is new, and what was long is written
        return Ok(());
    }
    tell_leaks(alloc, files, run, told)?;
    tell_lines(told, err)
}
