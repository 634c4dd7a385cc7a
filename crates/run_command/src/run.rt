//! Runs a program.
ghost use Rattle.std.specs.Prelude.{◌≡◌, ◌≢◌, ◌≤◌, ◌⊎◌, ℕ, List, Some, Err, IfOk, IfSome, OnErr, IsSome, length, map, string_bytes};
ghost use Rattle.std.specs.Io.KnownBytes.{Appends, IsAtEnd, Keeps};
ghost use Rattle.spark_base.specs.Outside.{Rose, AppendsPrefix};
ghost use Rattle.laid_program.specs.Programs.{program_of};
ghost use Rattle.machine.specs.Run.{run};
ghost use Rattle.slot_heap.specs.Heaps.{Knows, no_heap};
ghost use Rattle.slot_execute.specs.Left.{LeavesHeap};
ghost use Rattle.run_command.specs.Answers.{Grows, Tells, TellsFront};
ghost use Rattle.run_command.specs.Runs.{IsEnded, run_answer, told, too_large_line};
ghost use Rattle.run_command.specs.Stores.{IsLeftBy, run_made};

use crate::ending::ending_status;
use crate::fault::RunFault;
use crate::input::read_input;
use crate::stats::last_lines;
use path_check::AcceptedProgram;
use run_results::write_all;
use slot_execute::execute;
use slot_heap::Store;
use spark_base::{INPUT_BYTES, STEPS, Sink, Source};
use std::alloc::Global;

/// Runs a program on these bytes, and writes the lines that come last.
fn run_on<R: Store, K: Sink>(
    alloc: Global,
    program: &AcceptedProgram,
    input: &[u8],
    steps: u64,
    stats: bool,
    store: &mut R,
    out: &mut K,
    err: &mut K,
) -> Result<u8, RunFault>
    requires main { IsSome program.now.laid.main }
    requires few { length input.now ≤ INPUT_BYTES }
    requires steps { steps ≤ STEPS }
    requires store { R.Means store.old no_heap }
    ensures told { IfOk result (λ status.
        Tells (told (map string_bytes program.now.laid.names.items) steps stats (run (program_of program.now.laid) input.now steps))
        (K.written out.old) (K.written out.new) (K.written err.old) (K.written err.new) status) }
    ensures front { OnErr result
        (TellsFront (told (map string_bytes program.now.laid.names.items) steps stats (run (program_of program.now.laid) input.now steps))
        (K.written out.old) (K.written out.new) (K.written err.old) (K.written err.new)) }
    ensures ended { IfOk result IsEnded }
    ensures left { IfOk result (λ status. Knows R.Means store.new (LeavesHeap (program_of program.now.laid) input.now steps)) }
    ensures write { result ≡ Err RunFault.Write → Rose (K.faults out.old) (K.faults out.new) ⊎ Rose (K.faults err.old) (K.faults err.new) }
    ensures no_read { result ≢ Err RunFault.Read }
    ensures no_fault { result ≢ Err RunFault.Write → (K.faults out.new ≡ K.faults out.old) × (K.faults err.new ≡ K.faults err.old) }
{
    let ran = execute(alloc, program, store, input, steps, out, err)?;
    let slots = store.slots();
    let names = program.laid().names.as_slice();
    let text = last_lines(alloc, names, steps, stats, &ran, slots)?;
    write_all(&text, err)?;
    Ok(ending_status(&ran))
}

/// Writes that the input is too large.
fn refuse_input<K: Sink>(err: &mut K) -> Result<u8, RunFault>
    ensures told { IfOk result (λ status. (status ≡ 10) × Appends (K.written err.old) (K.written err.new) too_large_line) }
    ensures front { OnErr result (AppendsPrefix (K.written err.old) (K.written err.new) too_large_line) }
    ensures write { result ≡ Err RunFault.Write → Rose (K.faults err.old) (K.faults err.new) }
    ensures no_read { result ≢ Err RunFault.Read }
    ensures no_fault { result ≢ Err RunFault.Write → K.faults err.new ≡ K.faults err.old }
{
    write_all("input too large\n".as_bytes(), err)?;
    Ok(10)
}

/// Runs an accepted program on all of the input, within a budget of steps, and gives the status
/// (`docs/TOOL.md`, "Order of work"): 0 or 5 at the end of the main procedure, 3 at an exception, 4
/// where the steps are spent, and 10 where the input is too large and nothing is run. The cells of
/// the run stand in the store, which has no live handle and no slots before it.
pub fn run_program<S: Source, R: Store, K: Sink>(
    alloc: Global,
    program: &AcceptedProgram,
    steps: u64,
    stats: bool,
    input: &mut S,
    store: &mut R,
    out: &mut K,
    err: &mut K,
) -> Result<u8, RunFault>
    requires main { IsSome program.now.laid.main }
    requires steps { steps ≤ STEPS }
    requires store { R.Means store.old no_heap }

    // What is defined, where the input tells its bytes.
    ensures answer { IfOk result (λ status. (bytes : List ℕ) → S.left input.old ≡ Some bytes
        → Tells (run_answer (map string_bytes program.now.laid.names.items) (program_of program.now.laid) bytes steps stats)
        (K.written out.old) (K.written out.new) (K.written err.old) (K.written err.new) status) }

    // Where none is given, each output has a front of its bytes.
    ensures front { OnErr result ((bytes : List ℕ) → S.left input.old ≡ Some bytes
        → TellsFront (run_answer (map string_bytes program.now.laid.names.items) (program_of program.now.laid) bytes steps stats)
        (K.written out.old) (K.written out.new) (K.written err.old) (K.written err.new)) }
    ensures grows { Grows (K.written out.old) (K.written out.new) × Grows (K.written err.old) (K.written err.new) }

    // The store has what the run leaves in it. Where nothing is run, it stays as it was.
    ensures left { IfOk result (λ status. (bytes : List ℕ) → S.left input.old ≡ Some bytes
        → Knows R.Means store.new (IsLeftBy (run_made (program_of program.now.laid) bytes steps))) }
    ensures refused_store { IfOk result (λ status. status ≡ 10 → store.new ≡ store.old) }
    ensures unrun_store { result ≡ Err RunFault.Read → store.new ≡ store.old }

    // What ran has read the input to its end; and what is refused has written nothing to `out`.
    ensures ended { IfOk result (λ status. (status ≡ 10) ⊎ (IsEnded status × IfSome (S.left input.old) (λ bytes. IsAtEnd (S.left input.new)))) }
    ensures refused { IfOk result (λ status. status ≡ 10 → Keeps (K.written out.old) (K.written out.new)) }

    // A failed read comes before the run.
    ensures read { result ≡ Err RunFault.Read → Rose (S.faults input.old) (S.faults input.new) }
    ensures unrun { result ≡ Err RunFault.Read → Keeps (K.written out.old) (K.written out.new) × Keeps (K.written err.old) (K.written err.new) }
    ensures no_fault_unrun { result ≡ Err RunFault.Read → (K.faults out.new ≡ K.faults out.old) × (K.faults err.new ≡ K.faults err.old) }
    ensures write { result ≡ Err RunFault.Write → Rose (K.faults out.old) (K.faults out.new) ⊎ Rose (K.faults err.old) (K.faults err.new) }

    // A count that isn't the cause stays.
    ensures no_read_fault { result ≢ Err RunFault.Read → S.faults input.new ≡ S.faults input.old }
    ensures no_write_fault { result ≢ Err RunFault.Write → (K.faults out.new ≡ K.faults out.old) × (K.faults err.new ≡ K.faults err.old) }
{
    match read_input(alloc, input)? {
        Some(text) => Ok(run_on(alloc, program, &text, steps, stats, store, out, err)?),
        None => Ok(refuse_input(err)?),
    }
}
