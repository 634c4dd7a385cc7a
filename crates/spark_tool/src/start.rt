//! Runs the program of a command.
ghost use Rattle.std.specs.Prelude.{◌≡◌, ◌≢◌, ◌≤◌, ◌⊎◌, ℕ, List, [], Some, Err, IfOk, IfSome, OnErr, IsSome};
ghost use Rattle.std.specs.Io.KnownBytes.{IsAtEnd, Keeps};
ghost use Rattle.spark_base.specs.Outside.{Rose};
ghost use Rattle.laid_program.specs.Programs.{program_of};
ghost use Rattle.answered_runs.specs.self_test.Summaries.{test_line};
ghost use Rattle.slot_heap.specs.Heaps.{Knows, no_heap};
ghost use Rattle.answered_runs.specs.run_command.Stores.{IsLeftBy, run_made};
ghost use Rattle.answered_runs.specs.tool_answers.Product.{tested};
ghost use Rattle.answered_runs.specs.run_command.Answers.{Grows, Tells, TellsFront};
ghost use Rattle.answered_runs.specs.run_command.Runs.{IsEnded, run_answer};
ghost use Rattle.spark_tool.specs.Answers.{names_of};

use crate::answer::tested_answer;
use crate::deliver::write_answer;
use crate::stop::Stop;
use answered_runs::{run_program, self_test};
use path_check::AcceptedProgram;
use slot_heap::Store;
use spark_base::{STEPS, Sink, Source};
use std::alloc::Global;
use std::mem::ManuallyDrop;

/// Runs a program, and writes what comes of it.
pub(crate) fn start<S: Source, R: Store, K: Sink>(
    alloc: Global,
    program: &AcceptedProgram,
    steps: u64,
    stats: bool,
    input: &mut S,
    store: &mut R,
    out: &mut K,
    err: &mut K,
) -> Result<u8, Stop>
    requires main { IsSome program.now.laid.main }
    requires steps { steps ≤ STEPS }
    requires store { R.Means store.old no_heap }
    ensures answer { IfOk result (λ status. (bytes : List ℕ) → S.left input.old ≡ Some bytes
        → Tells (run_answer (names_of program.now) (program_of program.now.laid) bytes steps stats)
        (K.written out.old) (K.written out.new) (K.written err.old) (K.written err.new) status) }
    ensures front { OnErr result ((bytes : List ℕ) → S.left input.old ≡ Some bytes
        → TellsFront (run_answer (names_of program.now) (program_of program.now.laid) bytes steps stats)
        (K.written out.old) (K.written out.new) (K.written err.old) (K.written err.new)) }
    ensures grows { Grows (K.written out.old) (K.written out.new) × Grows (K.written err.old) (K.written err.new) }
    ensures ended { IfOk result (λ status. (status ≡ 10) ⊎ (IsEnded status × IfSome (S.left input.old) (λ bytes. IsAtEnd (S.left input.new)))) }
    ensures refused { IfOk result (λ status. status ≡ 10 → Keeps (K.written out.old) (K.written out.new)) }
    ensures left { IfOk result (λ status. (bytes : List ℕ) → S.left input.old ≡ Some bytes
        → Knows R.Means store.new (IsLeftBy (run_made (program_of program.now.laid) bytes steps))) }
    ensures refused_store { IfOk result (λ status. status ≡ 10 → store.new ≡ store.old) }
    ensures unrun_store { result ≡ Err Stop.Read → store.new ≡ store.old }
    ensures read { result ≡ Err Stop.Read → Rose (S.faults input.old) (S.faults input.new) }
    ensures unrun { result ≡ Err Stop.Read → Keeps (K.written out.old) (K.written out.new) × Keeps (K.written err.old) (K.written err.new) }
    ensures no_fault_unrun { result ≡ Err Stop.Read → (K.faults out.new ≡ K.faults out.old) × (K.faults err.new ≡ K.faults err.old) }
    ensures write { result ≡ Err Stop.Write → Rose (K.faults out.old) (K.faults out.new) ⊎ Rose (K.faults err.old) (K.faults err.new) }
    ensures no_read_fault { result ≢ Err Stop.Read → S.faults input.new ≡ S.faults input.old }
    ensures no_write_fault { result ≢ Err Stop.Write → (K.faults out.new ≡ K.faults out.old) × (K.faults err.new ≡ K.faults err.old) }
{
    Ok(run_program(alloc, program, steps, stats, input, store, out, err)?)
}

/// Runs a program that is made for a number, and writes the line of its run. It is leaked, as by
/// `check`.
pub(crate) fn test<R: Store, K: Sink>(
    alloc: Global,
    program: AcceptedProgram,
    number: u32,
    store: &mut R,
    out: &mut K,
    err: &mut K,
) -> Result<u8, Stop>
    requires main { IsSome program.laid.main }
    requires store { R.Means store.old no_heap }
    ensures told { IfOk result (Tells (tested (test_line number (program_of program.laid)))
        (K.written out.old) (K.written out.new) (K.written err.old) (K.written err.new)) }
    ensures status { IfOk result (λ status. status ≡ 0) }
    ensures left { IfOk result (λ status. Knows R.Means store.new (IsLeftBy (run_made (program_of program.laid) [] STEPS))) }
    ensures front { OnErr result (TellsFront (tested (test_line number (program_of program.laid)))
        (K.written out.old) (K.written out.new) (K.written err.old) (K.written err.new)) }
    ensures memory { result ≡ Err Stop.Memory → Keeps (K.written out.old) (K.written out.new) × Keeps (K.written err.old) (K.written err.new) }
    ensures write { result ≡ Err Stop.Write → Rose (K.faults out.old) (K.faults out.new) ⊎ Rose (K.faults err.old) (K.faults err.new) }
    ensures no_write_fault { result ≢ Err Stop.Write → (K.faults out.new ≡ K.faults out.old) × (K.faults err.new ≡ K.faults err.old) }
    ensures no_read { result ≢ Err Stop.Read }
{
    let program = ManuallyDrop::new(program);
    match self_test(alloc, &program, number, store) {
        Ok(line) => write_answer(&tested_answer(line), out, err),
        Err(_) => Err(Stop::Memory),
    }
}
