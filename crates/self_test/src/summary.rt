//! The line of a self test.
ghost use Rattle.std.specs.Prelude.{◌≡◌, ◌≢◌, [], Err, IfOk, IsSome};
ghost use Rattle.spark_base.specs.MemSinks.{plain_bytes};
ghost use Rattle.laid_program.specs.Programs.{program_of};
ghost use Rattle.slot_heap.specs.Heaps.{Knows, no_heap};
ghost use Rattle.run_command.specs.slot_execute.Left.{LeavesHeap};
ghost use Rattle.self_test.specs.Runs.{HasCounts, run_of};
ghost use Rattle.self_test.specs.Summaries.{test_line};

use path_check::AcceptedProgram;
use rule_reports::{Summary, summary_line};
use run_command::{Ran, execute};
use run_results::ExecFault;
use slot_heap::Store;
use spark_base::{PlainSink, STEPS};
use std::alloc::Global;

/// A run without input, and its output.
fn run_in_memory<R: Store>(
    alloc: Global,
    program: &AcceptedProgram,
    store: &mut R,
    out: &mut PlainSink,
) -> Result<Ran, ExecFault>
    requires main { IsSome program.now.laid.main }
    requires store { R.Means store.old no_heap }
    requires empty { plain_bytes out.old ≡ [] }
    ensures run { IfOk result (HasCounts (run_of program.now.laid)) }
    ensures output { IfOk result (λ _. plain_bytes out.new ≡ (run_of program.now.laid).output) }
    ensures left { IfOk result (λ _. Knows R.Means store.new (LeavesHeap (program_of program.now.laid) [] STEPS)) }
    ensures memory { result ≢ Err ExecFault.WriteFault }
{
    let mut lines = PlainSink::new(alloc);
    execute(alloc, program, store, &[], STEPS, out, &mut lines)
}

/// Runs an accepted program with a main procedure, made for a number, and gives the line of the
/// run (`docs/TOOL.md`, "Lines"). The cells of the run stand in the store, which has no live handle
/// and no slots before it.
pub fn self_test<R: Store>(
    alloc: Global,
    program: &AcceptedProgram,
    number: u32,
    store: &mut R,
) -> Result<Vec<u8>, ExecFault>
    requires main { IsSome program.now.laid.main }
    requires store { R.Means store.old no_heap }
    ensures line { IfOk result (λ line. line.items ≡ test_line number (program_of program.now.laid)) }
    ensures left { IfOk result (λ _. Knows R.Means store.new (LeavesHeap (program_of program.now.laid) [] STEPS)) }
    ensures memory { result ≢ Err ExecFault.WriteFault }
{
    let mut out = PlainSink::new(alloc);
    let ran = run_in_memory(alloc, program, store, &mut out)?;
    let summary = Summary {
        number,
        bytes: out.bytes().len() as u64,
        steps: ran.steps,
        made: ran.made,
        freed: ran.freed,
        leaked: ran.leaked,
    };
    Ok(summary_line(alloc, summary)?)
}
