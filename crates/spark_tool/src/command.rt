//! What a command does, before anything is written and before anything is run.
ghost use Rattle.std.specs.Prelude.{◌≡◌, ◌≢◌, ◌≤◌, ◌⊎◌, ℕ, List, Option, Err, None, Some, true, false, IfOk, IfSome, IsSomeAnd, IsTrue, All, length, map, string_bytes};
ghost use Rattle.spark_base.specs.Lists.{Has};
ghost use Rattle.spark_base.specs.Outside.{Rose};
ghost use Rattle.spark_base.specs.Words.{operands};
ghost use Rattle.command_words.specs.Words as grammar;
ghost use Rattle.command_words.specs.Words.{Fits, command_in};
ghost use Rattle.spark_tool.specs.Answers.{answer_for, finding_of, names_of, run_for};
ghost use Rattle.answered_runs.specs.tool_answers.Commands.{reads_files, runs, there};
ghost use Rattle.answered_runs.specs.tool_answers.Product.{Answers, Checks, Lists, Passes, check_answer, fixed_answer, refused, rejected, run_answer_of, unread, with_main};
ghost use Rattle.answered_runs.specs.tool_answers.Runs.{run_found};
ghost use Rattle.ada_lexer.specs.Positions.{first_position};
ghost use Rattle.flow_paths.specs.declared.report.Effects.{Effects};
ghost use Rattle.flow_paths.specs.declared.report.LeakLine.{LeakLine};
ghost use Rattle.laid_program.specs.Programs.{program_of};
ghost use Rattle.leak_checks.specs.Plan.{LeakPlan};
ghost use Rattle.program_check.specs.Sources.{printed_in};
ghost use Rattle.rule_reports.specs.Lines.{leak_plan_lines};
ghost use Rattle.answered_runs.specs.tool_answers.Reading.{Missing, sources};
ghost use Rattle.spark_tool.specs.Refusals.{Gives, IsChecked, IsFor, IsMade, IsNamed, IsReady, MakesFor};

use crate::answer::{
    accepted_answer, file_refusal_answer, listed_answer, made_answer, rejected_answer,
};
use crate::check::check_sources;
use crate::finding::{Finding, Outcome};
use crate::reading::read_files;
use crate::selftest::selftest;
use crate::stop::Stop;
use command_words::Command;
use leak_checks::leak_plan;
use path_check::AcceptedProgram;
use rule_reports::{Code, leak_plan_lines};
use spark_base::{FILES, FileStore, SOURCE_BYTES, STEPS};
use std::alloc::{AllocError, Global};
use std::mem::ManuallyDrop;

/// What is found of the named files.
fn check_files<F: FileStore>(
    alloc: Global,
    names: &[String],
    files: &mut F,
) -> Result<Finding, Stop>
    requires operands { All (Has (operands (F.words files.old))) (map string_bytes names.now) }
    requires few { length names.now ≤ FILES }
    ensures finding { IfOk result (λ finding. IfSome (F.stored files.old)
        (λ stored. Checks (map string_bytes names.now) (sources stored 0 SOURCE_BYTES (map string_bytes names.now)) (finding_of finding))) }
    ensures checked { IfOk result (λ finding. IsChecked (finding_of finding)) }
    ensures named { IfOk result (IsNamed (map string_bytes names.now)) }
    ensures fault { result ≡ Err Stop.Read → Rose (F.faults files.old) (F.faults files.new)
        ⊎ IsSomeAnd (F.stored files.old) (λ stored. sources stored 0 SOURCE_BYTES (map string_bytes names.now) ≡ Missing) }
    ensures no_fault { result ≢ Err Stop.Read → F.faults files.new ≡ F.faults files.old }
    ensures nothing_written { result ≢ Err Stop.Write }
{
    match read_files(alloc, files, names) {
        Ok(gathered) => Ok(check_sources(alloc, names, gathered)?),
        Err(stop) => Err(stop),
    }
}

/// What `check` does. A program is leaked: the process ends next, and freeing it costs time.
fn check_outcome(alloc: Global, finding: Finding) -> Result<Outcome, AllocError>
    requires { IsChecked (finding_of finding) }
    ensures answer { IfOk result (λ made. (input : List ℕ) → answer_for input made ≡ check_answer (finding_of finding)) }
    ensures ready { IfOk result IsReady }
    ensures only { IfOk result (λ made. (command : Option grammar.Command) → runs command ≡ false → IsFor command made) }
{
    match finding {
        Finding::Ends(answer) => Ok(Outcome::Answers(answer)),
        Finding::Rejects(_, lines) => Ok(Outcome::Answers(rejected_answer(lines))),
        Finding::Passes(program) => {
            let _kept = ManuallyDrop::new(program);
            Ok(Outcome::Answers(accepted_answer(alloc)?))
        }
    }
}

/// The lines of the leak plan of a program.
fn plan_lines(
    alloc: Global,
    names: &[String],
    program: &AcceptedProgram,
) -> Result<Vec<u8>, AllocError>
    ensures { IfOk result (λ lines. (plan : List LeakLine) × ((effects : Effects) → LeakPlan (program_of program.now.laid) effects plan)
        × (lines.items ≡ leak_plan_lines (map string_bytes names.now) (printed_in (program_of program.now.laid)) plan)) }
{
    let plan = leak_plan(alloc, program)?;
    let laid = program.laid();
    let table = laid.table.infos();
    let objects = laid.objects.as_slice();
    Ok(leak_plan_lines(alloc, names, table, objects, &plan)?)
}

/// The same lines. The program is leaked.
fn leaked_plan_lines(
    alloc: Global,
    names: &[String],
    program: AcceptedProgram,
) -> Result<Vec<u8>, AllocError>
    ensures { IfOk result (λ lines. (plan : List LeakLine) × ((effects : Effects) → LeakPlan (program_of program.laid) effects plan)
        × (lines.items ≡ leak_plan_lines (map string_bytes names.now) (printed_in (program_of program.laid)) plan)) }
{
    let program = ManuallyDrop::new(program);
    plan_lines(alloc, names, &program)
}

/// What `leaks` does. A program is leaked, as by `check`.
fn list_outcome(alloc: Global, names: &[String], finding: Finding) -> Result<Outcome, AllocError>
    requires { IsChecked (finding_of finding) }
    ensures answer { IfOk result (λ made. (input : List ℕ)
        → Lists (map string_bytes names.now) (finding_of finding) (answer_for input made)) }
    ensures ready { IfOk result IsReady }
    ensures only { IfOk result (λ made. (command : Option grammar.Command) → runs command ≡ false → IsFor command made) }
{
    match finding {
        Finding::Ends(answer) => Ok(Outcome::Answers(answer)),
        Finding::Rejects(_, lines) => Ok(Outcome::Answers(rejected_answer(lines))),
        Finding::Passes(program) => {
            let lines = leaked_plan_lines(alloc, names, program)?;
            Ok(Outcome::Answers(listed_answer(lines)))
        }
    }
}

/// What is done where a program without a main procedure was to be run.
pub(crate) fn refuse(alloc: Global, names: &[String]) -> Result<Outcome, AllocError>
    ensures answer { IfOk result (λ made. (input : List ℕ)
        → answer_for input made ≡ refused (map string_bytes names.now) (first_position 0) Code.N5) }
    ensures run { IfOk result (λ made. (input : List ℕ) → run_for input made ≡ None) }
    ensures ready { IfOk result IsReady }
    ensures only { IfOk result (λ made. (command : Option grammar.Command) → runs command ≡ true → IsFor command made) }
    ensures other { IfOk result (λ made. (command : Option grammar.Command) → runs command ≡ false → IsFor command made) }
{
    Ok(Outcome::Answers(file_refusal_answer(alloc, names, 0, Code::N5)?))
}

/// What `run` does with a program of which nothing is reported.
fn begin(
    alloc: Global,
    names: &[String],
    steps: u64,
    stats: bool,
    program: AcceptedProgram,
) -> Result<Outcome, AllocError>
    requires named { names_of program ≡ map string_bytes names.now }
    requires steps { steps ≤ STEPS }
    ensures answer { IfOk result (λ made. (input : List ℕ)
        → answer_for input made ≡ run_answer_of (map string_bytes names.now) steps stats input (Passes (program_of program.laid))) }
    ensures run { IfOk result (λ made. (input : List ℕ) → run_for input made ≡ run_found steps input (Passes (program_of program.laid))) }
    ensures ready { IfOk result IsReady }
    ensures only { IfOk result (λ made. (command : Option grammar.Command) → runs command ≡ true → IsFor command made) }
{
    if program.laid().main.is_some() {
        Ok(Outcome::Runs(program, steps, stats))
    } else {
        refuse(alloc, names)
    }
}

/// What is done with the reports of a program that was to be run.
pub(crate) fn reject(
    alloc: Global,
    names: &[String],
    has_main: bool,
    lines: Vec<u8>,
) -> Result<Outcome, AllocError>
    ensures answer { IfOk result (λ made. (input : List ℕ)
        → answer_for input made ≡ with_main (map string_bytes names.now) has_main (rejected lines.items)) }
    ensures run { IfOk result (λ made. (input : List ℕ) → run_for input made ≡ None) }
    ensures ready { IfOk result IsReady }
    ensures only { IfOk result (λ made. (command : Option grammar.Command) → runs command ≡ true → IsFor command made) }
    ensures other { IfOk result (λ made. (command : Option grammar.Command) → runs command ≡ false → IsFor command made) }
{
    if has_main {
        Ok(Outcome::Answers(rejected_answer(lines)))
    } else {
        refuse(alloc, names)
    }
}

/// What `run` does.
fn run_outcome(
    alloc: Global,
    names: &[String],
    steps: u64,
    stats: bool,
    finding: Finding,
) -> Result<Outcome, AllocError>
    requires checked { IsChecked (finding_of finding) }
    requires named { IsNamed (map string_bytes names.now) finding }
    requires steps { steps ≤ STEPS }
    ensures answer { IfOk result (λ made. (input : List ℕ)
        → answer_for input made ≡ run_answer_of (map string_bytes names.now) steps stats input (finding_of finding)) }
    ensures run { IfOk result (λ made. (input : List ℕ) → run_for input made ≡ run_found steps input (finding_of finding)) }
    ensures ready { IfOk result IsReady }
    ensures only { IfOk result (λ made. (command : Option grammar.Command) → runs command ≡ true → IsFor command made) }
{
    match finding {
        Finding::Ends(answer) => Ok(Outcome::Answers(answer)),
        Finding::Rejects(has_main, lines) => Ok(reject(alloc, names, has_main, lines)?),
        Finding::Passes(program) => Ok(begin(alloc, names, steps, stats, program)?),
    }
}

/// What `check` does with its files.
fn check_command<F: FileStore>(
    alloc: Global,
    names: &[String],
    files: &mut F,
) -> Result<Outcome, Stop>
    requires operands { All (Has (operands (F.words files.old))) (map string_bytes names.now) }
    requires few { length names.now ≤ FILES }
    ensures gives { IfOk result (λ made. IfSome (F.stored files.old)
        (λ stored. Gives stored (Some (grammar.Check (map string_bytes names.now))) made)) }
    ensures ready { IfOk result IsReady }
    ensures only { IfOk result (λ made. (command : Option grammar.Command) → runs command ≡ false → IsFor command made) }
    ensures fault { result ≡ Err Stop.Read → Rose (F.faults files.old) (F.faults files.new)
        ⊎ IsSomeAnd (F.stored files.old) (λ stored. sources stored 0 SOURCE_BYTES (map string_bytes names.now) ≡ Missing) }
    ensures no_fault { result ≢ Err Stop.Read → F.faults files.new ≡ F.faults files.old }
    ensures nothing_written { result ≢ Err Stop.Write }
{
    match check_files(alloc, names, files) {
        Ok(finding) => Ok(check_outcome(alloc, finding)?),
        Err(stop) => Err(stop),
    }
}

/// What `leaks` does with its files.
fn list_command<F: FileStore>(
    alloc: Global,
    names: &[String],
    files: &mut F,
) -> Result<Outcome, Stop>
    requires operands { All (Has (operands (F.words files.old))) (map string_bytes names.now) }
    requires few { length names.now ≤ FILES }
    ensures gives { IfOk result (λ made. IfSome (F.stored files.old)
        (λ stored. Gives stored (Some (grammar.Leaks (map string_bytes names.now))) made)) }
    ensures ready { IfOk result IsReady }
    ensures only { IfOk result (λ made. (command : Option grammar.Command) → runs command ≡ false → IsFor command made) }
    ensures fault { result ≡ Err Stop.Read → Rose (F.faults files.old) (F.faults files.new)
        ⊎ IsSomeAnd (F.stored files.old) (λ stored. sources stored 0 SOURCE_BYTES (map string_bytes names.now) ≡ Missing) }
    ensures no_fault { result ≢ Err Stop.Read → F.faults files.new ≡ F.faults files.old }
    ensures nothing_written { result ≢ Err Stop.Write }
{
    match check_files(alloc, names, files) {
        Ok(finding) => Ok(list_outcome(alloc, names, finding)?),
        Err(stop) => Err(stop),
    }
}

/// What `run` does with its files.
fn run_command<F: FileStore>(
    alloc: Global,
    names: &[String],
    steps: u64,
    stats: bool,
    files: &mut F,
) -> Result<Outcome, Stop>
    requires operands { All (Has (operands (F.words files.old))) (map string_bytes names.now) }
    requires few { length names.now ≤ FILES }
    requires steps { steps ≤ STEPS }
    ensures gives { IfOk result (λ made. IfSome (F.stored files.old)
        (λ stored. Gives stored (Some (grammar.Run (map string_bytes names.now) steps stats)) made)) }
    ensures makes { IfOk result (λ made. IfSome (F.stored files.old)
        (λ stored. MakesFor stored (Some (grammar.Run (map string_bytes names.now) steps stats)) made)) }
    ensures ready { IfOk result IsReady }
    ensures only { IfOk result (λ made. (command : Option grammar.Command) → runs command ≡ true → IsFor command made) }
    ensures fault { result ≡ Err Stop.Read → Rose (F.faults files.old) (F.faults files.new)
        ⊎ IsSomeAnd (F.stored files.old) (λ stored. sources stored 0 SOURCE_BYTES (map string_bytes names.now) ≡ Missing) }
    ensures no_fault { result ≢ Err Stop.Read → F.faults files.new ≡ F.faults files.old }
    ensures nothing_written { result ≢ Err Stop.Write }
{
    match check_files(alloc, names, files) {
        Ok(finding) => Ok(run_outcome(alloc, names, steps, stats, finding)?),
        Err(stop) => Err(stop),
    }
}

/// What a command does.
pub(crate) fn command_outcome<F: FileStore>(
    alloc: Global,
    command: &Command,
    files: &mut F,
) -> Result<Outcome, Stop>
    requires { Fits (operands (F.words files.old)) (command_in command.now) }
    ensures gives { IfOk result (λ made. IfSome (F.stored files.old) (λ stored. Gives stored (there (command_in command.now)) made)) }
    ensures makes { IfOk result (λ made. IfSome (F.stored files.old) (λ stored. MakesFor stored (there (command_in command.now)) made)) }
    ensures fixed { IfOk result (λ made. IfSome (fixed_answer (there (command_in command.now))) (λ told. IsMade told made)) }
    ensures ready { IfOk result IsReady }
    ensures only { IfOk result (IsFor (there (command_in command.now))) }
    ensures fault { result ≡ Err Stop.Read → Rose (F.faults files.old) (F.faults files.new)
        ⊎ IsSomeAnd (F.stored files.old) (λ stored. (input : List ℕ) → Answers stored input (there (command_in command.now)) unread) }
    ensures reads { result ≡ Err Stop.Read → IsTrue (reads_files (there (command_in command.now))) }
    ensures no_fault { result ≢ Err Stop.Read → F.faults files.new ≡ F.faults files.old }
    ensures nothing_written { result ≢ Err Stop.Write }
{
    match command {
        Command::Check(names) => check_command(alloc, names, files),
        Command::Run {
            files: names,
            steps,
            stats,
        } => run_command(alloc, names, *steps, *stats, files),
        Command::Leaks(names) => list_command(alloc, names, files),
        Command::Make(n) => Ok(Outcome::Answers(made_answer(alloc, *n)?)),
        Command::Selftest(n) => selftest(alloc, *n),
    }
}
