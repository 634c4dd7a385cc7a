//! What `selftest` does.
ghost use Rattle.std.specs.Prelude.{◌≡◌, ◌≢◌, [], ℕ, List, Option, Err, false, true, IfOk, length, map, string_bytes};
ghost use Rattle.command_words.specs.Words as grammar;
ghost use Rattle.laid_program.specs.Programs.{program_of};
ghost use Rattle.spark_tool.specs.Answers.{answer_for, finding_of, run_for};
ghost use Rattle.spark_base.specs.declared.limits.TheConstants.{STEPS};
ghost use Rattle.answered_runs.specs.tool_answers.Runs.{run_found};
ghost use Rattle.answered_runs.specs.tool_answers.Commands.{runs, uses_store};
ghost use Rattle.answered_runs.specs.tool_answers.Product.{Checks, Passes, made_names, made_source, test_answer};
ghost use Rattle.answered_runs.specs.tool_answers.Product as product;
ghost use Rattle.spark_tool.specs.Reading.{IsWhole, sources_of};
ghost use Rattle.spark_tool.specs.Refusals.{IsChecked, IsFor, IsReady};

use crate::check::check_sources;
use crate::command::{refuse, reject};
use crate::finding::{Finding, Outcome};
use crate::reading::Gathered;
use crate::stop::Stop;
use answered_runs::self_test;
use path_check::AcceptedProgram;
use prog_maker::make_program;
use spark_base::SOURCE_BYTES;
use std::alloc::{AllocError, Global};

/// The name of the program that is made.
fn made_name(alloc: Global) -> Result<Vec<String>, AllocError>
    ensures names { IfOk result (λ names. map string_bytes names.items ≡ made_names) }
    ensures one { IfOk result (λ names. length names.items ≡ 1) }
{
    let mut names = Vec::new(alloc);
    names.push(String::from_str(alloc, "selftest.adb")?)?;
    Ok(names)
}

/// The program that is made, as if it had been read.
fn made_text(alloc: Global, n: u32) -> Result<Gathered, AllocError>
    ensures source { IfOk result (λ gathered. sources_of gathered ≡ made_source n) }
    ensures whole { IfOk result (IsWhole 1) }
{
    let text = make_program(alloc, n)?;
    if text.len() > SOURCE_BYTES {
        return Ok(Gathered::TooLarge(0));
    }
    let mut texts = Vec::new(alloc);
    texts.push(text)?;
    Ok(Gathered::All(texts))
}

/// What is done with it where nothing is reported of it.
fn tested(
    alloc: Global,
    names: &[String],
    n: u32,
    program: AcceptedProgram,
) -> Result<Outcome, AllocError>
    requires { map string_bytes names.now ≡ made_names }
    ensures answer { IfOk result (λ made. (input : List ℕ) → answer_for input made ≡ test_answer n (Passes (program_of program.laid))) }
    ensures run { IfOk result (λ made. (input : List ℕ) → run_for input made ≡ run_found STEPS [] (Passes (program_of program.laid))) }
    ensures ready { IfOk result IsReady }
    ensures only { IfOk result (λ made. (command : Option grammar.Command) → runs command ≡ false → uses_store command ≡ true → IsFor command made) }
{
    if program.laid().main.is_some() {
        Ok(Outcome::Tests(program, n))
    } else {
        refuse(alloc, names)
    }
}

/// What is done with it, by what is found of it.
fn test_outcome(
    alloc: Global,
    names: &[String],
    n: u32,
    finding: Finding,
) -> Result<Outcome, AllocError>
    requires checked { IsChecked (finding_of finding) }
    requires named { map string_bytes names.now ≡ made_names }
    ensures answer { IfOk result (λ made. (input : List ℕ) → answer_for input made ≡ test_answer n (finding_of finding)) }
    ensures run { IfOk result (λ made. (input : List ℕ) → run_for input made ≡ run_found STEPS [] (finding_of finding)) }
    ensures ready { IfOk result IsReady }
    ensures only { IfOk result (λ made. (command : Option grammar.Command) → runs command ≡ false → uses_store command ≡ true → IsFor command made) }
{
    match finding {
        Finding::Ends(answer) => Ok(Outcome::Answers(answer)),
        Finding::Rejects(has_main, lines) => reject(alloc, names, has_main, lines),
        Finding::Passes(program) => tested(alloc, names, n, program),
    }
}

/// What `selftest` does: it checks the program that is made, and then runs it.
pub(crate) fn selftest(alloc: Global, n: u32) -> Result<Outcome, Stop>
    ensures gives { IfOk result (λ made. (finding : product.Finding) × (Checks made_names (made_source n) finding
        × ((input : List ℕ) → answer_for input made ≡ test_answer n finding)
        × ((input : List ℕ) → run_for input made ≡ run_found STEPS [] finding))) }
    ensures ready { IfOk result IsReady }
    ensures only { IfOk result (λ made. (command : Option grammar.Command) → runs command ≡ false → uses_store command ≡ true → IsFor command made) }
    ensures no_read { result ≢ Err Stop.Read }
    ensures nothing_written { result ≢ Err Stop.Write }
{
    let names = made_name(alloc)?;
    let gathered = made_text(alloc, n)?;
    let finding = check_sources(alloc, names.as_slice(), gathered)?;
    Ok(test_outcome(alloc, names.as_slice(), n, finding)?)
}
