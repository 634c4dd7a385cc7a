//! What is found of the sources of a command.
ghost use Rattle.std.specs.Prelude.{◌≡◌, ◌<◌, ◌≤◌, ℕ, List, Err, None, IfOk, OnErr, All, length, map, string_bytes};
ghost use Rattle.name_events.specs.Faults.{name_fault};
ghost use Rattle.name_resolve.specs.Inputs.{trees_of};
ghost use Rattle.name_resolve.specs.Judges as resolving;
ghost use Rattle.spark_tool.specs.Answers.{finding_of};
ghost use Rattle.spark_tool.specs.Lexing.{texts_of};
ghost use Rattle.source_trees.specs.Trees.{AreRead};
ghost use Rattle.flow_paths.specs.Printing.{printed_name};
ghost use Rattle.path_check.specs.Told.{reports_in};
ghost use Rattle.program_check.specs.Answers.{KeepsNames};
ghost use Rattle.rule_reports.specs.Lines.{report_lines};
ghost use Rattle.answered_runs.specs.tool_answers.Product.{Checks};
ghost use Rattle.spark_tool.specs.Refusals.{IsRefused, IsNamed, Tells, IsChecked};
ghost use Rattle.answered_runs.specs.tool_answers.Reading.{Texts};
ghost use Rattle.spark_tool.specs.Reading.{sources_of, IsWhole};

use crate::answer::{file_refusal_answer, refusal_answer};
use crate::codes::{naming_code, program_code, source_code};
use crate::finding::Finding;
use crate::parsing::read_trees;
use crate::reading::Gathered;
use crate::stop::Stop;
use ada_tree::Trees;
use flow_paths::Report;
use laid_program::Names;
use name_resolve::{NameRefusal, Resolved, resolve};
use path_check::Verdict;
use program_check::{Checked, check_files};
use rule_reports::{Code, report_lines};
use spark_base::{FILES, Listed, Pos, SOURCE_BYTES};
use std::alloc::{AllocError, Global};
use std::mem::ManuallyDrop;

/// The line of a refusal with this position and this code, if it isn't out of memory.
fn refused(alloc: Global, names: &[String], found: Option<(Pos, Code)>) -> Result<Finding, Stop>
    ensures line { IfOk result (λ finding. IsRefused (map string_bytes names.now) found (finding_of finding)) }
    ensures named { IfOk result (IsNamed (map string_bytes names.now)) }
    ensures memory { OnErr result (result ≡ Err Stop.Memory) }
{
    match found {
        Some((pos, code)) => Ok(Finding::Ends(refusal_answer(alloc, names, pos, code)?)),
        None => Err(Stop::Memory),
    }
}

/// The lines of some reports. The reports are leaked: the process ends next, and freeing them costs
/// time.
fn lines_of(
    alloc: Global,
    names: &[String],
    printed: Names,
    reports: Listed<Report>,
) -> Result<Vec<u8>, AllocError>
    ensures { IfOk result (λ lines. lines.items
        ≡ report_lines (map string_bytes names.now) (printed_name printed.table printed.objects) (reports_in reports)) }
{
    let printed = ManuallyDrop::new(printed);
    let reports = ManuallyDrop::new(reports);
    let table = printed.table.infos();
    let objects = printed.objects.as_slice();
    report_lines(alloc, names, table, objects, reports.as_slice())
}

/// The reports of a program, or the program where there are none.
fn judged(alloc: Global, names: &[String], checked: Checked) -> Result<Finding, AllocError>
    requires { KeepsNames (map string_bytes names.now) checked.verdict }
    ensures told { IfOk result (λ finding. Tells (map string_bytes names.now) checked.has_main checked.verdict (finding_of finding)) }
    ensures named { IfOk result (IsNamed (map string_bytes names.now)) }
{
    let Checked { verdict, has_main } = checked;
    match verdict {
        Verdict::Accepted(program) => Ok(Finding::Passes(program)),
        Verdict::Rejected {
            names: printed,
            reports,
        } => Ok(Finding::Rejects(has_main, lines_of(alloc, names, printed, reports)?)),
    }
}

/// What is found of the named files whose names have a meaning.
fn check_resolved(alloc: Global, names: &[String], program: Resolved) -> Result<Finding, Stop>
    requires fine { name_fault (trees_of program.files.items) ≡ None }
    requires named { map string_bytes program.names.items ≡ map string_bytes names.now }
    ensures finding { IfOk result (λ finding. (texts : List (List ℕ)) → AreRead texts (trees_of program.files.items)
        → Checks (map string_bytes names.now) (Texts texts) (finding_of finding)) }
    ensures named { IfOk result (IsNamed (map string_bytes names.now)) }
    ensures memory { OnErr result (result ≡ Err Stop.Memory) }
{
    match check_files(alloc, program) {
        Ok(checked) => Ok(judged(alloc, names, checked)?),
        Err(refusal) => Ok(refused(alloc, names, program_code(refusal))?),
    }
}

/// The names as texts of their own.
fn copied(alloc: Global, names: &[String]) -> Result<Vec<String>, AllocError>
    ensures texts { IfOk result (λ copies. map string_bytes copies.items ≡ map string_bytes names.now) }
{
    let mut copies = Vec::new(alloc);
    'names: for name in names {
        copies.push(name.clone()?)?;
    }
    Ok(copies)
}

/// The files with the meaning of their names.
fn resolved(alloc: Global, names: &[String], trees: Vec<Trees>) -> Result<Resolved, NameRefusal>
    requires read { (texts : List (List ℕ)) × AreRead texts (trees_of trees.items) }
    ensures fault { resolving.Judges result (name_fault (trees_of trees.items)) }
    ensures files { IfOk result (λ made. trees_of made.files.items ≡ trees_of trees.items) }
    ensures named { IfOk result (λ made. map string_bytes made.names.items ≡ map string_bytes names.now) }
{
    let copies = copied(alloc, names)?;
    resolve(alloc, copies, trees)
}

/// What is found of the trees of the named files.
fn check_trees(alloc: Global, names: &[String], trees: Vec<Trees>) -> Result<Finding, Stop>
    requires read { (texts : List (List ℕ)) × AreRead texts (trees_of trees.items) }
    ensures finding { IfOk result (λ finding. (texts : List (List ℕ)) → AreRead texts (trees_of trees.items)
        → Checks (map string_bytes names.now) (Texts texts) (finding_of finding)) }
    ensures named { IfOk result (IsNamed (map string_bytes names.now)) }
    ensures memory { OnErr result (result ≡ Err Stop.Memory) }
{
    match resolved(alloc, names, trees) {
        Ok(program) => Ok(check_resolved(alloc, names, program)?),
        Err(refusal) => Ok(refused(alloc, names, naming_code(refusal))?),
    }
}

/// What is found of the texts of the named files.
fn check_texts(alloc: Global, names: &[String], texts: Vec<Vec<u8>>) -> Result<Finding, Stop>
    requires small { All (λ text. length text.items ≤ SOURCE_BYTES) texts.items }
    requires few { length texts.items ≤ FILES }
    ensures finding { IfOk result (λ finding. Checks (map string_bytes names.now) (Texts (texts_of texts.items)) (finding_of finding)) }
    ensures named { IfOk result (IsNamed (map string_bytes names.now)) }
    ensures memory { OnErr result (result ≡ Err Stop.Memory) }
{
    match read_trees(alloc, texts) {
        Ok(trees) => Ok(check_trees(alloc, names, trees)?),
        Err(refusal) => Ok(refused(alloc, names, source_code(refusal))?),
    }
}

/// What is found of what was read of the named files.
pub(crate) fn check_sources(
    alloc: Global,
    names: &[String],
    gathered: Gathered,
) -> Result<Finding, Stop>
    requires whole { IsWhole (length names.now) gathered }
    requires few { length names.now ≤ FILES }
    ensures finding { IfOk result (λ finding. Checks (map string_bytes names.now) (sources_of gathered) (finding_of finding)) }
    ensures checked { IfOk result (λ finding. IsChecked (finding_of finding)) }
    ensures named { IfOk result (IsNamed (map string_bytes names.now)) }
    ensures memory { OnErr result (result ≡ Err Stop.Memory) }
{
    match gathered {
        Gathered::All(texts) => Ok(check_texts(alloc, names, texts)?),
        Gathered::TooLarge(file) => Ok(Finding::Ends(file_refusal_answer(
            alloc,
            names,
            file,
            Code::S1,
        )?)),
    }
}
