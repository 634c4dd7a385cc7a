//! The verdict on a program.
ghost use Rattle.std.specs.Prelude.{◌≡◌, ◌+◌, ◌<◌, ◌≤◌, IfOk, is_some, map, string_bytes};
ghost use Rattle.name_resolve.specs.Inputs.{trees_of};
ghost use Rattle.laid_program.specs.Programs.{program_of};
ghost use Rattle.program_check.specs.Sources.{flow_of};
ghost use Rattle.program_check.specs.Answers.{Answers, KeepsNames, verdict_of};
ghost use Rattle.program_check.specs.Steps.{program_steps};
ghost use Rattle.program_check.specs.Judged.{IsJudged, LaysOut};

use crate::checked::Checked;
use crate::refusal::ProgramRefusal;
use alias_rules::alias_reports;
use call_effects::effects;
use laid_program::Laid;
use lay_out::lay_out;
use name_resolve::Resolved;
use path_check::{Verdict, check_paths};
use point_states::Steps;
use std::alloc::{AllocError, Global};
use std::marker::Brand;
use std::sync::ledger::{Blank, Ledger};
use traversal_funcs::view_reports;
use type_rules::type_check;

/// The program of the files, laid out.
fn laid(alloc: Global, resolved: Resolved) -> Result<Laid, ProgramRefusal>
    ensures laid { LaysOut (trees_of resolved.files.items) result }
    ensures names { IfOk result (λ laid. laid.names ≡ resolved.names) }
{
    let typed = type_check(alloc, resolved)?;
    Ok(lay_out(alloc, typed)?)
}

/// Tells whether a program that is laid out is accepted, or all of its reports: those of the rules
/// on the text, and those of the rules on facts over all control paths.
fn judged<L: Ledger>(alloc: Global, laid: Laid, steps: &mut Steps<L>) -> Result<Verdict, AllocError>
    ensures verdict { IfOk result (λ verdict. IsJudged (program_of laid) verdict) }
    ensures names { IfOk result (KeepsNames (map string_bytes laid.names.items)) }
    ensures cost { steps.new ≤ steps.old + program_steps (program_of laid) }
{
    let effects = effects(alloc, &laid)?;
    let alias = alias_reports(alloc, &laid, &effects)?;
    let views = view_reports(alloc, &laid, &effects)?;
    Ok(check_paths(alloc, laid, effects, alias, views, steps)?)
}

/// Checks the program of resolved files: whether it is accepted, or all of its reports, in order.
/// A program that breaks a sentence on types or is beyond a limit is refused. Each state that is
/// carried along a successor counts one step.
pub fn check_program<L: Ledger>(
    alloc: Global,
    resolved: Resolved,
    steps: &mut Steps<L>,
) -> Result<Verdict, ProgramRefusal>
    ensures answers { Answers (trees_of resolved.files.items) result }
    ensures names { IfOk result (KeepsNames (map string_bytes resolved.names.items)) }
    ensures cost { steps.new ≤ steps.old + program_steps (flow_of (trees_of resolved.files.items)) }
{
    let laid = laid(alloc, resolved)?;
    Ok(judged(alloc, laid, steps)?)
}

/// As `judged`, over a new ledger.
fn judge_counted<L: Ledger>(alloc: Global, laid: Laid, blank: Blank) -> Result<Verdict, AllocError>
    requires name { blank.name ≡ L.name }
    requires parts { blank.parts ≡ L.parts }
    requires some { 0 < L.parts }
    ensures verdict { IfOk result (λ verdict. IsJudged (program_of laid) verdict) }
    ensures names { IfOk result (KeepsNames (map string_bytes laid.names.items)) }
{
    let mut steps: Steps<L> = Steps::new(blank);
    judged(alloc, laid, &mut steps)
}

/// Checks the program of resolved files, as `check_program` does, and forgets how many steps it
/// took.
pub fn check_files(alloc: Global, resolved: Resolved) -> Result<Checked, ProgramRefusal>
    ensures answers { Answers (trees_of resolved.files.items) (verdict_of result) }
    ensures names { IfOk result (λ checked. KeepsNames (map string_bytes resolved.names.items) checked.verdict) }
    ensures main { IfOk result (λ checked. checked.has_main ≡ is_some (flow_of (trees_of resolved.files.items)).main) }
{
    let laid = laid(alloc, resolved)?;
    let has_main = laid.main.is_some();
    let verdict = judge_counted::<Brand>(alloc, laid, Blank::new(1))?;
    Ok(Checked { verdict, has_main })
}
