//! The reports on the actuals of one call.
ghost use Rattle.std.specs.Prelude.{◌≡◌, ◌&&◌, not, [], ◌∷◌, map, flat_map, IsTrue, OnOk, IfOk, if◌then◌else◌};
ghost use Rattle.place_names.specs.Names.{overlaps};
ghost use Rattle.type_definitions.specs.Types.{is_scalar};
ghost use Rattle.flow_paths.specs.Effects.{Ascends, is_in, read_by, written_by};
ghost use Rattle.flow_paths.specs.Views.{is_in_mode, text_report};
ghost use Rattle.flow_paths.specs.Aliases.{is_immutable, is_scalar_formal, may_overlap, pair_reports, overlap_reports, meets_global, global_reports};
ghost use Rattle.flow_paths.specs.Reports.{report_of};
ghost use Rattle.flow_paths.specs.Objects.{is_package_object};
ghost use Rattle.alias_rules.specs.Told.{known, passed_of, is_met, Adds};
ghost use Rattle.alias_rules.specs.Order.{AreOrdered};

use crate::actuals::Passed;
use flow_paths::{Effects, Report};
use laid_program::Laid;
use place_names::{Mode, Rule};
use program_typing::{ProgramTyping, is_variable_access};
use spark_base::Listed;
use std::alloc::AllocError;
use type_definitions::View;

/// What is known of objects and types.
fn typing(laid: &Laid) -> ProgramTyping<'_>
    ensures table { result.table.now ≡ laid.now.table }
    ensures objects { result.objects.now ≡ laid.now.objects }
{
    ProgramTyping {
        table: &laid.table,
        objects: laid.objects.as_slice(),
        subs: &[],
    }
}

/// Whether the mode is `in`.
fn is_in_mode(mode: Mode) -> bool
    ensures { result ≡ is_in_mode mode }
{
    matches!(mode, Mode::In)
}

/// Whether a formal is immutable: its mode is `in`, and its type no access-to-variable type.
fn is_immutable(laid: &Laid, x: u32) -> bool
    ensures { result ≡ is_immutable (known laid.now) x }
{
    let typing = typing(laid);
    is_in_mode(typing.object_mode(x)) && !is_variable_access(typing.view(x))
}

/// Whether a type is scalar.
fn is_scalar(view: View) -> bool
    ensures { result ≡ is_scalar view }
{
    matches!(view, View::Whole { .. } | View::Listed { .. })
}

/// Whether the type of a formal is scalar.
fn is_scalar_formal(laid: &Laid, x: u32) -> bool
    ensures { result ≡ is_scalar_formal (known laid.now) x }
{
    is_scalar(typing(laid).view(x))
}

/// Whether an object is declared in a package.
fn is_package_object(laid: &Laid, x: u32) -> bool
    ensures { result ≡ is_package_object (known laid.now) x }
{
    typing(laid).is_package_object(x)
}

/// Whether two actuals may overlap: both formals are immutable, or one is and its type is scalar.
fn may_overlap(laid: &Laid, a: &Passed, b: &Passed) -> bool
    ensures { result ≡ may_overlap (known laid.now) (passed_of a.now) (passed_of b.now) }
{
    let first = is_immutable(laid, a.formal);
    let second = is_immutable(laid, b.formal);
    first && second
        || first && is_scalar_formal(laid, a.formal)
        || second && is_scalar_formal(laid, b.formal)
}

/// Whether two actuals overlap and may not.
fn overlap(laid: &Laid, a: &Passed, b: &Passed) -> bool
    ensures { result ≡ overlaps a.now.name b.now.name && not (may_overlap (known laid.now) (passed_of a.now) (passed_of b.now)) }
{
    a.name.overlaps(&b.name) && !may_overlap(laid, a, b)
}

/// The report at an actual.
fn report_at(rule: Rule, a: &Passed) -> Result<Report, AllocError>
    ensures { IfOk result (λ report. report_of report ≡ text_report a.now.pos rule a.now.name) }
{
    Ok(Report {
        pos: a.pos,
        rule,
        name: a.name.clone()?,
        state: None,
    })
}

/// Adds the report at an actual, if there is to be one.
fn report_if(
    told: bool,
    rule: Rule,
    a: &Passed,
    reports: &mut Listed<Report>,
) -> Result<(), AllocError>
    ensures { OnOk result (Adds reports.old reports.new (if told then text_report a.now.pos rule a.now.name ∷ [] else [])) }
{
    if told {
        Ok(reports.push(report_at(rule, a)?)?)
    } else {
        Ok(())
    }
}

/// A1 at the actuals that overlap one before them.
fn overlaps_with(
    laid: &Laid,
    a: &Passed,
    behind: &[Passed],
    reports: &mut Listed<Report>,
) -> Result<(), AllocError>
    ensures { OnOk result (Adds reports.old reports.new (flat_map (pair_reports (known laid.now) (passed_of a.now)) (map passed_of behind.now))) }
{
    'behind: for b in behind {
        report_if(overlap(laid, a, b), Rule::A1, b, reports)?;
    }
    Ok(())
}

/// A1 at the actuals of a call.
pub(crate) fn overlaps(
    laid: &Laid,
    actuals: &[Passed],
    reports: &mut Listed<Report>,
) -> Result<(), AllocError>
    ensures { OnOk result (Adds reports.old reports.new (overlap_reports (known laid.now) (map passed_of actuals.now))) }
{
    'actuals: for i in 0..actuals.len() {
        overlaps_with(laid, &actuals[i], &actuals[i + 1..], reports)?;
    }
    Ok(())
}

/// Whether a list has an object. An ordered one is looked up by halves.
fn is_in(list: &[u32], ordered: bool, g: u32) -> bool
    requires { IsTrue ordered → Ascends list.now }
    ensures { result ≡ is_in g list.now }
{
    if ordered {
        list.binary_search(&g).is_ok()
    } else {
        list.iter().any(|x| g == *x)
    }
}

/// Whether a callee reads an object.
fn is_read(effects: &Effects, ordered: bool, callee: u32, g: u32) -> bool
    requires { AreOrdered ordered effects.now }
    ensures { result ≡ is_in g (read_by effects.now callee) }
{
    match effects.read.as_slice().get(callee as usize) {
        Some(list) => is_in(list.as_slice(), ordered, g),
        None => false,
    }
}

/// Whether a callee writes an object.
fn is_written(effects: &Effects, ordered: bool, callee: u32, g: u32) -> bool
    requires { AreOrdered ordered effects.now }
    ensures { result ≡ is_in g (written_by effects.now callee) }
{
    match effects.written.as_slice().get(callee as usize) {
        Some(list) => is_in(list.as_slice(), ordered, g),
        None => false,
    }
}

/// Whether an actual that is rooted in a package object of the callee is reported.
fn meets_global(laid: &Laid, read: bool, written: bool, x: u32) -> bool
    ensures { result ≡ meets_global (known laid.now) read written x }
{
    (read || written) && !is_immutable(laid, x) || written && !is_scalar_formal(laid, x)
}

/// Whether an actual overlaps a package object that the callee uses, and may not.
fn overlaps_global(laid: &Laid, effects: &Effects, ordered: bool, callee: u32, a: &Passed) -> bool
    requires { AreOrdered ordered effects.now }
    ensures { result ≡ is_met (known laid.now) effects.now callee a.now }
{
    let g = a.name.root();
    if !is_package_object(laid, g) {
        return false;
    }
    let read = is_read(effects, ordered, callee, g);
    let written = is_written(effects, ordered, callee, g);
    meets_global(laid, read, written, a.formal)
}

/// A2 at the actuals of a call.
pub(crate) fn globals(
    laid: &Laid,
    effects: &Effects,
    ordered: bool,
    callee: u32,
    actuals: &[Passed],
    reports: &mut Listed<Report>,
) -> Result<(), AllocError>
    requires { AreOrdered ordered effects.now }
    ensures { OnOk result (Adds reports.old reports.new (flat_map (global_reports (known laid.now) effects.now callee) (map passed_of actuals.now))) }
{
    'actuals: for a in actuals {
        report_if(
            overlaps_global(laid, effects, ordered, callee, a),
            Rule::A2,
            a,
            reports,
        )?;
    }
    Ok(())
}
