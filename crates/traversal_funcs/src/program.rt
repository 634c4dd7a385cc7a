//! The reports of all subprograms.
ghost use Rattle.std.specs.Prelude.{◌≡◌, map, is_some, OnOk, IfOk};
ghost use Rattle.flow_paths.specs.Acts.{gives_variable};
ghost use Rattle.flow_paths.specs.Objects.{traverses};
ghost use Rattle.flow_paths.specs.Reports.{report_of};
ghost use Rattle.flow_paths.specs.Stands.{flow_sub_of};
ghost use Rattle.flow_paths.specs.Views.{traversed_of};
ghost use Rattle.program_typing.specs.Typings.{typing};
ghost use Rattle.laid_program.specs.Programs.{program_of};
ghost use Rattle.traversal_funcs.specs.Lendings.{AreHolders, lendings_of};
ghost use Rattle.traversal_funcs.specs.Exact.{IsTraversed, AreViews, Adds};
ghost use Rattle.traversal_funcs.specs.ViewReports.{AreViewReports};

use crate::holders::{Holders, by_source};
use crate::lending::{Lending, lendings};
use crate::questions::Question;
use crate::roots::search;
use crate::views::{Traversed, Views};
use flow_paths::{Effects, LaidSub, Report};
use laid_program::Laid;
use program_typing::{ProgramTyping, is_borrowing};
use spark_base::Listed;
use std::alloc::{AllocError, Global};
use typed_tree::TypedRows;

/// Whether what is given is of an anonymous access-to-variable type.
fn gives_variable(known: &ProgramTyping<'_>, given: Option<u32>) -> bool
    ensures { result ≡ gives_variable (typing known.now) given }
{
    match given {
        Some(t) => is_borrowing(known.full(t)),
        None => false,
    }
}

/// The first of some formals, where a function traverses it.
fn traversed_formal(traverses: bool, formals: &[u32]) -> Option<u32>
    ensures { result ≡ traversed_of traverses formals.now }
{
    match formals.first() {
        Some(formal) if traverses => Some(*formal),
        _ => None,
    }
}

/// What is known of the traversed formal, where there is one.
fn traversed<'p>(
    alloc: Global,
    known: ProgramTyping<'p>,
    formal: Option<u32>,
    lendings: &[Lending],
    holders: &Holders,
) -> Result<Option<Traversed<'p>>, AllocError>
    requires { AreHolders holders.now.entries lendings.now }
    ensures { IfOk result (λ made. IsTraversed made (typing known.entry) lendings.now formal) }
{
    let Some(object) = formal else {
        return Ok(None);
    };
    let own = search(alloc, known, Question::Is { object }, lendings, holders)?;
    let other = search(
        alloc,
        known,
        Question::IsOther { object },
        lendings,
        holders,
    )?;
    Ok(Some(Traversed {
        formal: object,
        own,
        other,
    }))
}

/// What is known of a subprogram.
fn views<'p>(
    alloc: Global,
    known: ProgramTyping<'p>,
    scopes: &'p [u32],
    rows: &'p TypedRows,
    sub: &LaidSub,
) -> Result<Views<'p>, AllocError>
    ensures { IfOk result (λ made. AreViews made (typing known.entry) scopes.now rows.now sub.now) }
{
    let lendings = lendings(alloc, sub.points.as_slice())?;
    let holders = by_source(alloc, &lendings)?;
    let formal = traversed_formal(known.traverses(sub.result), sub.formals.as_slice());
    let traversed = traversed(alloc, known, formal, &lendings, &holders)?;
    let outer = search(alloc, known, Question::IsOuter, &lendings, &holders)?;
    Ok(Views {
        known,
        scopes,
        rows,
        function: sub.result.is_some(),
        variable: gives_variable(&known, sub.result),
        outer,
        traversed,
    })
}

/// Adds what is reported of a subprogram.
fn add(
    alloc: Global,
    laid: &Laid,
    effects: &Effects,
    sub: &LaidSub,
    to: &mut Vec<Report>,
) -> Result<(), AllocError>
    ensures { OnOk result (Adds (program_of laid.now) effects.now (flow_sub_of laid.now.rows sub.now) (map report_of to.old.items) (map report_of to.new.items)) }
{
    let known = ProgramTyping {
        table: &laid.table,
        objects: laid.objects.as_slice(),
        subs: &[],
    };
    let views = views(alloc, known, laid.scopes.as_slice(), &laid.rows, sub)?;
    views.points(effects, sub.points.as_slice(), to)?;
    Ok(())
}

/// The reports of V1 to V4 of all subprograms, in the order of the text. Some may come more than
/// once. The only error is out of memory.
pub fn view_reports(
    alloc: Global,
    laid: &Laid,
    effects: &Effects,
) -> Result<Listed<Report>, AllocError>
    ensures { IfOk result (λ reports. AreViewReports (program_of laid.now) effects.now (map report_of reports)) }
{
    let mut made = Vec::new(alloc);
    'subs: for sub in laid.subs.as_slice() {
        add(alloc, laid, effects, sub, &mut made)?;
    }
    Ok(Listed::from_vec(made))
}
