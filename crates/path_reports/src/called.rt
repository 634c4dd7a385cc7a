//! The reports of facts at a call, by the package objects that its callee uses.
ghost use Rattle.std.specs.Prelude.{◌≡◌, [], None, map, get_or, length, IfOk, OnOk, if◌then◌else◌};
ghost use Rattle.report_lists.specs.Gains.{put_told};
ghost use Rattle.place_names.specs.Facts as facts;
ghost use Rattle.place_names.specs.Rules.{breaks_O11};
ghost use Rattle.fact_questions.specs.Findings.{as_found, as_option, found_among, with_found};
ghost use Rattle.flow_paths.specs.Effects.{Ascends, is_in};
ghost use Rattle.flow_paths.specs.Printing.{printed_name};
ghost use Rattle.state_trees.specs.FactStates.{may_hold};
ghost use Rattle.path_reports.specs.CalledPoints.{AreAscending};
ghost use Rattle.path_reports.specs.Uses.{breaks_call, use_forbids, uses_told, called_told};

use crate::printed::put_found;
use fact_questions::{Found, add_if, place};
use flow_paths::{Effects, Instr, Point};
use place_names::{Fact, Loan, PlaceName, Rule};
use report_lists::ReportSet;
use spark_base::{Listed, Pos};
use state_trees::Tree;
use std::alloc::{AllocError, Global};
use type_definitions::Info;
use typed_tree::Object;

/// Whether an ascending list has an object. It is looked up by halves.
fn is_in(list: &[u32], object: u32) -> bool
    requires { Ascends list.now }
    ensures { result ≡ is_in object list.now }
{
    list.binary_search(&object).is_ok()
}

/// Whether a fact breaks a rule where the object that it is rooted in is used. An observed one may
/// be read.
fn breaks_use(fact: &Fact, written: bool) -> bool
    ensures { result ≡ breaks_O11 (facts.place fact.now).root written fact.now }
{
    match fact {
        Fact::Moved(_) => true,
        Fact::Lent { kind, .. } => match kind {
            Loan::Borrowed => true,
            Loan::Observed => written,
        },
    }
}

/// Whether a fact breaks a rule at a call that reads and writes these objects. Ada.Text_IO isn't
/// looked at.
fn breaks_call(count: usize, read: &[u32], written: &[u32], fact: &Fact) -> bool
    requires read { Ascends read.now }
    requires written { Ascends written.now }
    ensures { result ≡ breaks_call count read.now written.now fact.now }
{
    let object = place(fact).root();
    if object == 0 || count <= object as usize {
        return false;
    }
    if is_in(written, object) {
        return breaks_use(fact, true);
    }
    breaks_use(fact, false) && is_in(read, object)
}

/// Adds what a fact forbids at the call, unless it is there.
fn add_use(
    found: &mut Vec<Found>,
    count: usize,
    read: &[u32],
    written: &[u32],
    fact: &Fact,
) -> Result<(), AllocError>
    requires read { Ascends read.now }
    requires written { Ascends written.now }
    ensures { OnOk result (found.new.items
        ≡ with_found 0 found.old.items (as_option (use_forbids count read.now written.now fact.now))) }
{
    let is_broken = breaks_call(count, read, written, fact);
    let name = PlaceName::new(place(fact).root());
    add_if(found, 0, is_broken, Rule::O11, &name, fact)?;
    Ok(())
}

/// The same, where the fact may hold.
fn add_use_where(
    found: &mut Vec<Found>,
    may: bool,
    count: usize,
    read: &[u32],
    written: &[u32],
    fact: &Fact,
) -> Result<(), AllocError>
    requires read { Ascends read.now }
    requires written { Ascends written.now }
    ensures { OnOk result (found.new.items ≡ with_found 0 found.old.items
        (as_option (if may then use_forbids count read.now written.now fact.now else None))) }
{
    if !may {
        return Ok(());
    }
    add_use(found, count, read, written, fact)?;
    Ok(())
}

/// What the facts that may hold forbid at the call, each tested with the object that it is rooted
/// in, without repeats.
fn uses_found(
    alloc: Global,
    count: usize,
    tree: &Tree<'_>,
    read: &[u32],
    written: &[u32],
) -> Result<Vec<Found>, AllocError>
    requires read { Ascends read.now }
    requires written { Ascends written.now }
    ensures { IfOk result (λ found. found.items
        ≡ map as_found (found_among (use_forbids count read.now written.now) (may_hold tree.now))) }
{
    let mut found = Vec::new(alloc);
    let facts = tree.facts();
    'numbers: for i in 0..facts.len() {
        let may = tree.may(i as u32);
        add_use_where(&mut found, may, count, read, written, &facts[i])?;
    }
    Ok(found)
}

/// Puts in the reports of the facts that may hold at the call.
fn put_uses(
    alloc: Global,
    table: &[Info],
    objects: &[Object],
    tree: &Tree<'_>,
    pos: Pos,
    read: &[u32],
    written: &[u32],
    set: &mut ReportSet,
) -> Result<(), AllocError>
    requires read { Ascends read.now }
    requires written { Ascends written.now }
    ensures { OnOk result (set.new ≡ put_told (printed_name table.now objects.now) set.old
        (uses_told (length objects.now) read.now written.now pos (may_hold tree.now))) }
{
    let found = uses_found(alloc, objects.len(), tree, read, written)?;
    put_found(alloc, table, objects, pos, &found, set)?;
    Ok(())
}

/// The objects of a subprogram.
fn listed_at(lists: &[Listed<u32>], sub: u32) -> &[u32]
    ensures { result.now ≡ get_or lists.now sub [] }
{
    match lists.get(sub as usize) {
        Some(list) => list.as_slice(),
        None => &[],
    }
}

/// Puts in the reports of the facts that may hold at the call of a point.
pub(crate) fn put_called(
    alloc: Global,
    table: &[Info],
    objects: &[Object],
    effects: &Effects,
    tree: &Tree<'_>,
    point: &Point,
    set: &mut ReportSet,
) -> Result<(), AllocError>
    requires { AreAscending effects.now }
    ensures { OnOk result (set.new ≡ put_told (printed_name table.now objects.now) set.old
        (called_told objects.now effects.now point.now.pos point.now.instr (may_hold tree.now))) }
{
    let Instr::Call { sub, .. } = &point.instr else {
        return Ok(());
    };
    let read = listed_at(effects.read.as_slice(), *sub);
    let written = listed_at(effects.written.as_slice(), *sub);
    put_uses(alloc, table, objects, tree, point.pos, read, written, set)
}
