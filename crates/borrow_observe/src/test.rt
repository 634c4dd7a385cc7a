//! Tests of an act by what may hold before it.
ghost use Rattle.std.specs.Prelude.{◌≡◌, ◌≤◌, None, vec_len, if◌then◌else◌, OnOk, OnErr};
ghost use Rattle.place_names.specs.declared.act.Act.TheVariants as acts;
ghost use Rattle.fact_questions.specs.Findings.{as_option, with_found, Appends};
ghost use Rattle.borrow_observe.specs.LoanRules.{loans_forbid, loans_found};

use crate::rule::{breaks_actual, breaks_reborrow, breaks_scope_end, breaks_use};
use fact_questions::{Found, add_if, is_moved_or_borrowed, is_moved_or_lent, place};
use place_names::{Act, Fact, PlaceName, Rule};
use state_trees::Tree;
use std::alloc::AllocError;

/// Adds what a fact forbids at the source of a traversal function's return.
fn add_give(
    found: &mut Vec<Found>,
    start: usize,
    name: &PlaceName,
    borrows: bool,
    fact: &Fact,
) -> Result<(), AllocError>
    requires { start ≤ vec_len found.old }
    ensures ok { OnOk result (found.new.items
        ≡ with_found start found.old.items (as_option (loans_forbid (acts.Give name.now borrows) fact.now))) }
    ensures err { OnErr result (found.new.items ≡ found.old.items) }
{
    if borrows {
        let is_broken = is_moved_or_lent(fact, name);
        return add_if(found, start, is_broken, Rule::O5, name, fact);
    }
    let is_broken = is_moved_or_borrowed(fact, name);
    add_if(found, start, is_broken, Rule::O6, name, fact)
}

/// Adds what a fact forbids at an act by these rules.
fn add_forbidden(
    found: &mut Vec<Found>,
    start: usize,
    act: &Act,
    fact: &Fact,
) -> Result<(), AllocError>
    requires { start ≤ vec_len found.old }
    ensures ok { OnOk result (found.new.items
        ≡ with_found start found.old.items (as_option (loans_forbid act.now fact.now))) }
    ensures err { OnErr result (found.new.items ≡ found.old.items) }
{
    match act {
        Act::Borrow { name, .. } => {
            let is_broken = is_moved_or_lent(fact, name);
            add_if(found, start, is_broken, Rule::O5, name, fact)
        }
        Act::Observe { name, .. } => {
            let is_broken = is_moved_or_borrowed(fact, name);
            add_if(found, start, is_broken, Rule::O6, name, fact)
        }
        Act::Reborrow { borrower, .. } => {
            let is_broken = breaks_reborrow(fact, *borrower);
            add_if(
                found,
                start,
                is_broken,
                Rule::O7,
                &PlaceName::new(*borrower),
                fact,
            )
        }
        Act::EndScope { object, borrower } => {
            let is_broken = breaks_scope_end(fact, *object, *borrower);
            add_if(found, start, is_broken, Rule::O8, place(fact), fact)
        }
        Act::Actual {
            name,
            mode,
            owning,
            access,
        } => {
            let is_broken = breaks_actual(fact, name, *mode, *owning, *access);
            add_if(found, start, is_broken, Rule::O10, name, fact)
        }
        Act::Global { object, written } => {
            let is_broken = breaks_use(fact, *object, *written);
            add_if(
                found,
                start,
                is_broken,
                Rule::O11,
                &PlaceName::new(*object),
                fact,
            )
        }
        Act::Give { name, borrows } => add_give(found, start, name, *borrows, fact),
        Act::Read { .. }
        | Act::Look { .. }
        | Act::Write { .. }
        | Act::Move { .. }
        | Act::Return { .. }
        | Act::Free { .. } => Ok(()),
    }
}

/// The same, where the fact may hold.
fn add_forbidden_if(
    found: &mut Vec<Found>,
    start: usize,
    may: bool,
    act: &Act,
    fact: &Fact,
) -> Result<(), AllocError>
    requires { start ≤ vec_len found.old }
    ensures ok { OnOk result (found.new.items
        ≡ with_found start found.old.items (as_option (if may then loans_forbid act.now fact.now else None))) }
    ensures err { OnErr result (found.new.items ≡ found.old.items) }
{
    if !may {
        return Ok(());
    }
    add_forbidden(found, start, act, fact)?;
    Ok(())
}

/// Appends what the facts that may hold forbid at an act by these rules, in the order of the facts
/// and without repeats. Out of memory, the list has a prefix of that after what it held.
pub fn test_loans(tree: &Tree<'_>, act: &Act, found: &mut Vec<Found>) -> Result<(), AllocError>
    ensures { Appends result found.old.items found.new.items (loans_found act.now tree.now) }
{
    let start = found.len();
    let facts = tree.facts();
    let numbers = tree.touched(act);
    'numbers: for k in 0..numbers.len() {
        let i = numbers.at(k);
        add_forbidden_if(found, start, tree.may(i), act, &facts[i as usize])?;
    }
    Ok(())
}
