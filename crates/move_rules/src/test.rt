//! Tests of an act by what may hold before it.
ghost use Rattle.std.specs.Prelude.{◌≡◌, ◌≤◌, None, vec_len, if◌then◌else◌, OnOk, OnErr};
ghost use Rattle.fact_questions.specs.Findings.{as_option, with_found, Appends};
ghost use Rattle.move_rules.specs.MoveRules.{moves_forbid, moves_found};

use crate::rule::{breaks_actual, breaks_free, breaks_look, breaks_write};
use fact_questions::{Found, add_if, is_moved_in, is_moved_or_borrowed, is_moved_or_lent, place};
use place_names::{Act, Fact, Rule};
use state_trees::Tree;
use std::alloc::AllocError;

/// Adds what a fact forbids at an act by these rules.
fn add_forbidden(
    found: &mut Vec<Found>,
    start: usize,
    act: &Act,
    fact: &Fact,
) -> Result<(), AllocError>
    requires { start ≤ vec_len found.old }
    ensures ok { OnOk result (found.new.items
        ≡ with_found start found.old.items (as_option (moves_forbid act.now fact.now))) }
    ensures err { OnErr result (found.new.items ≡ found.old.items) }
{
    match act {
        Act::Read { name } => {
            let is_broken = is_moved_or_borrowed(fact, name);
            add_if(found, start, is_broken, Rule::O1, name, fact)
        }
        Act::Look { name } => {
            add_if(found, start, breaks_look(fact, name), Rule::O2, name, fact)
        }
        Act::Write { name } => {
            add_if(found, start, breaks_write(fact, name), Rule::O3, name, fact)
        }
        Act::Move { name, .. } => {
            let is_broken = is_moved_or_lent(fact, name);
            add_if(found, start, is_broken, Rule::O4, name, fact)
        }
        Act::Return { roots } => {
            let is_broken = is_moved_in(fact, roots.as_slice());
            add_if(found, start, is_broken, Rule::O9, place(fact), fact)
        }
        Act::Actual {
            name,
            mode,
            owning,
            ..
        } => {
            let is_broken = breaks_actual(fact, name, *mode, *owning);
            add_if(found, start, is_broken, Rule::O10, name, fact)
        }
        Act::Free { name } => {
            add_if(found, start, breaks_free(fact, name), Rule::O14, name, fact)
        }
        Act::Borrow { .. }
        | Act::Observe { .. }
        | Act::Reborrow { .. }
        | Act::EndScope { .. }
        | Act::Global { .. }
        | Act::Give { .. } => Ok(()),
    }
}

/// The same, where the fact may hold.
fn add_forbidden_if(
    found: &mut Vec<Found>,
    start: usize,
    may: bool,
    act: &Act,
    fact: &Fact,
) -> Result<(), AllocError>
    requires { start ≤ vec_len found.old }
    ensures ok { OnOk result (found.new.items
        ≡ with_found start found.old.items (as_option (if may then moves_forbid act.now fact.now else None))) }
    ensures err { OnErr result (found.new.items ≡ found.old.items) }
{
    if !may {
        return Ok(());
    }
    add_forbidden(found, start, act, fact)?;
    Ok(())
}

/// Appends what the facts that may hold forbid at an act by these rules, in the order of the facts
/// and without repeats. Out of memory, the list has a prefix of that after what it held.
pub fn test_moves(tree: &Tree<'_>, act: &Act, found: &mut Vec<Found>) -> Result<(), AllocError>
    ensures { Appends result found.old.items found.new.items (moves_found act.now tree.now) }
{
    let start = found.len();
    let facts = tree.facts();
    let numbers = tree.touched(act);
    'numbers: for k in 0..numbers.len() {
        let i = numbers.at(k);
        add_forbidden_if(found, start, tree.may(i), act, &facts[i as usize])?;
    }
    Ok(())
}
