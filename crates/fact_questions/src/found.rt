//! What facts forbid at an act, as a list.
ghost use Rattle.std.specs.Prelude.{◌≡◌, ◌==◌, ◌≤◌, vec_len, Some, OnOk, OnErr};
ghost use Rattle.std.specs.List.{list_any};
ghost use Rattle.place_names.specs.Names as names;
ghost use Rattle.place_names.specs.Rules.{forbidden_if};
ghost use Rattle.place_names.specs.Reports.{rule_rank};
ghost use Rattle.fact_questions.specs.Findings.{as_forbidden, as_option, is_same_forbidden, with_found};

use crate::question::{is_same_word, word};
use place_names::{Fact, PlaceName, Rule, State};
use std::alloc::AllocError;

/// A rule that a fact breaks at an act, with the name and the word of its report (`docs/RULES.md`,
/// "Reports").
#[derive(Drop)]
pub struct Found {
    /// The rule.
    pub rule: Rule,
    /// The name.
    pub name: PlaceName,
    /// The word.
    pub state: State,
}

/// Whether two rules are the same.
fn is_same_rule(a: Rule, b: Rule) -> bool
    ensures { result ≡ (rule_rank a == rule_rank b) }
{
    a == b
}

/// Whether two names are the same.
fn is_same_name(a: &PlaceName, b: &PlaceName) -> bool
    ensures { result ≡ names.is_same a.now b.now }
{
    a == b
}

/// Whether two are the same.
fn is_same(a: &Found, b: &Found) -> bool
    ensures { result ≡ is_same_forbidden (as_forbidden a.now) (as_forbidden b.now) }
{
    is_same_rule(a.rule, b.rule) && is_same_name(&a.name, &b.name) && is_same_word(a.state, b.state)
}

/// Whether one is among some.
fn has(found: &[Found], more: &Found) -> bool
    ensures { result ≡ list_any (λ y. is_same_forbidden (as_forbidden y) (as_forbidden more.now)) found.now }
{
    found.iter().any(|one| is_same(one, more))
}

/// Adds one at the end, unless it is among those from the place `start` on. Out of memory, the list
/// stays as it was.
fn add_found(found: &mut Vec<Found>, start: usize, more: Found) -> Result<(), AllocError>
    requires { start ≤ vec_len found.old }
    ensures ok { OnOk result (found.new.items ≡ with_found start found.old.items (Some more)) }
    ensures err { OnErr result (found.new.items ≡ found.old.items) }
{
    if has(&found[start..], &more) {
        return Ok(());
    }
    found.push(more)?;
    Ok(())
}

/// Adds what a fact forbids, where a test of it has succeeded: the rule, the name and the fact's
/// word. Nothing is made where it hasn't. Out of memory, the list stays as it was.
pub fn add_if(
    found: &mut Vec<Found>,
    start: usize,
    test: bool,
    rule: Rule,
    name: &PlaceName,
    fact: &Fact,
) -> Result<(), AllocError>
    requires { start ≤ vec_len found.old }
    ensures ok { OnOk result (found.new.items ≡ with_found start found.old.items (as_option (forbidden_if test rule name.now fact.now))) }
    ensures err { OnErr result (found.new.items ≡ found.old.items) }
{
    if !test {
        return Ok(());
    }
    let more = Found {
        rule,
        name: name.clone()?,
        state: word(fact),
    };
    add_found(found, start, more)?;
    Ok(())
}
