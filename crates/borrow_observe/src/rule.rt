//! Whether a fact breaks a rule.
ghost use Rattle.std.specs.Prelude.{◌≡◌};
ghost use Rattle.place_names.specs.declared.act.Act.TheVariants as acts;
ghost use Rattle.place_names.specs.declared.act.Mode.TheVariants.{In};
ghost use Rattle.place_names.specs.declared.rule.Rule.TheVariants as rule;
ghost use Rattle.place_names.specs.Rules as rules;
ghost use Rattle.borrow_observe.specs.LoanRules.{loans_forbid};

use fact_questions::{is_moved_in, is_moved_or_borrowed, is_moved_or_lent};
use place_names::{Fact, Mode, PlaceName};

/// A reborrow by a borrower.
pub(crate) fn breaks_reborrow(fact: &Fact, borrower: u32) -> bool
    ensures { result ≡ rules.breaks_O7 borrower fact.now }
{
    is_moved_or_lent(fact, &PlaceName::new(borrower))
}

/// The end of an object's scope.
pub(crate) fn breaks_scope_end(fact: &Fact, object: u32, borrower: bool) -> bool
    ensures { result ≡ rules.breaks_O8 object borrower fact.now }
{
    borrower && is_moved_in(fact, &[object])
}

/// An actual of mode `in`.
fn breaks_in(fact: &Fact, name: &PlaceName, owning: bool, access: bool) -> bool
    ensures { result ≡ rules.breaks_O10 name.now In owning access fact.now }
{
    if access {
        is_moved_or_lent(fact, name)
    } else {
        owning && is_moved_or_borrowed(fact, name)
    }
}

/// An actual of mode `in`, and of no other one, as those aren't looked at here.
pub(crate) fn breaks_actual(
    fact: &Fact,
    name: &PlaceName,
    mode: Mode,
    owning: bool,
    access: bool,
) -> bool
    ensures { loans_forbid (acts.Actual name.now mode owning access) fact.now
        ≡ rules.forbidden_if result rule.O10 name.now fact.now }
{
    match mode {
        Mode::In => breaks_in(fact, name, owning, access),
        Mode::Out | Mode::InOut => false,
    }
}

/// A call whose callee uses a package object.
pub(crate) fn breaks_use(fact: &Fact, object: u32, written: bool) -> bool
    ensures { result ≡ rules.breaks_O11 object written fact.now }
{
    let name = PlaceName::new(object);
    if written {
        is_moved_or_lent(fact, &name)
    } else {
        is_moved_or_borrowed(fact, &name)
    }
}
