//! Whether a fact breaks a rule.
ghost use Rattle.std.specs.Prelude.{◌≡◌, ◌&&◌, ◌||◌, Bool};
ghost use Rattle.place_names.specs.declared.act.Act.TheVariants as acts;
ghost use Rattle.place_names.specs.declared.act.Mode.TheVariants.{InOut};
ghost use Rattle.place_names.specs.declared.rule.Rule.TheVariants as rule;
ghost use Rattle.place_names.specs.Names as names;
ghost use Rattle.place_names.specs.Rules as rules;
ghost use Rattle.move_rules.specs.MoveRules.{moves_forbid};

use fact_questions::{is_moved_or_borrowed, is_moved_or_lent, place};
use place_names::{Fact, Loan, Mode, PlaceName};

/// One and the other.
fn both(a: bool, b: bool) -> bool
    ensures { result ≡ (a && b) }
{
    a && b
}

/// One or the other.
fn either(a: bool, b: bool) -> bool
    ensures { result ≡ (a || b) }
{
    a || b
}

/// Whether a name may be that of a place, or of one that the place is reached through.
fn leads_to(name: &PlaceName, place: &PlaceName) -> bool
    ensures { result ≡ names.leads_to name.now place.now }
{
    let is_as_short = name.sels().len() <= place.sels().len();
    both(name.overlaps(place), is_as_short)
}

/// Whether a place was moved, and leads to a name.
fn is_moved_above(fact: &Fact, name: &PlaceName) -> bool
    ensures { result ≡ rules.moved_above name.now fact.now }
{
    match fact {
        Fact::Moved(of) => leads_to(of, name),
        Fact::Lent { .. } => false,
    }
}

/// Whether a place is lent to a borrower, and leads to a name.
fn is_borrowed_above(fact: &Fact, name: &PlaceName) -> bool
    ensures { result ≡ rules.borrowed_above name.now fact.now }
{
    match fact {
        Fact::Moved(_) => false,
        Fact::Lent { kind, name: of, .. } => match kind {
            Loan::Borrowed => leads_to(of, name),
            Loan::Observed => false,
        },
    }
}

/// Whether a place is lent, and overlaps a name.
fn is_lent(fact: &Fact, name: &PlaceName) -> bool
    ensures { result ≡ rules.lent name.now fact.now }
{
    match fact {
        Fact::Moved(_) => false,
        Fact::Lent { name: of, .. } => of.overlaps(name),
    }
}

/// A comparison with `null`.
pub(crate) fn breaks_look(fact: &Fact, name: &PlaceName) -> bool
    ensures { result ≡ rules.breaks_O2 name.now fact.now }
{
    is_moved_above(fact, name) || is_borrowed_above(fact, name)
}

/// A write.
pub(crate) fn breaks_write(fact: &Fact, name: &PlaceName) -> bool
    ensures { result ≡ rules.breaks_O3 name.now fact.now }
{
    let is_shorter = place(fact).sels().len() < name.sels().len();
    let is_above = both(breaks_look(fact, name), is_shorter);
    either(is_above, is_lent(fact, name))
}

/// An actual of mode `in out`, by whether its type is owning.
fn breaks_in_out(fact: &Fact, name: &PlaceName, owning: bool) -> bool
    ensures { (access : Bool) → result ≡ rules.breaks_O10 name.now InOut owning access fact.now }
{
    if owning {
        is_moved_or_lent(fact, name)
    } else {
        is_moved_or_borrowed(fact, name) || breaks_write(fact, name)
    }
}

/// An actual of mode `in out` or `out`. One of mode `in` isn't looked at here.
pub(crate) fn breaks_actual(fact: &Fact, name: &PlaceName, mode: Mode, owning: bool) -> bool
    ensures { (access : Bool) → moves_forbid (acts.Actual name.now mode owning access) fact.now
        ≡ rules.forbidden_if result rule.O10 name.now fact.now }
{
    match mode {
        Mode::In => false,
        Mode::InOut => breaks_in_out(fact, name, owning),
        Mode::Out => breaks_write(fact, name),
    }
}

/// A deallocation.
pub(crate) fn breaks_free(fact: &Fact, name: &PlaceName) -> bool
    ensures { result ≡ rules.breaks_O14 name.now fact.now }
{
    is_moved_above(fact, name) || is_lent(fact, name)
}
