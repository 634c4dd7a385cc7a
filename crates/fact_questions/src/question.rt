//! What is asked of one fact.
ghost use Rattle.std.specs.Prelude.{◌≡◌, ◌==◌};
ghost use Rattle.std.specs.List.{list_any};
ghost use Rattle.place_names.specs.Facts as facts;
ghost use Rattle.place_names.specs.Rules as rules;
ghost use Rattle.fact_questions.specs.Questions as questions;

use place_names::{Fact, Loan, PlaceName, State};

/// The word that a report names a fact by.
pub fn word(fact: &Fact) -> State
    ensures { result ≡ rules.word fact.now }
{
    match fact {
        Fact::Moved(_) => State::Moved,
        Fact::Lent { kind, .. } => match kind {
            Loan::Borrowed => State::Borrowed,
            Loan::Observed => State::Observed,
        },
    }
}

/// The name of the place that a fact speaks of.
pub fn place(fact: &Fact) -> &PlaceName
    ensures { result.now ≡ facts.place fact.now }
{
    match fact {
        Fact::Moved(name) | Fact::Lent { name, .. } => name,
    }
}

/// Whether two words are the same.
pub(crate) fn is_same_word(a: State, b: State) -> bool
    ensures { result ≡ questions.is_same_word a b }
{
    a == b
}

/// Whether a report names a fact by this word, and its place overlaps a name.
pub fn is_overlapping(fact: &Fact, name: &PlaceName, state: State) -> bool
    ensures { result ≡ questions.is_overlapping name.now state fact.now }
{
    is_same_word(word(fact), state) && place(fact).overlaps(name)
}

/// Whether a place was moved or is lent to a borrower, and overlaps a name.
pub fn is_moved_or_borrowed(fact: &Fact, name: &PlaceName) -> bool
    ensures { result ≡ rules.moved_or_borrowed name.now fact.now }
{
    match fact {
        Fact::Moved(of) => of.overlaps(name),
        Fact::Lent { kind, name: of, .. } => match kind {
            Loan::Borrowed => of.overlaps(name),
            Loan::Observed => false,
        },
    }
}

/// Whether a place was moved or is lent, and overlaps a name.
pub fn is_moved_or_lent(fact: &Fact, name: &PlaceName) -> bool
    ensures { result ≡ rules.moved_or_lent name.now fact.now }
{
    place(fact).overlaps(name)
}

/// Whether a place was moved, and is one of some objects or a part of one.
pub fn is_moved_in(fact: &Fact, roots: &[u32]) -> bool
    ensures { result ≡ rules.moved_in roots.now fact.now }
{
    match fact {
        Fact::Moved(of) => has_root(roots, of.root()),
        Fact::Lent { .. } => false,
    }
}

/// Whether a number is one of a list.
fn has_root(roots: &[u32], root: u32) -> bool
    ensures { result ≡ list_any (λ x. x == root) roots.now }
{
    roots.iter().any(|x| *x == root)
}
