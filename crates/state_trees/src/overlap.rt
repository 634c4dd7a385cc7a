//! Facts that overlap a name.
ghost use Rattle.std.specs.Prelude.{◌≡◌, ◌&&◌, length};
ghost use Rattle.std.specs.List.{list_any};
ghost use Rattle.fact_questions.specs.Questions as questions;
ghost use Rattle.state_trees.specs.FactStates.{marked};

use fact_questions::is_overlapping;
use place_names::{Fact, PlaceName, State};

/// Whether a fact is marked, a report would name it by this word, and it overlaps a name.
fn counts(fact: &Fact, mark: bool, name: &PlaceName, state: State) -> bool
    ensures { result ≡ (mark && questions.is_overlapping name.now state fact.now) }
{
    mark && is_overlapping(fact, name, state)
}

/// Whether one of the marked facts has this word and overlaps a name.
pub(crate) fn any_marked(facts: &[Fact], marks: &[bool], name: &PlaceName, state: State) -> bool
    requires { length facts.now ≡ length marks.now }
    ensures { result ≡ list_any (questions.is_overlapping name.now state) (marked facts.now marks.now) }
{
    facts
        .iter()
        .zip(marks)
        .any(|(fact, mark)| counts(fact, *mark, name, state))
}
