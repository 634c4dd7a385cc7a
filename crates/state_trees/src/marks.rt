//! Lists of marks, one for each fact of a list.
ghost use Rattle.std.specs.Prelude.{◌≡◌, ◌↔◌, ◌||◌, ◌&&◌, not, length, vec_len, IsTrue};
ghost use Rattle.state_trees.specs.Concerns.{HasTouched};
ghost use Rattle.state_trees.specs.FactStates.{may_behind, lacks_behind, either_mark};

use crate::effect::settled;
use crate::numbers::Numbers;
use place_names::{Act, Fact};

/// What an act does to the marks of what may hold, and to those of what may not hold. Only facts
/// with these numbers are looked at. Those of a moved name mostly stand in the order of its parts,
/// so each part is looked for after the one found last.
pub(crate) fn pass(
    may: &mut Vec<bool>,
    lacks: &mut Vec<bool>,
    facts: &[Fact],
    act: &Act,
    numbers: &Numbers<'_>,
)
    requires may { vec_len may.old ≡ length facts.now }
    requires lacks { vec_len lacks.old ≡ length facts.now }
    requires touched { HasTouched act.now facts.now numbers.now }
    ensures may { may.new.items ≡ may_behind act.now facts.now may.old.items }
    ensures lacks { lacks.new.items ≡ lacks_behind act.now facts.now lacks.old.items }
{
    let mut next_part = 0;
    'numbers: for k in 0..numbers.len() {
        let i = numbers.at(k) as usize;
        if let Some(holds) = settled(act, &facts[i], &mut next_part) {
            may[i] = holds;
            lacks[i] = !holds;
        }
    }
}

/// Whether a mark is there, or isn't wanted.
fn is_there(held: bool, more: bool) -> bool
    ensures { result ≡ (held || not more) }
{
    held || !more
}

/// One and the other.
fn both(a: bool, b: bool) -> bool
    ensures { result ≡ (a && b) }
{
    a && b
}

/// Whether each mark of the second list is in the first one. It goes on after a missing one, so
/// that many marks are compared at a time.
pub(crate) fn has_all(mine: &[bool], other: &[bool]) -> bool
    requires { length mine.now ≡ length other.now }
    ensures { IsTrue result ↔ (either_mark mine.now other.now ≡ mine.now) }
{
    let mut all = true;
    'marks: for i in 0..mine.len() {
        let (held, more) = (mine[i], other[i]);
        all = both(all, is_there(held, more));
    }
    all
}

/// One or the other.
fn either(a: bool, b: bool) -> bool
    ensures { result ≡ (a || b) }
{
    a || b
}

/// Takes over the marks of another list, of a slice.
fn raise_each(mine: &mut [bool], other: &[bool])
    requires { length mine.old ≡ length other.now }
    ensures { mine.new ≡ either_mark mine.old other.now }
{
    'marks: for i in 0..mine.len() {
        let (held, more) = (mine[i], other[i]);
        mine[i] = either(held, more);
    }
}

/// Takes over the marks of another list.
pub(crate) fn raise(mine: &mut Vec<bool>, other: &[bool])
    requires { vec_len mine.old ≡ length other.now }
    ensures { mine.new.items ≡ either_mark mine.old.items other.now }
{
    raise_each(mine.as_mut_slice(), other);
}

/// Whether two lists have the same marks.
pub(crate) fn is_same(mine: &[bool], other: &[bool]) -> bool
    ensures { IsTrue result ↔ (mine.now ≡ other.now) }
{
    mine == other
}
