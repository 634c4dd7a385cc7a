//! What an act does to one fact.
ghost use Rattle.std.specs.Prelude.{◌≡◌, ◌<◌, ◌++◌, Bool, true, false, length, unwrap_or, IfSome, IfNone};
ghost use Rattle.std.specs.List.{list_any};
ghost use Rattle.std.specs.Cmp.Lexicographic.{pointwise};
ghost use Rattle.place_names.specs.declared.act.Act.TheVariants as acts;
ghost use Rattle.place_names.specs.declared.fact.Fact.TheVariants as facts;
ghost use Rattle.place_names.specs.Names as names;
ghost use Rattle.place_names.specs.Facts as effects;
ghost use Rattle.state_trees.specs.FactStates.{LeavesAll};

use place_names::{Act, Fact, Loan, Mode, PlaceName, PlaceTail, Sel};

/// Whether a fact is that a place was moved which a name covers.
fn is_moved_under(name: &PlaceName, fact: &Fact) -> bool
    ensures { result ≡ effects.is_moved_under name.now fact.now }
{
    match fact {
        Fact::Moved(moved) => name.covers(moved),
        Fact::Lent { .. } => false,
    }
}

/// Whether an object holds a loan, or the name of what was moved is rooted in it.
fn belongs_to(object: u32, fact: &Fact) -> bool
    ensures { result ≡ effects.belongs_to object fact.now }
{
    match fact {
        Fact::Moved(moved) => moved.root() == object,
        Fact::Lent { holder, .. } => *holder == object,
    }
}

/// Whether a fact ends at an act.
fn removes(act: &Act, fact: &Fact) -> bool
    ensures { result ≡ effects.removes act.now fact.now }
{
    match act {
        Act::Write { name } | Act::Free { name } => is_moved_under(name, fact),
        Act::EndScope { object, .. } => belongs_to(*object, fact),
        Act::Actual { name, mode, .. } => match mode {
            Mode::Out => is_moved_under(name, fact),
            Mode::In | Mode::InOut => false,
        },
        Act::Read { .. }
        | Act::Look { .. }
        | Act::Move { .. }
        | Act::Borrow { .. }
        | Act::Observe { .. }
        | Act::Reborrow { .. }
        | Act::Return { .. }
        | Act::Global { .. }
        | Act::Give { .. } => false,
    }
}

/// Whether two lists of steps are the same.
fn is_same_steps(a: &[Sel], b: &[Sel]) -> bool
    ensures { result ≡ pointwise names.is_equal a.now b.now }
{
    a == b
}

/// The number of a part with these steps. The part with the number `first` is looked at before the
/// others.
fn part_with(parts: &[PlaceTail], first: usize, steps: &[Sel]) -> Option<usize>
    ensures some { IfSome result (λ i. (i < length parts.now) × (list_any (λ part. pointwise names.is_equal part steps.now) parts.now ≡ true)) }
    ensures none { IfNone result (list_any (λ part. pointwise names.is_equal part steps.now) parts.now ≡ false) }
{
    if first < parts.len() && is_same_steps(parts[first].sels(), steps) {
        return Some(first);
    }
    'parts: for i in 0..parts.len() {
        if is_same_steps(parts[i].sels(), steps) {
            return Some(i);
        }
    }
    None
}

/// Whether some steps are those of a part. The part with the number `next` is looked at before the
/// others, and where one is found, `next` becomes the number after it.
fn is_any_part(parts: &[PlaceTail], steps: &[Sel], next: &mut usize) -> bool
    ensures { result ≡ list_any (λ part. pointwise names.is_equal part steps.now) parts.now }
{
    match part_with(parts, *next, steps) {
        Some(i) => {
            *next = i + 1;
            true
        }
        None => false,
    }
}

/// Whether the third list is the first one followed by one of some parts. `next` is as above.
fn is_joined_part(front: &[Sel], parts: &[PlaceTail], whole: &[Sel], next: &mut usize) -> bool
    ensures { result ≡ list_any (λ part. pointwise names.is_equal (front.now ++ part) whole.now) parts.now }
{
    match whole.strip_prefix(front) {
        Some(rest) => is_any_part(parts, rest, next),
        None => false,
    }
}

/// Whether a name is that of one of some parts of a place.
fn is_part(name: &PlaceName, parts: &[PlaceTail], whole: &PlaceName, next: &mut usize) -> bool
    ensures { result ≡ list_any (λ part. names.is_same (names.extend name.now part) whole.now) parts.now }
{
    name.root() == whole.root() && is_joined_part(name.sels(), parts, whole.sels(), next)
}

/// Whether a fact is that one of some parts of a place was moved.
fn is_moved_part(name: &PlaceName, parts: &[PlaceTail], fact: &Fact, next: &mut usize) -> bool
    ensures { result ≡ effects.is_added (acts.Move name.now parts.now) fact.now }
{
    match fact {
        Fact::Moved(moved) => is_part(name, parts, moved, next),
        Fact::Lent { .. } => false,
    }
}

/// Whether two loans lend the same.
fn is_same_loan(a: Loan, b: Loan) -> bool
    ensures { result ≡ effects.is_same_loan a b }
{
    match (a, b) {
        (Loan::Borrowed, Loan::Borrowed) | (Loan::Observed, Loan::Observed) => true,
        (Loan::Borrowed, Loan::Observed) | (Loan::Observed, Loan::Borrowed) => false,
    }
}

/// Whether two names are the same.
fn is_same(a: &PlaceName, b: &PlaceName) -> bool
    ensures { result ≡ names.is_same a.now b.now }
{
    a == b
}

/// Whether a fact is this loan.
fn is_loan(kind: Loan, holder: u32, name: &PlaceName, fact: &Fact) -> bool
    ensures { result ≡ effects.is_same_fact (facts.Lent kind holder name.now) fact.now }
{
    match fact {
        Fact::Moved(_) => false,
        Fact::Lent {
            kind: lent,
            holder: by,
            name: of,
        } => is_same_loan(kind, *lent) && holder == *by && is_same(name, of),
    }
}

/// Whether an act adds a fact. Of the parts of a move, the one with the number `next` is looked at
/// before the others, and where one is found, `next` becomes the number after it.
fn is_added(act: &Act, fact: &Fact, next: &mut usize) -> bool
    ensures { result ≡ effects.is_added act.now fact.now }
{
    match act {
        Act::Move { name, parts } => is_moved_part(name, parts.as_slice(), fact, next),
        Act::Borrow { holder, name } => is_loan(Loan::Borrowed, *holder, name, fact),
        Act::Observe {
            holder,
            name,
            from_observer,
        } => !from_observer && is_loan(Loan::Observed, *holder, name, fact),
        Act::Read { .. }
        | Act::Look { .. }
        | Act::Write { .. }
        | Act::Reborrow { .. }
        | Act::EndScope { .. }
        | Act::Return { .. }
        | Act::Actual { .. }
        | Act::Global { .. }
        | Act::Free { .. }
        | Act::Give { .. } => false,
    }
}

/// Whether a fact holds after an act: none where it does so if it held before. `next` is the part
/// of a move that is looked at first, and then the one after the part that was found.
pub(crate) fn settled(act: &Act, fact: &Fact, next: &mut usize) -> Option<bool>
    ensures { (held : Bool) → effects.holds_behind act.now fact.now held ≡ unwrap_or result held }
{
    if is_added(act, fact, next) {
        Some(true)
    } else if removes(act, fact) {
        Some(false)
    } else {
        None
    }
}

/// Whether there are facts that an act changes.
pub(crate) fn changes(act: &Act) -> bool
    ensures { result ≡ false → LeavesAll act.now }
{
    match act {
        Act::Write { .. }
        | Act::Move { .. }
        | Act::Borrow { .. }
        | Act::EndScope { .. }
        | Act::Free { .. } => true,
        Act::Observe { from_observer, .. } => !from_observer,
        Act::Actual { mode, .. } => match mode {
            Mode::Out => true,
            Mode::In | Mode::InOut => false,
        },
        Act::Read { .. }
        | Act::Look { .. }
        | Act::Reborrow { .. }
        | Act::Return { .. }
        | Act::Global { .. }
        | Act::Give { .. } => false,
    }
}
