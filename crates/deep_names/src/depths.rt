//! Deep names in a tree.
ghost use Rattle.std.specs.Prelude.{◌≡◌};
ghost use Rattle.deep_names.specs.Found.{earlier_of};
ghost use Rattle.deep_names.specs.Turns.{both_of, either_of, named_of, no_names, settled_of, unused_of};

use crate::found::earlier;
use spark_base::Pos;

/// The first names of a tree with too many selectors.
#[derive(Clone, Copy)]
pub(crate) struct Depths {
    /// Whether the tree has a call of a function of the program.
    pub(crate) calls: bool,
    /// At the points that come before the one that uses it.
    pub(crate) before: Option<Pos>,
    /// At these and at that one.
    pub(crate) all: Option<Pos>,
}

/// Those of a tree that has no name.
pub(crate) fn none_found() -> Depths
    ensures { result ≡ no_names }
{
    Depths {
        calls: false,
        before: None,
        all: None,
    }
}

/// Those of two parts.
pub(crate) fn both(a: Depths, b: Depths) -> Depths
    ensures { result ≡ both_of a b }
{
    Depths {
        calls: a.calls || b.calls,
        before: earlier(a.before, b.before),
        all: earlier(a.all, b.all),
    }
}

/// Those of a name, by its steps and its own.
pub(crate) fn named(steps: Depths, own: Option<Pos>) -> Depths
    ensures { result ≡ named_of steps own }
{
    Depths {
        calls: steps.calls,
        before: steps.before,
        all: earlier(steps.all, own),
    }
}

/// Those of what is evaluated at points of its own.
pub(crate) fn settled(found: Option<Pos>) -> Depths
    ensures { result ≡ settled_of found }
{
    Depths {
        calls: true,
        before: found,
        all: found,
    }
}

/// Those of a short circuit. With a call on the right, both operands are evaluated before.
pub(crate) fn either(a: Depths, b: Depths) -> Depths
    ensures { result ≡ either_of a b }
{
    let parts = both(a, b);
    Depths {
        calls: parts.calls,
        before: if b.calls { parts.all } else { parts.before },
        all: parts.all,
    }
}

/// Those of what isn't evaluated where it stands.
pub(crate) fn unused(e: Depths) -> Depths
    ensures { result ≡ unused_of e }
{
    Depths {
        calls: e.calls,
        before: e.before,
        all: e.before,
    }
}

/// Those at the point that uses a tree, and those before it.
pub(crate) fn joined(e: Depths) -> Option<Pos>
    ensures { result ≡ earlier_of e.before e.all }
{
    earlier(e.before, e.all)
}
