//! Steps from an object to a part of it.
ghost use Rattle.std.specs.Prelude.{◌≡◌};
ghost use Rattle.place_names.specs.Names.{agrees, begins, agree_along, has_elem};

/// One step from an object to a part of it (Ada 2012, 4.1, 4.1.1 and 4.1.3).
#[derive(Clone, Copy, Default, PartialEq, Eq, PartialOrd, Ord)]
pub enum Sel {
    /// The component with this number, from 0, in the order of declaration.
    Field(u32),
    /// Some element of an array. No rule tells which one.
    Elem,
    /// The object that an access value designates.
    #[default]
    Deref,
}

/// Whether two selectors may lead to one place, as only equal ones do (`docs/RULES.md`, "Names of
/// places").
pub fn agrees(a: Sel, b: Sel) -> bool
    ensures { result ≡ agrees a b }
{
    a == b
}

/// Whether the first list is the beginning of the second.
pub(crate) fn begins(front: &[Sel], whole: &[Sel]) -> bool
    ensures { result ≡ begins front.now whole.now }
{
    whole.starts_with(front)
}

/// Whether two lists agree as far as the shorter one goes.
pub(crate) fn agree_along(a: &[Sel], b: &[Sel]) -> bool
    ensures { result ≡ agree_along a.now b.now }
{
    a.iter().zip(b).all(|(s, t)| agrees(*s, *t))
}

/// Whether a list has an `Elem`.
pub(crate) fn has_elem(sels: &[Sel]) -> bool
    ensures { result ≡ has_elem sels.now }
{
    sels.iter().any(|s| *s == Sel::Elem)
}
