//! What types and declarations are, by their numbers.
ghost use Rattle.std.specs.Prelude.{◌≡◌};
ghost use Rattle.type_definitions.specs.Types.{meant_type, base, fields, full, is_same, is_untyped, is_bounded, info};
ghost use Rattle.type_definitions.specs.Entries.{entry_of, is_type, type_of_mark, marked, denotes_type, complete_at, is_complete};
ghost use Rattle.type_definitions.specs.Faults.{is_before};
ghost use Rattle.type_definitions.specs.Names.{is_within, seen};
ghost use Rattle.type_definitions.specs.Expressions.{profile_of, result_type, is_traversal};
ghost use Rattle.expression_types.specs.Here.{here};

use crate::reader::Reader;
use crate::views::{components_of, is_anonymous, same_bounds, view_of};
use resolved_tree::Mark;
use spark_base::Pos;
use type_definitions::{Component, Entry, FormalInfo, Shape, View};

/// The declaration of Integer.
pub const INTEGER: u32 = 0;
/// The declaration of Boolean.
pub const BOOLEAN: u32 = 3;
/// What stands for a type where a mark denotes none: a declaration that isn't one.
pub const UNTYPED: u32 = 4;

impl<'p> Reader<'p> {
    /// The type that is meant by a subtype without a constraint.
    pub fn meant_type(&self, t: u32) -> u32
        ensures { result ≡ meant_type self.now.known.now.table t }
    {
        match self.known.table.as_slice().get(t as usize) {
            Some(info) => match &info.shape {
                Shape::Same { of } => *of,
                _ => t,
            },
            None => t,
        }
    }

    /// The type that a type is a subtype of (Ada 2012, 3.2.2).
    pub fn base(&self, t: u32) -> u32
        ensures { result ≡ base self.now.known.now.table t }
    {
        match self.known.table.as_slice().get(t as usize) {
            Some(info) => info.base,
            None => 0,
        }
    }

    /// The full view of a type.
    pub fn full(&self, t: u32) -> View
        ensures { result ≡ full self.now.known.now.table t }
    {
        match self.known.table.as_slice().get(self.meant_type(t) as usize) {
            Some(info) => view_of(&info.shape),
            None => View::Fields,
        }
    }

    /// The components of a record; none of another type.
    pub fn fields(&self, t: u32) -> &'p [Component]
        ensures { result.now ≡ fields self.now.known.now.table t }
    {
        match self.known.table.as_slice().get(self.meant_type(t) as usize) {
            Some(info) => components_of(&info.shape),
            None => &[],
        }
    }

    /// Whether a type isn't known: it stands where a mark denotes none, or is a subtype of that.
    pub fn is_untyped(&self, t: u32) -> bool
        ensures { result ≡ is_untyped self.now.known.now.table t }
    {
        self.base(t) == UNTYPED
    }

    /// Whether the bounds in the definition of a type are known, where it has some.
    pub fn is_bounded(&self, t: u32) -> bool
        ensures { result ≡ is_bounded self.now.known.now.table t }
    {
        match self.known.table.as_slice().get(self.meant_type(t) as usize) {
            Some(info) => info.bounded,
            None => true,
        }
    }

    /// Whether two types are one type with the same bounds, or one of them isn't known.
    pub fn is_same(&self, s: u32, t: u32) -> bool
        ensures { result ≡ is_same self.now.known.now.table s t }
    {
        self.is_untyped(s)
            || self.is_untyped(t)
            || (self.base(s) == self.base(t) && same_bounds(self.full(s), self.full(t)))
    }

    /// The definition of a type as it is seen here: that of a private type is seen in the private
    /// part and the body of its package alone (Ada 2012, 7.3).
    #[tactic(auto, unfolding(type_definitions::specs::Names::seen))]
    pub fn seen(&self, t: u32) -> View
        ensures { result ≡ seen (here self.now) t }
    {
        match self.known.table.as_slice().get(self.meant_type(t) as usize) {
            Some(info) if self.is_within(info.seen_in) => view_of(&info.shape),
            Some(_) | None => View::Hidden,
        }
    }

    /// Whether this is within the package that has to be around.
    fn is_within(&self, home: Option<u32>) -> bool
        ensures { result ≡ is_within home self.now.within }
    {
        match (home, self.within) {
            (None, _) => true,
            (Some(_), None) => false,
            (Some(p), Some(q)) => p == q,
        }
    }

    /// Whether a type is complete at a position (Ada 2012, 3.10.1).
    #[tactic(auto, unfolding(type_definitions::specs::Entries::is_complete))]
    pub fn is_complete(&self, t: u32, at: Pos) -> bool
        ensures { result ≡ is_complete self.now.known.now t at }
    {
        match self.known.table.as_slice().get(t as usize) {
            Some(info) => match info.completed {
                Some(end) => is_before(end, at),
                None => true,
            },
            None => true,
        }
    }

    /// Whether a mark denotes a type.
    pub fn denotes_type(&self, mark: Option<u32>) -> bool
        ensures { result ≡ denotes_type self.now.known.now mark }
    {
        match mark {
            Some(d) => self.is_type(d),
            None => false,
        }
    }

    /// Whether a declaration is that of a type.
    pub fn is_type(&self, d: u32) -> bool
        ensures { result ≡ is_type (entry_of self.now.known.now d) }
    {
        matches!(
            self.known.entries.as_slice().get(d as usize),
            Some(Entry::Type)
        )
    }

    /// The type that a mark denotes, or none that is known.
    pub fn type_of_mark(&self, mark: Option<u32>) -> u32
        ensures { result ≡ type_of_mark self.now.known.now mark }
    {
        match mark {
            Some(d) if self.is_type(d) => d,
            _ => UNTYPED,
        }
    }

    /// The same, of a mark where it stands.
    pub fn marked(&self, mark: Mark) -> u32
        ensures { result ≡ marked self.now.known.now mark }
    {
        self.type_of_mark(mark.decl)
    }

    /// The formals of a subprogram; none of another declaration.
    pub fn formals(&self, f: u32) -> &'p [FormalInfo]
        ensures { result.now ≡ (profile_of (entry_of self.now.known.now f)).formals }
    {
        match self.known.entries.as_slice().get(f as usize) {
            Some(entry) => formals_of(entry),
            None => &[],
        }
    }

    /// The type of a function's result; none of another declaration.
    pub fn result(&self, f: u32) -> Option<u32>
        ensures { result ≡ (profile_of (entry_of self.now.known.now f)).result }
    {
        match self.known.entries.as_slice().get(f as usize) {
            Some(Entry::Subprogram { profile }) => profile.result,
            _ => None,
        }
    }

    /// The type of a function's result, or Integer.
    pub fn result_type(&self, f: u32) -> u32
        ensures { result ≡ result_type (profile_of (entry_of self.now.known.now f)).result }
    {
        match self.result(f) {
            Some(t) => t,
            None => INTEGER,
        }
    }

    /// Whether a declaration is a traversal function: its result is of an anonymous access type.
    pub fn is_traversal(&self, f: u32) -> bool
        ensures { result ≡ is_traversal self.now.known.now (profile_of (entry_of self.now.known.now f)) }
    {
        match self.result(f) {
            Some(t) => is_anonymous(self.full(t)),
            None => false,
        }
    }
}

/// The formals of what a declaration is: none where it is no subprogram.
pub fn formals_of(entry: &Entry) -> &[FormalInfo]
    ensures { result.now ≡ (profile_of entry.now).formals }
{
    match entry {
        Entry::Subprogram { profile } => profile.formals.as_slice(),
        _ => &[],
    }
}

/// Whether one position is before another.
pub fn is_before(p: Pos, q: Pos) -> bool
    ensures { result ≡ is_before p q }
{
    p.file < q.file
        || (p.file == q.file && (p.line < q.line || (p.line == q.line && p.column < q.column)))
}
