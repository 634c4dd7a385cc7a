//! The sentences on an argument at its place.
ghost use Rattle.std.specs.Prelude.{◌≡◌, ◌<◌, length};
ghost use Rattle.resolved_tree.specs.Nodes.{tree_at};
ghost use Rattle.type_definitions.specs.Faults.{noted};
ghost use Rattle.type_definitions.specs.Expressions.{around_variable, traversed_fits, traversed_value, traversed_name, traversed_other, traversed_anonymous, is_object_name, around_traversed, formal, around_formal, around_role};
ghost use Rattle.expression_rules.specs.Around.{context};

use crate::checker::Checker;
use ada_tree::Word;
use expression_types::{is_access, is_anonymous, is_object};
use place_names::Mode;
use resolved_tree::Node;
use spark_base::Pos;
use type_definitions::{Fault, Own, Reading, Role, Where};
use type_settled::demand;

impl<'p> Checker<'p> {
    /// With the faults around an expression where a variable is demanded.
    #[tactic(auto, using(crate::proofs::Noted::noted_append))]
    pub fn around_variable(&self, found: Option<Fault>, want: u32, e: usize) -> Option<Fault>
        requires { e < length self.now.rows.now.0 }
        ensures { result ≡ noted found (around_variable (context self.now) want (tree_at self.now.rows.now e)) }
    {
        let reader = self.reader();
        match self.rows.node(e) {
            Node::Named { pos, decl, rest } => {
                let reading = reader.reading_of(*decl, *rest);
                let found = demand(found, 1, *pos, reader.is_of(want, reader.own_of(reading)));
                demand(found, 2, *pos, reader.is_variable(*decl, reading))
            }
            _ => {
                let found = self.around(found, Where::Actual, want, e);
                demand(found, 2, reader.position(e), false)
            }
        }
    }

    /// Whether another expression than a name may be of an access type: `null` and an allocator
    /// have the anonymous one that their place demands.
    fn traversed_fits(&self, want: u32, e: usize) -> bool
        requires { e < length self.now.rows.now.0 }
        ensures { result ≡ traversed_fits (context self.now) want (tree_at self.now.rows.now e) }
    {
        let reader = self.reader();
        match self.rows.node(e) {
            Node::Null { .. } => true,
            Node::New { mark, .. } => reader.allocates(want, *mark),
            Node::Aggregate { .. } | Node::Others { .. } => false,
            Node::Parens { inner, .. } => self.traversed_fits(want, *inner),
            _ => reader.reading_access(reader.own_type(e)),
        }
    }

    /// With the faults of a name that is traversed and isn't that of an object.
    #[tactic(auto, using(crate::proofs::Noted::noted_append))]
    fn traversed_value(&self, found: Option<Fault>, pos: Pos, own: Own) -> Option<Fault>
        ensures { result ≡ noted found (traversed_value (context self.now) pos own) }
    {
        let found = demand(found, 1, pos, self.reader().reading_access(own));
        let found = demand(found, 5, pos, !self.own_owning(own));
        demand(found, 6, pos, false)
    }

    /// With the faults of a name that is traversed by a formal of an anonymous type.
    #[tactic(auto, using(crate::proofs::Noted::noted_append))]
    fn traversed_name(
        &self,
        found: Option<Fault>,
        want: u32,
        pos: Pos,
        reading: Reading,
    ) -> Option<Fault>
        ensures { result ≡ noted found (traversed_name (context self.now) want pos reading) }
    {
        let reader = self.reader();
        match reading {
            Reading::Off => found,
            Reading::Place { of } if reader.is_untyped(of) => found,
            Reading::Place { of } => {
                let found = demand(found, 1, pos, is_access(reader.seen(of)));
                demand(found, 6, pos, reader.traverses(want, of))
            }
            _ => self.traversed_value(found, pos, reader.own_of(reading)),
        }
    }

    /// With the faults of another expression than a name, which is traversed by such a formal.
    #[tactic(auto, using(crate::proofs::Noted::noted_append))]
    fn traversed_other(&self, found: Option<Fault>, want: u32, e: usize) -> Option<Fault>
        requires { e < length self.now.rows.now.0 }
        ensures { result ≡ noted found (traversed_other (context self.now) want (tree_at self.now.rows.now e)) }
    {
        let pos = self.reader().position(e);
        let found = demand(found, 1, pos, self.traversed_fits(want, e));
        demand(found, 6, pos, false)
    }

    /// With the faults around what is traversed by a formal of an anonymous type.
    #[tactic(auto, using(crate::proofs::Noted::noted_append))]
    fn traversed_anonymous(&self, found: Option<Fault>, want: u32, e: usize) -> Option<Fault>
        requires { e < length self.now.rows.now.0 }
        ensures { result ≡ noted found (traversed_anonymous (context self.now) want (tree_at self.now.rows.now e)) }
    {
        match self.rows.node(e) {
            Node::Named { pos, decl, rest } => {
                let reading = self.reader().reading_of(*decl, *rest);
                self.traversed_name(found, want, *pos, reading)
            }
            _ => self.traversed_other(found, want, e),
        }
    }

    /// Whether an expression is the name of an object.
    fn is_object_name(&self, e: usize) -> bool
        requires { e < length self.now.rows.now.0 }
        ensures { result ≡ is_object_name (context self.now) (tree_at self.now.rows.now e) }
    {
        match self.rows.node(e) {
            Node::Named { decl, rest, .. } => is_object(self.reader().reading_of(*decl, *rest)),
            _ => false,
        }
    }

    /// With the faults around the actual of the first formal of a traversal function: it is the
    /// name of an object of the formal's type, or where that is anonymous, of an access type with
    /// the formal's designated type.
    #[tactic(auto, using(crate::proofs::Noted::noted_append))]
    fn around_traversed(&self, found: Option<Fault>, want: u32, e: usize) -> Option<Fault>
        requires { e < length self.now.rows.now.0 }
        ensures { result ≡ noted found (around_traversed (context self.now) want (tree_at self.now.rows.now e)) }
    {
        let reader = self.reader();
        if is_anonymous(reader.full(want)) {
            self.traversed_anonymous(found, want, e)
        } else {
            let found = self.around(found, Where::Actual, want, e);
            demand(found, 6, reader.position(e), self.is_object_name(e))
        }
    }

    /// With the faults around an actual of a subprogram.
    fn around_formal(
        &self,
        found: Option<Fault>,
        f: u32,
        i: usize,
        name: &Option<Word>,
        e: usize,
    ) -> Option<Fault>
        requires { e < length self.now.rows.now.0 }
        ensures { result ≡ noted found (around_formal (context self.now) (formal (context self.now) f i name.now) (tree_at self.now.rows.now e)) }
    {
        let formal = self.reader().formal(f, i, name);
        if !matches!(formal.mode, Mode::In) {
            self.around_variable(found, formal.of, e)
        } else if formal.traversed {
            self.around_traversed(found, formal.of, e)
        } else {
            self.around(found, Where::Actual, formal.of, e)
        }
    }

    /// With the faults around an argument.
    pub fn around_role(
        &self,
        found: Option<Fault>,
        role: Role,
        i: usize,
        name: &Option<Word>,
        e: usize,
    ) -> Option<Fault>
        requires { e < length self.now.rows.now.0 }
        ensures { result ≡ noted found (around_role (context self.now) role i name.now (tree_at self.now.rows.now e)) }
    {
        match role {
            Role::Parts { of } => {
                self.around(found, Where::Stored, self.reader().part(of, i, name), e)
            }
            Role::Actuals { of } => self.around_formal(found, of, i, name, e),
            Role::Allocated { of } => self.around(found, Where::Stored, of, e),
            Role::Every { of } => self.around(found, Where::Elsewhere, of, e),
        }
    }
}
