//! The sentences on sources of objects of anonymous access types.
ghost use Rattle.std.specs.Prelude.{◌≡◌, ◌<◌, length};
ghost use Rattle.resolved_tree.specs.Nodes.{tree_at};
ghost use Rattle.type_definitions.specs.Faults.{noted};
ghost use Rattle.type_definitions.specs.Statements.{designates, source_fits, is_source, keeps_constant, source_name, other_source, source_faults, return_source, is_name, formal_source};
ghost use Rattle.expression_rules.specs.Around.{context};

use crate::checker::Checker;
use expression_types::{designated, is_access, to_constant};
use resolved_tree::Node;
use spark_base::Pos;
use type_definitions::{Fault, Own, Reading};
use type_settled::demand;

impl<'p> Checker<'p> {
    /// Whether a type by itself isn't known, or designates what an object of an anonymous access
    /// type designates.
    fn designates(&self, want: u32, own: Own) -> bool
        ensures { result ≡ designates (context self.now) want own }
    {
        let reader = self.reader();
        match own {
            Own::Unknown => true,
            Own::Of { of } => {
                reader.is_untyped(of)
                    || (is_access(reader.seen(of))
                        && reader.is_same(
                            designated(reader.full(of)),
                            designated(reader.full(want)),
                        ))
            }
            _ => false,
        }
    }

    /// Whether an expression may be assigned to an object of an anonymous access type, by its type.
    fn source_fits(&self, want: u32, e: usize) -> bool
        requires { e < length self.now.rows.now.0 }
        ensures { result ≡ source_fits (context self.now) want (tree_at self.now.rows.now e) }
    {
        let reader = self.reader();
        match self.rows.node(e) {
            Node::Null { .. } => true,
            Node::New { mark, .. } => reader.allocates(want, *mark),
            Node::Parens { inner, .. } => self.source_fits(want, *inner),
            _ => self.designates(want, reader.own_type(e)),
        }
    }

    /// Whether a name is that of an object or calls a traversal function.
    fn is_source(&self, reading: Reading) -> bool
        ensures { result ≡ is_source self.now.settled.now.known reading }
    {
        match reading {
            Reading::Place { .. } => true,
            _ => self.reader().is_traversal_call(reading),
        }
    }

    /// Whether a source is of no access-to-constant type where its place is access-to-variable.
    fn keeps_constant(&self, want: u32, own: Own) -> bool
        ensures { result ≡ keeps_constant self.now.settled.now.known want own }
    {
        let Own::Of { of } = own else {
            return true;
        };
        let reader = self.reader();
        to_constant(reader.full(want)) || !to_constant(reader.full(of))
    }

    /// With the faults of a source that is a name.
    #[tactic(auto, using(crate::proofs::Noted::noted_append))]
    fn source_name(
        &self,
        found: Option<Fault>,
        want: u32,
        pos: Pos,
        reading: Reading,
    ) -> Option<Fault>
        ensures { result ≡ noted found (source_name (context self.now) want pos reading) }
    {
        if matches!(reading, Reading::Off) {
            return found;
        }
        let own = self.reader().own_of(reading);
        let found = demand(found, 1, pos, self.designates(want, own));
        let stands = self.is_source(reading) && self.keeps_constant(want, own);
        demand(found, 6, pos, stands)
    }

    /// With the faults of another source than a name.
    #[tactic(auto, using(crate::proofs::Noted::noted_append))]
    fn other_source(&self, found: Option<Fault>, want: u32, e: usize) -> Option<Fault>
        requires { e < length self.now.rows.now.0 }
        ensures { result ≡ noted found (other_source (context self.now) want (tree_at self.now.rows.now e)) }
    {
        let pos = self.reader().position(e);
        let found = demand(found, 1, pos, self.source_fits(want, e));
        let found = demand(found, 6, pos, false);
        self.inside(found, false, want, e)
    }

    /// With the faults of the source of a borrower or observer: it names an access value with the
    /// designated type that is demanded, or calls a traversal function.
    #[tactic(auto, using(crate::proofs::Noted::noted_append))]
    pub fn source_faults(&self, found: Option<Fault>, want: u32, e: usize) -> Option<Fault>
        requires { e < length self.now.rows.now.0 }
        ensures { result ≡ noted found (source_faults (context self.now) want (tree_at self.now.rows.now e)) }
    {
        match self.rows.node(e) {
            Node::Named { pos, decl, rest } => {
                let reading = self.reader().reading_of(*decl, *rest);
                let found = self.source_name(found, want, *pos, reading);
                self.loose_faults(found, e)
            }
            _ => self.other_source(found, want, e),
        }
    }

    /// With the faults of what a traversal function returns.
    pub fn return_source(&self, found: Option<Fault>, want: u32, e: usize) -> Option<Fault>
        requires { e < length self.now.rows.now.0 }
        ensures { result ≡ noted found (return_source (context self.now) want (tree_at self.now.rows.now e)) }
    {
        match self.rows.node(e) {
            Node::Null { .. } => found,
            _ => self.source_faults(found, want, e),
        }
    }

    /// Whether an expression is a name.
    fn is_name(&self, e: usize) -> bool
        requires { e < length self.now.rows.now.0 }
        ensures { result ≡ is_name (tree_at self.now.rows.now e) }
    {
        matches!(self.rows.node(e), Node::Named { .. })
    }

    /// With the faults of what is assigned to a formal of an anonymous access type, which is no
    /// borrower or observer.
    #[tactic(auto, using(crate::proofs::Noted::noted_append))]
    pub fn formal_source(&self, found: Option<Fault>, want: u32, e: usize) -> Option<Fault>
        requires { e < length self.now.rows.now.0 }
        ensures { result ≡ noted found (formal_source (context self.now) want (tree_at self.now.rows.now e)) }
    {
        let pos = self.reader().position(e);
        let found = demand(found, 1, pos, self.source_fits(want, e));
        self.inside(found, self.is_name(e), want, e)
    }
}
