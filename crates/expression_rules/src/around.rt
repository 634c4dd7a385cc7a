//! The sentences on an expression at its place.
ghost use Rattle.std.specs.Prelude.{◌≡◌, ◌<◌, length};
ghost use Rattle.resolved_tree.specs.Nodes.{tree_at};
ghost use Rattle.type_definitions.specs.Faults.{noted};
ghost use Rattle.type_definitions.specs.Expressions.{takes_owning, takes_null, takes_name, allowed, mark_faults, around, around_string, around_parens, around_operands};
ghost use Rattle.expression_rules.specs.Around.{context};

use crate::checker::Checker;
use expression_types::{
    has_value, is_arithmetic, is_demanding, is_join, is_logical, is_object, is_string, operand_type,
};
use resolved_tree::{Mark, Node, Operator};
use spark_base::Pos;
use type_definitions::{Fault, Where};
use type_settled::demand;

impl<'p> Checker<'p> {
    /// With the faults of a mark: it denotes a type that is complete and has a value.
    #[tactic(auto, using(crate::proofs::Noted::noted_append))]
    pub fn mark_faults(&self, found: Option<Fault>, mark: Mark) -> Option<Fault>
        ensures { result ≡ noted found (mark_faults self.now.settled.now.known mark) }
    {
        let reader = self.reader();
        let denotes = reader.denotes_type(mark.decl);
        let t = reader.marked(mark);
        let found = demand(
            found,
            1,
            mark.pos,
            denotes && reader.is_complete(t, mark.pos),
        );
        demand(found, 7, mark.pos, !denotes || has_value(reader.full(t)))
    }

    /// Whether an owning expression may stand at its place.
    fn allowed(&self, at: Where, e: usize) -> bool
        requires { e < length self.now.rows.now.0 }
        ensures { result ≡ allowed (context self.now) at (tree_at self.now.rows.now e) }
    {
        match self.rows.node(e) {
            Node::Null { .. } => takes_null(at),
            Node::Aggregate { .. } | Node::Others { .. } | Node::New { .. } => takes_owning(at),
            Node::Named { decl, rest, .. } => {
                if is_object(self.reader().reading_of(*decl, *rest)) {
                    takes_name(at)
                } else {
                    takes_owning(at)
                }
            }
            Node::Parens { .. } => false,
            _ => true,
        }
    }

    /// With the faults around an expression where a type is demanded.
    #[tactic(auto, using(crate::proofs::Noted::noted_append))]
    pub fn around(&self, found: Option<Fault>, at: Where, want: u32, e: usize) -> Option<Fault>
        requires { e < length self.now.rows.now.0 }
        ensures { result ≡ noted found (around (context self.now) at want (tree_at self.now.rows.now e)) }
    {
        let reader = self.reader();
        let pos = reader.position(e);
        let found = demand(found, 1, pos, reader.suits(want, e));
        demand(
            found,
            5,
            pos,
            !self.settled.is_owning(want) || self.allowed(at, e),
        )
    }

    /// With the faults around an operand of `&`.
    pub fn around_string(&self, found: Option<Fault>, e: usize) -> Option<Fault>
        requires { e < length self.now.rows.now.0 }
        ensures { result ≡ noted found (around_string (context self.now) (tree_at self.now.rows.now e)) }
    {
        let reader = self.reader();
        let own = reader.own_type(e);
        demand(
            found,
            1,
            reader.position(e),
            is_string(own) || reader.is_unknown(own),
        )
    }

    /// With the faults around an expression in parentheses.
    #[tactic(auto, using(crate::proofs::Noted::noted_append))]
    pub fn around_parens(
        &self,
        found: Option<Fault>,
        pos: Pos,
        want: u32,
        e: usize,
    ) -> Option<Fault>
        requires { e < length self.now.rows.now.0 }
        ensures { result ≡ noted found (around_parens (context self.now) pos want (tree_at self.now.rows.now e)) }
    {
        let own = self.reader().own_type(e);
        let found = demand(found, 5, pos, !self.own_owning(own));
        if is_demanding(own) {
            self.around(found, Where::InParens, want, e)
        } else {
            found
        }
    }

    /// With the faults around two operands.
    #[tactic(auto, using(crate::proofs::Noted::noted_append))]
    pub fn around_operands(
        &self,
        found: Option<Fault>,
        pos: Pos,
        operator: Operator,
        a: usize,
        b: usize,
    ) -> Option<Fault>
        requires a { a < length self.now.rows.now.0 }
        requires b { b < length self.now.rows.now.0 }
        ensures { result ≡ noted found (around_operands (context self.now) pos operator (tree_at self.now.rows.now a) (tree_at self.now.rows.now b)) }
    {
        if is_join(operator) {
            let found = self.around_string(found, a);
            self.around_string(found, b)
        } else if is_arithmetic(operator) || is_logical(operator) {
            let want = operand_type(operator);
            let found = self.around(found, Where::Elsewhere, want, a);
            self.around(found, Where::Elsewhere, want, b)
        } else {
            demand(found, 1, pos, self.reader().compares(operator, a, b))
        }
    }
}

/// Whether an aggregate, an allocator or a call of an owning type may stand here.
fn takes_owning(at: Where) -> bool
    ensures { result ≡ takes_owning at }
{
    matches!(at, Where::Stored | Where::InParens)
}

/// Whether `null` may.
fn takes_null(at: Where) -> bool
    ensures { result ≡ takes_null at }
{
    !matches!(at, Where::Elsewhere)
}

/// Whether the name of an owning object may.
fn takes_name(at: Where) -> bool
    ensures { result ≡ takes_name at }
{
    matches!(at, Where::Stored | Where::Actual)
}
