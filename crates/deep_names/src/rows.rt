//! Rows that can be read at each number.
ghost use Rattle.std.specs.Prelude.{◌≡◌, IsTrue, length};
ghost use Rattle.typed_tree.specs.Nodes.{is_below, is_code_below, typed_at, typed_code_at, typed_code_of, typed_of};

use std::marker::Model;
use typed_tree::{TypedCodeNode, TypedNode, TypedRows};

/// Typed rows, followed by ends of lists. Contracts see the rows.
pub(crate) struct EndedRows<'p> {
    rows: &'p TypedRows,
    end: TypedNode,
}

impl<'p> Model for EndedRows<'p> {
    ghost use Rattle.std.specs.Prelude.{◌≡◌};
    ghost use Rattle.typed_tree.specs.declared.node.TypedNode.TheVariants.{NoMore};
    ghost use Rattle.typed_tree.specs.Nodes.{TypedNodes};

    ghost Value = { TypedNodes };

    ghost view = { λ ended. ended.rows.now };

    ghost invariant = { λ ended. ended.end ≡ NoMore };
}

impl<'p> Drop for EndedRows<'p> {
    fn drop(self) {
        let Self { rows: _, end: _ } = self;
    }
}

impl<'p> EndedRows<'p> {
    /// These rows.
    pub(crate) fn new(rows: &'p TypedRows) -> EndedRows<'p>
        ensures { result ≡ rows.now }
    {
        EndedRows {
            rows,
            end: TypedNode::NoMore,
        }
    }

    /// The node of a tree.
    #[tactic(auto, using(crate::proofs::Reading::typed_past))]
    pub(crate) fn node(&self, e: usize) -> &TypedNode
        ensures tree { typed_at self.now e ≡ typed_of (typed_at self.now) result.now }
        ensures below { IsTrue (is_below e result.now) }
    {
        if e < self.rows.len() {
            return self.rows.node(e);
        }
        &self.end
    }

    /// The node of code.
    #[tactic(auto, using(crate::proofs::Reading::code_past))]
    pub(crate) fn code(&self, c: usize) -> TypedCodeNode
        ensures code { typed_code_at self.now c
            ≡ typed_code_of (typed_at self.now) (typed_code_at self.now) result }
        ensures below { IsTrue (is_code_below (length self.now.0) c result) }
    {
        if c < self.rows.code_len() {
            return *self.rows.code(c);
        }
        TypedCodeNode::NoMore
    }
}
