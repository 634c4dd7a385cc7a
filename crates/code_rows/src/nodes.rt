//! Expressions in rows.
ghost use Rattle.std.specs.Prelude.{◌≡◌, ◌<◌, [], length, IfSome, IsTrue};
ghost use Rattle.code_rows.specs.Rows.{is_below, code_of, code_at, Grew, Holds};

use crate::node::Node;
use std::alloc::Global;
use std::marker::Model;

/// Expressions, each by its number. Contracts see their nodes.
pub struct Nodes {
    nodes: Vec<Node>,
}

impl Model for Nodes {
    ghost use Rattle.std.specs.Prelude.{List, IsTrue};
    ghost use Rattle.code_rows.specs.declared.node.Node.{Node};
    ghost use Rattle.code_rows.specs.Rows.{in_order};

    ghost Value = { List Node };

    ghost view = { λ rows. rows.nodes.items };

    ghost invariant = { λ rows. IsTrue (in_order rows.nodes.items) };
}

impl Drop for Nodes {
    fn drop(self) {
        let Self { nodes: _ } = self;
    }
}

impl Nodes {
    /// No expressions.
    pub fn new(alloc: Global) -> Nodes
        ensures { result ≡ [] }
    {
        Nodes {
            nodes: Vec::new(alloc),
        }
    }

    /// How many expressions there are.
    pub fn len(&self) -> usize
        ensures { result ≡ length self.now }
    {
        self.nodes.len()
    }

    /// The node with this number.
    pub fn node(&self, i: u32) -> Node
        requires { i < length self.now }
        ensures code { code_at self.now i ≡ code_of (code_at self.now) result }
        ensures below { IsTrue (is_below i result) }
    {
        self.nodes[i as usize]
    }

    /// Adds an expression that a node makes of those that are there, and gives its number: none where
    /// there are too many, or too little memory. What was there stays.
    #[tactic(auto, using(crate::proofs::Grown::order_node, crate::proofs::Grown::grew_node, crate::proofs::Grown::last_node, crate::proofs::Grown::grew_none))]
    pub fn push(&mut self, node: Node) -> Option<u32>
        requires { IsTrue (is_below (length self.old) node) }
        ensures code { IfSome result (λ n. Holds self.new n (code_of (code_at self.old) node)) }
        ensures grew { Grew self.old self.new }
    {
        let number = u32::try_from(self.nodes.len()).ok()?;
        self.nodes.push(node).ok()?;
        Some(number)
    }
}
