//! Nodes in rows, which contracts see as the trees and the code that they stand for.
ghost use Rattle.std.specs.Prelude.{◌≡◌, ◌<◌, [], map, length, IfOk, IfSome, IsTrue};
ghost use Rattle.std.specs.List.{All};
ghost use Rattle.resolved_tree.specs.Trees.{NoMore, list_of, code_list};
ghost use Rattle.resolved_tree.specs.Nodes.{is_below, is_code_below, tree_of, code_of, tree_at, code_at, Grew, Holds, HoldsCode};

use crate::code_node::CodeNode;
use crate::node::Node;
use std::alloc::{AllocError, Global};
use std::marker::Model;

/// Trees of expressions and code, each by its number. All lists have one end, since a third of all
/// nodes would be ends.
pub struct Rows {
    nodes: Vec<Node>,
    codes: Vec<CodeNode>,
    // where the last node stands that was added as the end of a list
    end: usize,
    code_end: usize,
}

impl Model for Rows {
    ghost use Rattle.std.specs.Prelude.{List, IsTrue};
    ghost use Rattle.resolved_tree.specs.declared.node.Node.{Node};
    ghost use Rattle.resolved_tree.specs.declared.code_node.CodeNode.{CodeNode};

    ghost Value = { List Node × List CodeNode };

    ghost use Rattle.resolved_tree.specs.Nodes.{in_order};

    ghost view = { λ rows. (rows.nodes.items, rows.codes.items) };

    ghost invariant = { λ rows. IsTrue (in_order (rows.nodes.items, rows.codes.items)) };
}

impl Drop for Rows {
    fn drop(self) {
        let Self {
            nodes: _,
            codes: _,
            end: _,
            code_end: _,
        } = self;
    }
}

impl Rows {
    /// No trees and no code.
    pub fn new(alloc: Global) -> Rows
        ensures { result ≡ ([], []) }
    {
        Rows {
            nodes: Vec::new(alloc),
            codes: Vec::new(alloc),
            end: 0,
            code_end: 0,
        }
    }

    /// Makes room for so many more trees and so much more code. What is there stays.
    pub fn reserve(&mut self, trees: usize, code: usize) -> Result<(), AllocError>
        ensures { self.new ≡ self.old }
    {
        self.nodes.reserve_exact(trees)?;
        self.codes.reserve_exact(code)?;
        Ok(())
    }

    /// How many trees there are.
    pub fn len(&self) -> usize
        ensures { result ≡ length self.now.0 }
    {
        self.nodes.len()
    }

    /// How much code there is.
    pub fn code_len(&self) -> usize
        ensures { result ≡ length self.now.1 }
    {
        self.codes.len()
    }

    /// The end of a list that is there.
    fn known_end(&self) -> Option<usize>
        ensures { IfSome result (λ n. Holds self.now n NoMore) }
    {
        if self.end >= self.nodes.len() {
            return None;
        }
        match self.node(self.end) {
            Node::NoMore => Some(self.end),
            _ => None,
        }
    }

    /// The end of a list of code that is there.
    fn known_code_end(&self) -> Option<usize>
        ensures { IfSome result (λ n. HoldsCode self.now n NoMore) }
    {
        if self.code_end >= self.codes.len() {
            return None;
        }
        match self.code(self.code_end) {
            CodeNode::NoMore => Some(self.code_end),
            _ => None,
        }
    }

    /// Adds a tree that a node makes of those that are there, and gives its number: that of one that
    /// is there for the end of a list. What was there stays, also out of memory.
    #[tactic(auto, using(crate::proofs::Grown::order_tree, crate::proofs::Grown::grew_tree, crate::proofs::Grown::end_tree, crate::proofs::Grown::grew_none))]
    pub fn push(&mut self, node: Node) -> Result<usize, AllocError>
        requires { IsTrue (is_below (length self.old.0) node) }
        ensures tree { IfOk result (λ n. Holds self.new n (tree_of (tree_at self.old) node)) }
        ensures grew { Grew self.old self.new }
    {
        let number = self.nodes.len();
        if matches!(node, Node::NoMore) {
            if let Some(end) = self.known_end() {
                return Ok(end);
            }
            self.end = number;
        }
        self.nodes.push(node)?;
        Ok(number)
    }

    /// Adds code that a node makes of the trees and the code that are there, and gives its number:
    /// that of code that is there for the end of a list. What was there stays, also out of memory.
    #[tactic(auto, using(crate::proofs::Grown::order_code, crate::proofs::Grown::grew_code, crate::proofs::Grown::end_code, crate::proofs::Grown::grew_none))]
    pub fn push_code(&mut self, node: CodeNode) -> Result<usize, AllocError>
        requires { IsTrue (is_code_below (length self.old.0) (length self.old.1) node) }
        ensures code { IfOk result (λ n. HoldsCode self.new n (code_of (tree_at self.old) (code_at self.old) node)) }
        ensures grew { Grew self.old self.new }
    {
        let number = self.codes.len();
        if matches!(node, CodeNode::NoMore) {
            if let Some(end) = self.known_code_end() {
                return Ok(end);
            }
            self.code_end = number;
        }
        self.codes.push(node)?;
        Ok(number)
    }

    /// The node of a tree.
    pub fn node(&self, i: usize) -> &Node
        requires { i < length self.now.0 }
        ensures tree { tree_at self.now i ≡ tree_of (tree_at self.now) result.now }
        ensures below { IsTrue (is_below i result.now) }
    {
        &self.nodes[i]
    }

    /// The node of code.
    pub fn code(&self, i: usize) -> &CodeNode
        requires { i < length self.now.1 }
        ensures code { code_at self.now i ≡ code_of (tree_at self.now) (code_at self.now) result.now }
        ensures below { IsTrue (is_code_below (length self.now.0) i result.now) }
    {
        &self.codes[i]
    }

    /// Adds the list of the trees with these numbers, and gives its number.
    #[tactic(auto, using(crate::proofs::Grown::grew_on, crate::proofs::Grown::kept, crate::proofs::Lists::list_step))]
    pub fn list(&mut self, parts: &[usize]) -> Result<usize, AllocError>
        requires { All (λ i. i < length self.old.0) parts.now }
        ensures tree { IfOk result (λ n. Holds self.new n (list_of (map (tree_at self.old) parts.now))) }
        ensures grew { Grew self.old self.new }
    {
        let mut made = self.push(Node::NoMore)?;
        let mut left = parts.len();
        'parts: while left > 0 {
            left -= 1;
            made = self.push(Node::More {
                first: parts[left],
                rest: made,
            })?;
        }
        Ok(made)
    }

    /// Adds the list of the code with these numbers, and gives its number.
    #[tactic(auto, using(crate::proofs::Grown::grew_on, crate::proofs::Grown::kept_code, crate::proofs::Lists::code_list_step))]
    pub fn code_list(&mut self, parts: &[usize]) -> Result<usize, AllocError>
        requires { All (λ i. i < length self.old.1) parts.now }
        ensures code { IfOk result (λ n. HoldsCode self.new n (code_list (map (code_at self.old) parts.now))) }
        ensures grew { Grew self.old self.new }
    {
        let mut made = self.push_code(CodeNode::NoMore)?;
        let mut left = parts.len();
        'parts: while left > 0 {
            left -= 1;
            made = self.push_code(CodeNode::More {
                first: parts[left],
                rest: made,
            })?;
        }
        Ok(made)
    }
}
