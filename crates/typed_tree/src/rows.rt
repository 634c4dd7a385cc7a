//! Nodes in rows, which contracts see as the typed trees and the typed code that they stand for.
ghost use Rattle.std.specs.Prelude.{◌≡◌, ◌<◌, [], map, length, IfOk, IfSome, IsTrue};
ghost use Rattle.std.specs.List.{All};
ghost use Rattle.typed_tree.specs.Trees.{NoMore, typed_list, typed_code_list};
ghost use Rattle.typed_tree.specs.Nodes.{is_below, is_code_below, typed_of, typed_code_of, typed_at, typed_code_at, Grew, Holds, HoldsCode};

use crate::code_node::TypedCodeNode;
use crate::node::TypedNode;
use std::alloc::{AllocError, Global};
use std::marker::Model;

/// Typed expressions and statements, each by its number. All lists have one end.
pub struct TypedRows {
    nodes: Vec<TypedNode>,
    codes: Vec<TypedCodeNode>,
    // where the last node stands that was added as the end of a list
    end: usize,
    code_end: usize,
}

impl Model for TypedRows {
    ghost use Rattle.std.specs.Prelude.{List, IsTrue};
    ghost use Rattle.typed_tree.specs.declared.node.TypedNode.{TypedNode};
    ghost use Rattle.typed_tree.specs.declared.code_node.TypedCodeNode.{TypedCodeNode};

    ghost Value = { List TypedNode × List TypedCodeNode };

    ghost use Rattle.typed_tree.specs.Nodes.{in_order};

    ghost view = { λ rows. (rows.nodes.items, rows.codes.items) };

    ghost invariant = { λ rows. IsTrue (in_order (rows.nodes.items, rows.codes.items)) };
}

impl Drop for TypedRows {
    fn drop(self) {
        let Self {
            nodes: _,
            codes: _,
            end: _,
            code_end: _,
        } = self;
    }
}

impl TypedRows {
    /// No trees and no code.
    pub fn new(alloc: Global) -> TypedRows
        ensures { result ≡ ([], []) }
    {
        TypedRows {
            nodes: Vec::new(alloc),
            codes: Vec::new(alloc),
            end: 0,
            code_end: 0,
        }
    }

    /// How many trees there are.
    pub fn len(&self) -> usize
        ensures { result ≡ length self.now.0 }
    {
        self.nodes.len()
    }

    /// How much code there is.
    pub fn code_len(&self) -> usize
        ensures { result ≡ length self.now.1 }
    {
        self.codes.len()
    }

    /// The end of a list that is there.
    fn known_end(&self) -> Option<usize>
        ensures { IfSome result (λ n. Holds self.now n NoMore) }
    {
        if self.end >= self.nodes.len() {
            return None;
        }
        match self.node(self.end) {
            TypedNode::NoMore => Some(self.end),
            _ => None,
        }
    }

    /// The end of a list of code that is there.
    fn known_code_end(&self) -> Option<usize>
        ensures { IfSome result (λ n. HoldsCode self.now n NoMore) }
    {
        if self.code_end >= self.codes.len() {
            return None;
        }
        match self.code(self.code_end) {
            TypedCodeNode::NoMore => Some(self.code_end),
            _ => None,
        }
    }

    /// Adds a tree that a node makes of those that are there, and gives its number: that of one
    /// that is there for the end of a list. What was there stays, also out of memory.
    #[tactic(auto, using(crate::proofs::Grown::order_tree, crate::proofs::Grown::grew_tree, crate::proofs::Grown::end_tree, crate::proofs::Grown::grew_none))]
    pub fn push(&mut self, node: TypedNode) -> Result<usize, AllocError>
        requires { IsTrue (is_below (length self.old.0) node) }
        ensures tree { IfOk result (λ n. Holds self.new n (typed_of (typed_at self.old) node)) }
        ensures grew { Grew self.old self.new }
    {
        let number = self.nodes.len();
        if matches!(node, TypedNode::NoMore) {
            if let Some(end) = self.known_end() {
                return Ok(end);
            }
            self.end = number;
        }
        self.nodes.push(node)?;
        Ok(number)
    }

    /// Adds code that a node makes of the trees and the code that are there, and gives its number:
    /// that of code that is there for the end of a list. What was there stays, also out of memory.
    #[tactic(auto, using(crate::proofs::Grown::order_code, crate::proofs::Grown::grew_code, crate::proofs::Grown::end_code, crate::proofs::Grown::grew_none))]
    pub fn push_code(&mut self, node: TypedCodeNode) -> Result<usize, AllocError>
        requires { IsTrue (is_code_below (length self.old.0) (length self.old.1) node) }
        ensures code { IfOk result (λ n. HoldsCode self.new n (typed_code_of (typed_at self.old) (typed_code_at self.old) node)) }
        ensures grew { Grew self.old self.new }
    {
        let number = self.codes.len();
        if matches!(node, TypedCodeNode::NoMore) {
            if let Some(end) = self.known_code_end() {
                return Ok(end);
            }
            self.code_end = number;
        }
        self.codes.push(node)?;
        Ok(number)
    }

    /// The node of a tree.
    pub fn node(&self, i: usize) -> &TypedNode
        requires { i < length self.now.0 }
        ensures tree { typed_at self.now i ≡ typed_of (typed_at self.now) result.now }
        ensures below { IsTrue (is_below i result.now) }
    {
        &self.nodes[i]
    }

    /// The node of code.
    pub fn code(&self, i: usize) -> &TypedCodeNode
        requires { i < length self.now.1 }
        ensures code { typed_code_at self.now i ≡ typed_code_of (typed_at self.now) (typed_code_at self.now) result.now }
        ensures below { IsTrue (is_code_below (length self.now.0) i result.now) }
    {
        &self.codes[i]
    }

    /// Adds the list of the trees with these numbers, and gives its number.
    #[tactic(auto, using(crate::proofs::Grown::grew_on, crate::proofs::Grown::kept, crate::proofs::Lists::list_step))]
    pub fn list(&mut self, parts: &[usize]) -> Result<usize, AllocError>
        requires { All (λ i. i < length self.old.0) parts.now }
        ensures tree { IfOk result (λ n. Holds self.new n (typed_list (map (typed_at self.old) parts.now))) }
        ensures grew { Grew self.old self.new }
    {
        let mut made = self.push(TypedNode::NoMore)?;
        let mut left = parts.len();
        'parts: while left > 0 {
            left -= 1;
            made = self.push(TypedNode::More {
                first: parts[left],
                rest: made,
            })?;
        }
        Ok(made)
    }

    /// Adds the list of the code with these numbers, and gives its number.
    #[tactic(auto, using(crate::proofs::Grown::grew_on, crate::proofs::Grown::kept_code, crate::proofs::Lists::code_list_step))]
    pub fn code_list(&mut self, parts: &[usize]) -> Result<usize, AllocError>
        requires { All (λ i. i < length self.old.1) parts.now }
        ensures code { IfOk result (λ n. HoldsCode self.new n (typed_code_list (map (typed_code_at self.old) parts.now))) }
        ensures grew { Grew self.old self.new }
    {
        let mut made = self.push_code(TypedCodeNode::NoMore)?;
        let mut left = parts.len();
        'parts: while left > 0 {
            left -= 1;
            made = self.push_code(TypedCodeNode::More {
                first: parts[left],
                rest: made,
            })?;
        }
        Ok(made)
    }
}
