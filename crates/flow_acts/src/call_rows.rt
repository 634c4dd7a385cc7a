//! Which trees have a call of a function of the program, and which have no act.
ghost use Rattle.std.specs.Prelude.{◌≡◌, [], IfOk, IsTrue, false, get_or};
ghost use Rattle.flow_paths.specs.Acts.{acts_in};
ghost use Rattle.flow_paths.specs.Names.{has_call};
ghost use Rattle.flow_paths.specs.Objects.{Typing};
ghost use Rattle.typed_tree.specs.Nodes.{is_below, typed_at, typed_of};
ghost use Rattle.flow_acts.specs.Calls.{node_calls, AreCalls};
ghost use Rattle.flow_acts.specs.Actless.{node_is_actless, AreActless};

use std::alloc::{AllocError, Global};
use std::marker::Model;
use typed_tree::{TypedNode, TypedRows};

/// The mark of a tree.
fn marked(marks: &[bool], part: usize) -> bool
    ensures { result ≡ get_or marks.now part false }
{
    match marks.get(part) {
        Some(mark) => *mark,
        None => false,
    }
}

/// Whether a node whose parts have these marks has a call.
fn node_calls(marks: &[bool], node: &TypedNode) -> bool
    ensures { result ≡ node_calls (λ i. get_or marks.now i false) node.now }
{
    match node {
        TypedNode::Call { .. } => true,
        TypedNode::Name { steps, .. } => marked(marks, *steps),
        TypedNode::Component { rest, .. } | TypedNode::Designated { rest } => marked(marks, *rest),
        TypedNode::Element { index, rest, .. } => marked(marks, *index) || marked(marks, *rest),
        TypedNode::Image { value, .. } => marked(marks, *value),
        TypedNode::Parens { inner } => marked(marks, *inner),
        TypedNode::Unary { operand, .. } => marked(marks, *operand),
        TypedNode::Binary { left, right, .. } | TypedNode::Short { left, right, .. } => {
            marked(marks, *left) || marked(marks, *right)
        }
        TypedNode::IsNull { name, .. } => marked(marks, *name),
        TypedNode::Aggregate { parts, .. } => marked(marks, *parts),
        TypedNode::Alike { value, .. } | TypedNode::New { value, .. } => marked(marks, *value),
        TypedNode::More { first, rest } => marked(marks, *first) || marked(marks, *rest),
        TypedNode::Number { .. }
        | TypedNode::Literal { .. }
        | TypedNode::Null
        | TypedNode::Text { .. }
        | TypedNode::EndOfFile
        | TypedNode::NoMore => false,
    }
}

/// For each tree, by its number, whether it has a call of a function of the program. The only error
/// is out of memory.
#[tactic(auto, using(crate::proofs::Calls::node_has_call, crate::proofs::Calls::marks_on))]
pub fn call_marks(alloc: Global, rows: &TypedRows) -> Result<Vec<bool>, AllocError>
    ensures { IfOk result (λ marks. AreCalls rows.now marks.items) }
{
    let mut marks = Vec::new(alloc);
    'nodes: for i in 0..rows.len() {
        let calls = node_calls(&marks, rows.node(i));
        marks.push(calls)?;
    }
    Ok(marks)
}

/// Whether a node whose parts have these marks is known to have no act. A name has its own, and the
/// acts of a call stand at its own point.
fn node_is_actless(marks: &[bool], node: &TypedNode) -> bool
    ensures { result ≡ node_is_actless (λ i. get_or marks.now i false) node.now }
{
    match node {
        TypedNode::Name { .. } | TypedNode::IsNull { .. } => false,
        TypedNode::Component { rest, .. } | TypedNode::Designated { rest } => marked(marks, *rest),
        TypedNode::Element { index, rest, .. } => marked(marks, *index) && marked(marks, *rest),
        TypedNode::Image { value, .. } => marked(marks, *value),
        TypedNode::Parens { inner } => marked(marks, *inner),
        TypedNode::Unary { operand, .. } => marked(marks, *operand),
        TypedNode::Binary { left, right, .. } | TypedNode::Short { left, right, .. } => {
            marked(marks, *left) && marked(marks, *right)
        }
        TypedNode::Aggregate { parts, .. } => marked(marks, *parts),
        TypedNode::Alike { value, .. } | TypedNode::New { value, .. } => marked(marks, *value),
        TypedNode::More { first, rest } => marked(marks, *first) && marked(marks, *rest),
        TypedNode::Call { .. }
        | TypedNode::Number { .. }
        | TypedNode::Literal { .. }
        | TypedNode::Null
        | TypedNode::Text { .. }
        | TypedNode::EndOfFile
        | TypedNode::NoMore => true,
    }
}

/// For each tree, by its number, whether it is known to have no act. The only error is out of
/// memory.
#[tactic(auto, using(crate::proofs::Actless::actless_none, crate::proofs::Actless::actless_step))]
fn actless_marks(alloc: Global, rows: &TypedRows) -> Result<Vec<bool>, AllocError>
    ensures { IfOk result (λ marks. AreActless rows.now marks.items) }
{
    let mut marks = Vec::new(alloc);
    'nodes: for i in 0..rows.len() {
        let actless = node_is_actless(&marks, rows.node(i));
        marks.push(actless)?;
    }
    Ok(marks)
}

/// Typed rows, which of their trees have a call, and which have no act. Contracts see the rows.
pub struct CallRows<'p> {
    rows: &'p TypedRows,
    calls: Vec<bool>,
    actless: Vec<bool>,
    end: TypedNode,
}

impl<'p> Model for CallRows<'p> {
    ghost use Rattle.std.specs.Prelude.{◌≡◌};
    ghost use Rattle.typed_tree.specs.declared.node.TypedNode.TheVariants.{NoMore};
    ghost use Rattle.typed_tree.specs.Nodes.{TypedNodes};
    ghost use Rattle.flow_acts.specs.Calls.{AreCalls};
    ghost use Rattle.flow_acts.specs.Actless.{AreActless};

    ghost Value = { TypedNodes };

    ghost view = { λ marked. marked.rows.now };

    ghost invariant = { λ marked. AreCalls marked.rows.now marked.calls.items
        × (AreActless marked.rows.now marked.actless.items × (marked.end ≡ NoMore)) };
}

impl<'p> Drop for CallRows<'p> {
    fn drop(self) {
        let Self {
            rows: _,
            calls: _,
            actless: _,
            end: _,
        } = self;
    }
}

impl<'p> CallRows<'p> {
    /// Looks through all rows twice. The only error is out of memory.
    pub fn new(alloc: Global, rows: &'p TypedRows) -> Result<CallRows<'p>, AllocError>
        ensures { IfOk result (λ made. made ≡ rows.now) }
    {
        let calls = call_marks(alloc, rows)?;
        let actless = actless_marks(alloc, rows)?;
        Ok(CallRows {
            rows,
            calls,
            actless,
            end: TypedNode::NoMore,
        })
    }

    /// Whether a tree has a call of a function of the program.
    pub fn has_call(&self, e: usize) -> bool
        ensures { result ≡ has_call (typed_at self.now e) }
    {
        marked(&self.calls, e)
    }

    /// Whether a tree is known to have no act.
    pub(crate) fn is_actless(&self, e: usize) -> bool
        ensures { IsTrue result → (s : Typing) → acts_in s (typed_at self.now e) ≡ [] }
    {
        marked(&self.actless, e)
    }

    /// The node of a tree. What has no number in the rows is as the end of a list.
    #[tactic(auto, using(crate::proofs::Reading::typed_past))]
    pub fn node(&self, e: usize) -> &TypedNode
        ensures tree { typed_at self.now e ≡ typed_of (typed_at self.now) result.now }
        ensures below { IsTrue (is_below e result.now) }
    {
        if e < self.rows.len() {
            return self.rows.node(e);
        }
        &self.end
    }
}
