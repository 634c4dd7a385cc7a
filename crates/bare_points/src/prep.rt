//! How many points come before those that use an expression.
ghost use Rattle.std.specs.Prelude.{◌≡◌, ◌<◌, ◌+◌, true, ◌||◌, length, get_or, IfOk};
ghost use Rattle.typed_tree.specs.Nodes.{typed_at};
ghost use Rattle.bare_points.specs.Sized.{no_prep, prep_of, short_prep, ArePreps};

use crate::span::sum;
use spark_base::Listed;
use std::alloc::{AllocError, Global};
use typed_tree::{TypedNode, TypedRows};

/// What comes before the points that use an expression.
#[derive(Clone, Copy)]
pub struct Prep {
    /// How many points.
    pub size: usize,
    /// How many temporaries they fill.
    pub filled: usize,
    /// Whether the expression has a call.
    pub calls: bool,
}

impl Prep {
    /// That of an expression without points before it.
    pub const NONE: Prep = Prep {
        size: 0,
        filled: 0,
        calls: false,
    };

    /// That of the node with this number.
    pub fn at(preps: &[Prep], i: usize) -> Prep
        ensures { result ≡ get_or preps.now i no_prep }
    {
        match preps.get(i) {
            Some(prep) => *prep,
            None => Prep::NONE,
        }
    }

    /// That of one expression and another after it.
    fn and(self, other: Prep) -> Result<Prep, AllocError>
        ensures { IfOk result (λ made. made ≡ record { size = self.size + other.size; filled = self.filled + other.filled; calls = self.calls || other.calls }) }
    {
        Ok(Prep {
            size: sum(self.size, other.size)?,
            filled: sum(self.filled, other.filled)?,
            calls: self.calls || other.calls,
        })
    }

    /// That of a call of a function with these actuals.
    fn called(self) -> Result<Prep, AllocError>
        ensures { IfOk result (λ made. made ≡ record { size = self.size + 1; filled = self.filled + 1; calls = true }) }
    {
        Ok(Prep {
            size: sum(self.size, 1)?,
            filled: sum(self.filled, 1)?,
            calls: true,
        })
    }

    /// That of a short circuit with these operands.
    fn short(self, right: Prep) -> Result<Prep, AllocError>
        ensures { IfOk result (λ made. made ≡ short_prep self right) }
    {
        if right.calls {
            self.called()?.and(right.counted()?)
        } else {
            self.and(right)
        }
    }

    /// That with one more point.
    fn counted(self) -> Result<Prep, AllocError>
        ensures { IfOk result (λ made. made ≡ record { size = self.size + 1; filled = self.filled; calls = self.calls }) }
    {
        Ok(Prep {
            size: sum(self.size, 1)?,
            filled: self.filled,
            calls: self.calls,
        })
    }
}

/// That of a node, made of those of its parts.
#[tactic(auto, unfolding(numbered_points::specs::Extents::prep_size, numbered_points::specs::Extents::filled_in, flow_paths::specs::Names::has_call))]
fn node_prep(rows: &TypedRows, i: usize, preps: &[Prep]) -> Result<Prep, AllocError>
    requires node { i < length rows.now.0 }
    requires parts { ArePreps rows.now i preps.now }
    ensures { IfOk result (λ made. made ≡ prep_of (typed_at rows.now i)) }
{
    match rows.node(i) {
        TypedNode::Call { actuals, .. } => Prep::at(preps, *actuals).called(),
        TypedNode::Short { left, right, .. } => {
            Prep::at(preps, *left).short(Prep::at(preps, *right))
        }
        TypedNode::Binary {
            left: first,
            right: second,
            ..
        }
        | TypedNode::Element {
            index: first,
            rest: second,
            ..
        }
        | TypedNode::More {
            first,
            rest: second,
        } => Prep::at(preps, *first).and(Prep::at(preps, *second)),
        TypedNode::Name { steps: part, .. }
        | TypedNode::Component { rest: part, .. }
        | TypedNode::Designated { rest: part }
        | TypedNode::Parens { inner: part }
        | TypedNode::Image { value: part, .. }
        | TypedNode::Unary { operand: part, .. }
        | TypedNode::IsNull { name: part, .. }
        | TypedNode::Aggregate { parts: part, .. }
        | TypedNode::Alike { value: part, .. }
        | TypedNode::New { value: part, .. } => Ok(Prep::at(preps, *part)),
        _ => Ok(Prep::NONE),
    }
}

/// Those of all nodes of expressions, by number.
pub fn preps(alloc: Global, rows: &TypedRows) -> Result<Listed<Prep>, AllocError>
    ensures { IfOk result (λ made. ArePreps rows.now (length rows.now.0) made) }
{
    let mut made = Listed::new(alloc);
    'nodes: for i in 0..rows.len() {
        let prep = node_prep(rows, i, made.as_slice())?;
        made.push(prep)?;
    }
    Ok(made)
}
