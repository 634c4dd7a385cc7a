//! The acts of expressions.
ghost use Rattle.std.specs.Prelude.{◌≡◌, ◌<◌, ◌+◌, ℕ, ◌∷◌, [], ◌++◌, Bool, OnOk, if◌then◌else◌};
ghost use Rattle.typed_tree.specs.Trees.{IsNull};
ghost use Rattle.flow_paths.specs.Names.{has_call};
ghost use Rattle.flow_paths.specs.Acts.{acts_in};
ghost use Rattle.flow_acts.specs.Frames.{site};
ghost use Rattle.flow_acts.specs.Plans.{tree, Plans};
ghost use Rattle.flow_acts.specs.Turns.{turn_acts, IsTurnBelow};

use crate::plan::{Doing, Planned};
use crate::writer::ActWriter;
use std::alloc::AllocError;
use typed_tree::TypedNode;

/// What the acts of a tree are made of.
#[derive(Clone, Copy)]
pub(crate) enum Turn {
    /// There are none.
    Ends,
    /// Those of a part.
    Goes { rest: usize },
    /// Those of a part, and then those of another one.
    Both { head: usize, rest: usize },
    /// Those of the steps of a name, and then its own.
    Names { planned: Planned },
}

impl<'p> ActWriter<'p> {
    /// A name that is compared with `null`.
    #[tactic(auto, unfolding(flow_paths::specs::Acts::acts_in))]
    fn looked(&self, e: usize) -> Turn
        ensures acts { (equal : Bool) → acts_in (site self.now) (IsNull equal (tree self.now e)) ≡ turn_acts self.now result }
        ensures below { IsTurnBelow (e + 1) result }
    {
        match self.rows.node(e) {
            TypedNode::Name {
                pos,
                object,
                steps,
                ..
            } => Turn::Names {
                planned: Planned {
                    pos: *pos,
                    object: *object,
                    steps: *steps,
                    doing: Doing::Look,
                },
            },
            _ => Turn::Ends,
        }
    }

    /// The operands of a short circuit. With a call on the right, both were evaluated before.
    fn operands(&self, left: usize, right: usize) -> Turn
        ensures acts { turn_acts self.now result ≡ (if has_call (tree self.now right) then [] else acts_in (site self.now) (tree self.now left) ++ acts_in (site self.now) (tree self.now right)) }
        ensures below { (e : ℕ) → left < e → right < e → IsTurnBelow e result }
    {
        if self.rows.has_call(right) {
            return Turn::Ends;
        }
        Turn::Both {
            head: left,
            rest: right,
        }
    }

    /// What the acts of a tree are made of. A tree without acts isn't gone into.
    #[tactic(auto, unfolding(flow_paths::specs::Acts::acts_in))]
    fn turn(&self, e: usize) -> Turn
        ensures acts { acts_in (site self.now) (tree self.now e) ≡ turn_acts self.now result }
        ensures below { IsTurnBelow e result }
    {
        if self.rows.is_actless(e) {
            return Turn::Ends;
        }
        match self.rows.node(e) {
            TypedNode::Name {
                pos,
                object,
                steps,
                of,
            } => Turn::Names {
                planned: Planned {
                    pos: *pos,
                    object: *object,
                    steps: *steps,
                    doing: Doing::Use { of: *of },
                },
            },
            TypedNode::IsNull { name, .. } => self.looked(*name),
            TypedNode::Short { left, right, .. } => self.operands(*left, *right),
            TypedNode::Component { rest, .. } | TypedNode::Designated { rest } => {
                Turn::Goes { rest: *rest }
            }
            TypedNode::Parens { inner } => Turn::Goes { rest: *inner },
            TypedNode::Unary { operand, .. } => Turn::Goes { rest: *operand },
            TypedNode::Aggregate { parts, .. } => Turn::Goes { rest: *parts },
            TypedNode::Image { value, .. }
            | TypedNode::Alike { value, .. }
            | TypedNode::New { value, .. } => Turn::Goes { rest: *value },
            TypedNode::Element { index, rest, .. } => Turn::Both {
                head: *index,
                rest: *rest,
            },
            TypedNode::Binary { left, right, .. } => Turn::Both {
                head: *left,
                rest: *right,
            },
            TypedNode::More { first, rest } => Turn::Both {
                head: *first,
                rest: *rest,
            },
            _ => Turn::Ends,
        }
    }

    /// Adds the acts of an expression, or of the steps of a name.
    #[cycle(values)]
    pub(crate) fn values(&self, e: usize, to: &mut Vec<Planned>) -> Result<(), AllocError>
        ensures { OnOk result (Plans self.now to.old.items to.new.items (acts_in (site self.now) (tree self.now e))) }
    {
        let mut at = e;
        'parts: loop {
            match self.turn(at) {
                Turn::Ends => return Ok(()),
                Turn::Goes { rest } => at = rest,
                Turn::Both { head, rest } => {
                    self.values(head, to)?;
                    at = rest;
                }
                Turn::Names { planned } => {
                    self.values(planned.steps, to)?;
                    to.push(planned)?;
                    return Ok(());
                }
            }
        }
    }
}
