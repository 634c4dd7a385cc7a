//! The names of trees.
ghost use Rattle.std.specs.Prelude.{◌≡◌, ◌<◌, length, drop};
ghost use Rattle.flow_paths.specs.Names.{written};
ghost use Rattle.flow_paths.specs.Objects.{passings, sub_at};
ghost use Rattle.program_typing.specs.Passings.{passing_of};
ghost use Rattle.deep_names.specs.Found.{earlier_of};
ghost use Rattle.deep_names.specs.Trees.{actual_deep, call_deep, depths_in, place_deep};
ghost use Rattle.deep_names.specs.Turns.{place_by, place_of, site, tree, turn_depths, value_of, IsStepBelow, IsTurnBelow};

use crate::depths::{Depths, both, either, joined, named, none_found, settled, unused};
use crate::found::earlier;
use crate::reader::NameReader;
use place_names::Mode;
use program_typing::Passing;
use spark_base::Pos;
use typed_tree::TypedNode;

/// What the names of a tree are made of.
#[derive(Clone, Copy)]
pub(crate) enum Turn {
    /// There are none.
    Ends,
    /// Those of a part.
    Goes {
        rest: usize,
    },
    /// Those of two parts.
    Both {
        head: usize,
        rest: usize,
    },
    /// Those of the steps of a name, and its own.
    Names {
        pos: Pos,
        object: u32,
        steps: usize,
        of: u32,
    },
    /// Those of a name that is compared with `null`.
    Looks {
        name: usize,
    },
    /// Those of a call.
    Calls {
        sub: u32,
        actuals: usize,
    },
    /// Those of a short circuit.
    Short {
        left: usize,
        right: usize,
    },
}

impl<'p> NameReader<'p> {
    /// What the names of a tree are made of.
    #[tactic(auto, unfolding(crate::specs::Trees::depths_in))]
    fn turn(&self, e: usize) -> Turn
        ensures depths { value_of (depths_in (site self.now) (tree self.now e))
            ≡ turn_depths self.now result }
        ensures below { IsTurnBelow e result }
    {
        match self.rows.node(e) {
            TypedNode::Name {
                pos,
                object,
                steps,
                of,
            } => Turn::Names {
                pos: *pos,
                object: *object,
                steps: *steps,
                of: *of,
            },
            TypedNode::IsNull { name, .. } => Turn::Looks { name: *name },
            TypedNode::Call { sub, actuals, .. } => Turn::Calls {
                sub: *sub,
                actuals: *actuals,
            },
            TypedNode::Short { left, right, .. } => Turn::Short {
                left: *left,
                right: *right,
            },
            TypedNode::Component { rest, .. } | TypedNode::Designated { rest } => {
                Turn::Goes { rest: *rest }
            }
            TypedNode::Parens { inner } => Turn::Goes { rest: *inner },
            TypedNode::Unary { operand, .. } => Turn::Goes { rest: *operand },
            TypedNode::Aggregate { parts, .. } => Turn::Goes { rest: *parts },
            TypedNode::Image { value, .. }
            | TypedNode::Alike { value, .. }
            | TypedNode::New { value, .. } => Turn::Goes { rest: *value },
            TypedNode::Element { index, rest, .. } => Turn::Both {
                head: *index,
                rest: *rest,
            },
            TypedNode::Binary { left, right, .. } => Turn::Both {
                head: *left,
                rest: *right,
            },
            TypedNode::More { first, rest } => Turn::Both {
                head: *first,
                rest: *rest,
            },
            TypedNode::Number { .. }
            | TypedNode::Literal { .. }
            | TypedNode::Null
            | TypedNode::Text { .. }
            | TypedNode::EndOfFile
            | TypedNode::NoMore => Turn::Ends,
        }
    }

    /// The names of a tree.
    #[cycle(trees)]
    #[tactic(auto, using(crate::proofs::Turns::both_group, crate::proofs::Turns::both_none))]
    pub(crate) fn tree(&self, e: usize) -> Depths
        ensures { result ≡ value_of (depths_in (site self.now) (tree self.now e)) }
    {
        let mut found = none_found();
        let mut at = e;
        'parts: loop {
            match self.turn(at) {
                Turn::Ends => return found,
                Turn::Goes { rest } => at = rest,
                Turn::Both { head, rest } => {
                    found = both(found, self.tree(head));
                    at = rest;
                }
                Turn::Names {
                    pos,
                    object,
                    steps,
                    of,
                } => {
                    let own = self.used(pos, object, steps, of);
                    return both(found, named(self.tree(steps), own));
                }
                Turn::Looks { name } => {
                    let own = self.written(name);
                    return both(found, named(self.place(name), own));
                }
                Turn::Calls { sub, actuals } => {
                    return both(found, settled(self.call(sub, actuals)));
                }
                Turn::Short { left, right } => {
                    return both(found, either(self.tree(left), self.tree(right)));
                }
            }
        }
    }

    /// The steps of a name.
    #[tactic(auto, unfolding(crate::specs::Trees::depths_in))]
    fn name_steps(&self, e: usize) -> Option<usize>
        ensures place { place_of (depths_in (site self.now) (tree self.now e))
            ≡ place_by self.now e result }
        ensures below { IsStepBelow e result }
    {
        match self.rows.node(e) {
            TypedNode::Name { steps, .. } => Some(*steps),
            _ => None,
        }
    }

    /// The names of a tree whose value isn't taken: where it is a name, those of its indexes.
    #[cycle(trees)]
    pub(crate) fn place(&self, e: usize) -> Depths
        ensures { result ≡ place_of (depths_in (site self.now) (tree self.now e)) }
    {
        match self.name_steps(e) {
            Some(steps) => self.tree(steps),
            None => unused(self.tree(e)),
        }
    }

    /// A name that is an actual, and its leak checks.
    fn passed(&self, mode: Mode, e: usize) -> Option<Pos>
        ensures { result ≡ place_deep (site self.now) mode (written (tree self.now e)) }
    {
        match mode {
            Mode::Out => earlier(self.written(e), self.spots(e)),
            Mode::In | Mode::InOut => self.written(e),
        }
    }

    /// The names of an actual, at the point of its call and before it.
    #[cycle(trees)]
    fn actual(&self, way: Passing, e: usize) -> Option<Pos>
        ensures { result ≡ earlier_of (depths_in (site self.now) (tree self.now e)).before
            (actual_deep (site self.now) (passing_of way) (written (tree self.now e))
            (depths_in (site self.now) (tree self.now e))) }
    {
        match way {
            Passing::ByValue => joined(self.tree(e)),
            Passing::Traversed => joined(self.place(e)),
            Passing::Place { mode, .. } => {
                let own = self.passed(mode, e);
                joined(named(self.place(e), own))
            }
        }
    }

    /// The names of a call, and of the points before it.
    #[cycle(trees)]
    pub(crate) fn call(&self, sub: u32, actuals: usize) -> Option<Pos>
        ensures { result ≡ call_deep (site self.now) sub (tree self.now actuals) }
    {
        let mut found = None;
        let mut at = actuals;
        'formals: for i in 0..self.typing.formals(sub).len() {
            let TypedNode::More { first, rest } = self.rows.node(at) else {
                return earlier(found, self.tree(at).before);
            };
            let way = self.typing.passing_at(sub, i);
            found = earlier(found, self.actual(way, *first));
            at = *rest;
        }
        earlier(found, self.tree(at).before)
    }
}
