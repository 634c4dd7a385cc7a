//! Names, as they stand in rows.
ghost use Rattle.std.specs.Prelude.{◌≡◌, ◌+◌, length};
ghost use Rattle.flow_paths.specs.Names.{first, name_of, selectors, source, written};
ghost use Rattle.deep_names.specs.Found.{freed_deep, spots_deep, written_deep};
ghost use Rattle.deep_names.specs.Trees.{used_deep};
ghost use Rattle.deep_names.specs.Turns.{after, site, tree, IsStepBelow};

use crate::found::{earlier, name_depth, parts_depth};
use crate::rows::EndedRows;
use program_typing::ProgramTyping;
use spark_base::Pos;
use typed_tree::TypedNode;

/// The typed rows of a program, and what is known of its types, objects and subprograms.
#[derive(Clone, Copy)]
pub(crate) struct NameReader<'p> {
    /// The trees and the code.
    pub(crate) rows: &'p EndedRows<'p>,
    /// The types, the objects and the subprograms.
    pub(crate) typing: ProgramTyping<'p>,
}

impl<'p> NameReader<'p> {
    /// The steps after a first one.
    #[tactic(auto, unfolding(flow_paths::specs::Names::selectors))]
    fn step(&self, steps: usize) -> Option<usize>
        ensures count { length (selectors (tree self.now steps)) ≡ after self.now result }
        ensures below { IsStepBelow steps result }
    {
        match self.rows.node(steps) {
            TypedNode::Component { rest, .. }
            | TypedNode::Designated { rest }
            | TypedNode::Element { rest, .. } => Some(*rest),
            _ => None,
        }
    }

    /// How many selectors the steps of a name are.
    pub(crate) fn count(&self, steps: usize) -> usize
        ensures { result ≡ length (selectors (tree self.now steps)) }
    {
        let mut count = 0;
        let mut at = steps;
        'steps: while let Some(rest) = self.step(at) {
            count += 1;
            at = rest;
        }
        count
    }

    /// A name with these steps that is used as a value of a type.
    pub(crate) fn used(&self, pos: Pos, object: u32, steps: usize, of: u32) -> Option<Pos>
        ensures { result ≡ used_deep (site self.now) pos (name_of object (tree self.now steps)) of }
    {
        let count = self.count(steps);
        let own = name_depth(pos, count);
        if self.typing.is_owning(of) {
            return earlier(
                own,
                parts_depth(pos, count, 0, self.typing.access_parts(of)),
            );
        }
        own
    }

    /// The name that an expression is.
    #[tactic(auto, using(crate::proofs::OtherNodes::written_other))]
    pub(crate) fn written(&self, e: usize) -> Option<Pos>
        ensures { result ≡ written_deep (written (tree self.now e)) }
    {
        match self.rows.node(e) {
            TypedNode::Name { pos, steps, .. } => name_depth(*pos, self.count(*steps)),
            _ => None,
        }
    }

    /// The name that the first of a list is.
    fn first_written(&self, e: usize) -> Option<Pos>
        ensures { result ≡ written_deep (written (first (tree self.now e))) }
    {
        match self.rows.node(e) {
            TypedNode::More { first, .. } => self.written(*first),
            _ => None,
        }
    }

    /// The source of a borrow or an observation: of a traversal call, its first actual.
    pub(crate) fn source(&self, e: usize) -> Option<Pos>
        ensures { result ≡ written_deep (source (tree self.now e)) }
    {
        match self.rows.node(e) {
            TypedNode::Call { actuals, .. } => self.first_written(*actuals),
            _ => self.written(e),
        }
    }

    /// The access parts of the name that an expression is.
    pub(crate) fn spots(&self, e: usize) -> Option<Pos>
        ensures { result ≡ spots_deep (site self.now).table (written (tree self.now e)) }
    {
        match self.rows.node(e) {
            TypedNode::Name { pos, steps, of, .. } => {
                parts_depth(*pos, self.count(*steps), 0, self.typing.access_parts(*of))
            }
            _ => None,
        }
    }

    /// The access parts of what the name designates that an expression is.
    pub(crate) fn freed(&self, e: usize) -> Option<Pos>
        ensures { result ≡ freed_deep (site self.now).table (written (tree self.now e)) }
    {
        match self.rows.node(e) {
            TypedNode::Name { pos, steps, of, .. } => {
                let designated = self.typing.designated(*of);
                parts_depth(
                    *pos,
                    self.count(*steps),
                    1,
                    self.typing.access_parts(designated),
                )
            }
            _ => None,
        }
    }
}
