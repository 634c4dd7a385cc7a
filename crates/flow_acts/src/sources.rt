//! Names that stand where their values aren't taken.
ghost use Rattle.std.specs.Prelude.{◌≡◌, [], ◌∷◌, OnOk};
ghost use Rattle.flow_paths.specs.Names.{first, source, whole, whole_object, written};
ghost use Rattle.flow_paths.specs.Acts.{index_acts, naming, reborrow, source_acts, target_pos};
ghost use Rattle.flow_acts.specs.Frames.{site};
ghost use Rattle.flow_acts.specs.Plans.{act_by, tree, written_found, Plans};

use crate::plan::{Doing, NameNode, Planned};
use crate::writer::ActWriter;
use spark_base::Pos;
use std::alloc::AllocError;
use typed_tree::TypedNode;

impl<'p> ActWriter<'p> {
    /// The name that an expression is.
    pub(crate) fn written(&self, e: usize) -> Option<NameNode>
        ensures { written_found self.now result ≡ written (tree self.now e) }
    {
        match self.rows.node(e) {
            TypedNode::Name {
                pos,
                object,
                steps,
                of,
            } => Some(NameNode {
                pos: *pos,
                object: *object,
                steps: *steps,
                of: *of,
            }),
            _ => None,
        }
    }

    /// The name that the first of a list is.
    fn first_written(&self, e: usize) -> Option<NameNode>
        ensures { written_found self.now result ≡ written (first (tree self.now e)) }
    {
        match self.rows.node(e) {
            TypedNode::More { first, .. } => self.written(*first),
            _ => None,
        }
    }

    /// The source of a borrow or an observation: of a traversal call, its first actual.
    pub(crate) fn source(&self, e: usize) -> Option<NameNode>
        ensures { written_found self.now result ≡ source (tree self.now e) }
    {
        match self.rows.node(e) {
            TypedNode::Call { actuals, .. } => self.first_written(*actuals),
            _ => self.written(e),
        }
    }

    /// The object that these steps from an object lead to as a whole.
    fn whole_object(&self, object: u32, steps: usize) -> Option<u32>
        ensures { result ≡ whole_object object (tree self.now steps) }
    {
        match self.rows.node(steps) {
            TypedNode::NoMore => Some(object),
            _ => None,
        }
    }

    /// The object that a name names as a whole.
    pub(crate) fn whole(&self, e: usize) -> Option<u32>
        ensures { result ≡ whole (tree self.now e) }
    {
        match self.rows.node(e) {
            TypedNode::Name { object, steps, .. } => self.whole_object(*object, *steps),
            _ => None,
        }
    }

    /// Adds the acts of the indexes of a name. Those of a traversal call stand at its own point.
    pub(crate) fn index_acts(&self, e: usize, to: &mut Vec<Planned>) -> Result<(), AllocError>
        ensures { OnOk result (Plans self.now to.old.items to.new.items (index_acts (site self.now) (tree self.now e))) }
    {
        match self.rows.node(e) {
            TypedNode::Name { steps, .. } => self.values(*steps, to),
            _ => Ok(()),
        }
    }

    /// Adds an act on a name, where there is one.
    pub(crate) fn naming(
        &self,
        found: Option<NameNode>,
        doing: Doing,
        to: &mut Vec<Planned>,
    ) -> Result<(), AllocError>
        ensures { OnOk result (Plans self.now to.old.items to.new.items (naming (written_found self.now found) (act_by (site self.now) doing))) }
    {
        if let Some(name) = found {
            to.push(Planned {
                pos: name.pos,
                object: name.object,
                steps: name.steps,
                doing,
            })?;
        }
        Ok(())
    }

    /// Adds the acts of a source that isn't read or moved: its indexes, and then what is done.
    pub(crate) fn source_acts(
        &self,
        e: usize,
        doing: Doing,
        to: &mut Vec<Planned>,
    ) -> Result<(), AllocError>
        ensures { OnOk result (Plans self.now to.old.items to.new.items (source_acts (site self.now) (tree self.now e) (act_by (site self.now) doing))) }
    {
        self.index_acts(e, to)?;
        self.naming(self.source(e), doing, to)
    }

    /// Adds those of a source that stands alone in a list.
    pub(crate) fn first_source_acts(
        &self,
        list: usize,
        doing: Doing,
        to: &mut Vec<Planned>,
    ) -> Result<(), AllocError>
        ensures { OnOk result (Plans self.now to.old.items to.new.items (source_acts (site self.now) (first (tree self.now list)) (act_by (site self.now) doing))) }
    {
        match self.rows.node(list) {
            TypedNode::More { first, .. } => self.source_acts(*first, doing, to),
            _ => Ok(()),
        }
    }

    /// Where the target of an assignment stands.
    pub(crate) fn target_pos(&self, pos: Pos, target: usize) -> Pos
        ensures { result ≡ target_pos pos (written (tree self.now target)) }
    {
        match self.rows.node(target) {
            TypedNode::Name { pos, .. } => *pos,
            _ => pos,
        }
    }

    /// Adds the act of an assignment to a borrower, where the source has a name.
    pub(crate) fn reborrow(
        &self,
        pos: Pos,
        borrower: u32,
        found: Option<NameNode>,
        to: &mut Vec<Planned>,
    ) -> Result<(), AllocError>
        ensures { OnOk result (Plans self.now to.old.items to.new.items (reborrow pos borrower (written_found self.now found))) }
    {
        if let Some(name) = found {
            to.push(Planned {
                pos,
                object: name.object,
                steps: name.steps,
                doing: Doing::Reborrow { borrower },
            })?;
        }
        Ok(())
    }
}
