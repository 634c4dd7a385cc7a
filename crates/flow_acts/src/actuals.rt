//! The acts of actuals.
ghost use Rattle.std.specs.Prelude.{◌≡◌, ◌++◌, OnOk};
ghost use Rattle.flow_paths.specs.Objects.{passings, sub_at};
ghost use Rattle.flow_paths.specs.Acts.{actual_act, actual_acts, actual_values};
ghost use Rattle.program_typing.specs.Passings.{passing_of};
ghost use Rattle.flow_acts.specs.Ways.{value_acts, ways_of};
ghost use Rattle.flow_acts.specs.Frames.{site};
ghost use Rattle.flow_acts.specs.Plans.{tree, Plans};

use crate::plan::{Doing, Planned};
use crate::writer::ActWriter;
use program_typing::Passing;
use std::alloc::AllocError;
use typed_tree::TypedNode;

impl<'p> ActWriter<'p> {
    /// Adds the acts by which an actual is evaluated.
    fn actual_value(&self, way: Passing, e: usize, to: &mut Vec<Planned>) -> Result<(), AllocError>
        ensures { OnOk result (Plans self.now to.old.items to.new.items (value_acts (site self.now) (passing_of way) (tree self.now e))) }
    {
        match way {
            Passing::ByValue => self.values(e, to),
            Passing::Traversed | Passing::Place { .. } => self.index_acts(e, to),
        }
    }

    /// Adds those of all actuals.
    #[tactic(auto, using(crate::proofs::Ways::values_more, crate::proofs::Ways::values_none))]
    pub(crate) fn actual_values(
        &self,
        ways: &[Passing],
        actuals: usize,
        to: &mut Vec<Planned>,
    ) -> Result<(), AllocError>
        ensures { OnOk result (Plans self.now to.old.items to.new.items (actual_values (site self.now) (ways_of ways.now) (tree self.now actuals))) }
    {
        let mut at = actuals;
        'ways: for way in ways {
            let TypedNode::More { first, rest } = self.rows.node(at) else {
                return Ok(());
            };
            self.actual_value(*way, *first, to)?;
            at = *rest;
        }
        Ok(())
    }

    /// Adds the act by which an actual is passed.
    fn actual_act(&self, way: Passing, e: usize, to: &mut Vec<Planned>) -> Result<(), AllocError>
        ensures { OnOk result (Plans self.now to.old.items to.new.items (actual_act (passing_of way) (tree self.now e))) }
    {
        match way {
            Passing::Place {
                mode,
                owning,
                access,
            } => self.naming(
                self.written(e),
                Doing::Actual {
                    mode,
                    owning,
                    access,
                },
                to,
            ),
            Passing::ByValue | Passing::Traversed => Ok(()),
        }
    }

    /// Adds those of all actuals.
    #[tactic(auto, using(crate::proofs::Ways::acts_more, crate::proofs::Ways::acts_none))]
    pub(crate) fn actual_acts(
        &self,
        ways: &[Passing],
        actuals: usize,
        to: &mut Vec<Planned>,
    ) -> Result<(), AllocError>
        ensures { OnOk result (Plans self.now to.old.items to.new.items (actual_acts (ways_of ways.now) (tree self.now actuals))) }
    {
        let mut at = actuals;
        'ways: for way in ways {
            let TypedNode::More { first, rest } = self.rows.node(at) else {
                return Ok(());
            };
            self.actual_act(*way, *first, to)?;
            at = *rest;
        }
        Ok(())
    }

    /// Adds the acts of a call: first the actuals are evaluated, and then they are passed.
    pub(crate) fn called(
        &self,
        sub: u32,
        actuals: usize,
        to: &mut Vec<Planned>,
    ) -> Result<(), AllocError>
        ensures { OnOk result (Plans self.now to.old.items to.new.items
            (actual_values (site self.now) (passings (site self.now) (sub_at (site self.now) sub)) (tree self.now actuals)
            ++ actual_acts (passings (site self.now) (sub_at (site self.now) sub)) (tree self.now actuals))) }
    {
        let ways = self.typing.passings(self.alloc, sub)?;
        self.actual_values(&ways, actuals, to)?;
        self.actual_acts(&ways, actuals, to)
    }
}
