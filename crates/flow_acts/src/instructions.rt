//! The acts of instructions, as they are planned.
ghost use Rattle.std.specs.Prelude.{◌≡◌, ◌++◌, ℕ, List, OnOk};
ghost use Rattle.flow_paths.specs.Names.{whole};
ghost use Rattle.flow_paths.specs.Acts.{acts_in, assigned_to, before_write, declared_acts, gives_variable, returned_acts, stored_acts, whole_acts};
ghost use Rattle.flow_acts.specs.Frames.{frame, instruction, site};
ghost use Rattle.flow_acts.specs.NamedActs.{named_acts, reborrowed_acts};
ghost use Rattle.flow_acts.specs.Plans.{tree, Plans};

use crate::plan::{Doing, Planned};
use crate::writer::ActWriter;
use flow_paths::Instr;
use place_names::Mode;
use program_typing::is_borrowing;
use spark_base::Pos;
use std::alloc::AllocError;

impl<'p> ActWriter<'p> {
    /// Adds the acts of the declaration of an object.
    fn declared(&self, x: u32, value: usize, to: &mut Vec<Planned>) -> Result<(), AllocError>
        ensures { OnOk result (Plans self.now to.old.items to.new.items (declared_acts (site self.now) x (tree self.now value))) }
    {
        if self.typing.is_borrower(x) {
            return self.first_source_acts(value, Doing::Borrow { holder: x }, to);
        }
        if self.typing.is_observer(x) {
            return self.first_source_acts(value, Doing::Observe { holder: x }, to);
        }
        self.values(value, to)
    }

    /// Adds the acts of an assignment before the target gets the value.
    pub(crate) fn before_write(
        &self,
        target: usize,
        e: usize,
        to: &mut Vec<Planned>,
    ) -> Result<(), AllocError>
        ensures { OnOk result (Plans self.now to.old.items to.new.items (before_write (site self.now) (tree self.now target) (tree self.now e))) }
    {
        self.values(e, to)?;
        self.index_acts(target, to)
    }

    /// Adds the acts of an assignment by which the target gets a value.
    fn stored(&self, target: usize, e: usize, to: &mut Vec<Planned>) -> Result<(), AllocError>
        ensures { OnOk result (Plans self.now to.old.items to.new.items (stored_acts (site self.now) (tree self.now target) (tree self.now e))) }
    {
        self.before_write(target, e, to)?;
        self.naming(self.written(target), Doing::Write, to)
    }

    /// Adds the acts of an assignment to a borrower.
    fn reborrowed(
        &self,
        pos: Pos,
        x: u32,
        e: usize,
        to: &mut Vec<Planned>,
    ) -> Result<(), AllocError>
        ensures { OnOk result (Plans self.now to.old.items to.new.items (reborrowed_acts (site self.now) pos x (tree self.now e))) }
    {
        self.index_acts(e, to)?;
        self.reborrow(pos, x, self.source(e), to)
    }

    /// Adds the acts of an assignment to a whole object.
    fn whole_assigned(
        &self,
        pos: Pos,
        x: u32,
        target: usize,
        e: usize,
        to: &mut Vec<Planned>,
    ) -> Result<(), AllocError>
        ensures { OnOk result (Plans self.now to.old.items to.new.items (whole_acts (site self.now) pos x (tree self.now target) (tree self.now e))) }
    {
        if self.typing.is_borrower(x) {
            return self.reborrowed(self.target_pos(pos, target), x, e, to);
        }
        if self.typing.is_observer(x) {
            return self.source_acts(e, Doing::Observe { holder: x }, to);
        }
        self.stored(target, e, to)
    }

    /// Adds the acts of an assignment.
    fn assigned(
        &self,
        pos: Pos,
        target: usize,
        e: usize,
        to: &mut Vec<Planned>,
    ) -> Result<(), AllocError>
        ensures { OnOk result (Plans self.now to.old.items to.new.items (assigned_to (site self.now) pos (whole (tree self.now target)) (tree self.now target) (tree self.now e))) }
    {
        match self.whole(target) {
            Some(x) => self.whole_assigned(pos, x, target, e, to),
            None => self.stored(target, e, to),
        }
    }

    /// Whether what a traversal function gives is a variable.
    fn gives_variable(&self, given: Option<u32>) -> bool
        ensures { result ≡ gives_variable (site self.now) given }
    {
        match given {
            Some(t) => is_borrowing(self.typing.full(t)),
            None => false,
        }
    }

    /// Adds the acts of the value of a return.
    fn returned(
        &self,
        given: Option<u32>,
        value: usize,
        to: &mut Vec<Planned>,
    ) -> Result<(), AllocError>
        ensures { OnOk result (Plans self.now to.old.items to.new.items (returned_acts (site self.now) given (tree self.now value))) }
    {
        if self.typing.traverses(given) {
            let borrows = self.gives_variable(given);
            return self.first_source_acts(value, Doing::Give { borrows }, to);
        }
        self.values(value, to)
    }

    /// Adds the acts of the bounds of a loop.
    fn bounds(&self, low: usize, high: usize, to: &mut Vec<Planned>) -> Result<(), AllocError>
        ensures { OnOk result (Plans self.now to.old.items to.new.items (acts_in (site self.now) (tree self.now low) ++ acts_in (site self.now) (tree self.now high))) }
    {
        self.values(low, to)?;
        self.values(high, to)
    }

    /// Adds the acts of an instruction on names.
    pub(crate) fn plan(
        &self,
        given: Option<u32>,
        pos: Pos,
        instr: &Instr,
        to: &mut Vec<Planned>,
    ) -> Result<(), AllocError>
        ensures { (roots : List ℕ) → OnOk result (Plans self.now to.old.items to.new.items (named_acts (frame self.now given roots) pos (instruction self.now instr.now))) }
    {
        match instr {
            Instr::Declare { object, value } => self.declared(*object, *value, to),
            Instr::Assign { target, source } => self.assigned(pos, *target, *source, to),
            Instr::Call { sub, actuals, .. } => self.called(*sub, *actuals, to),
            Instr::Output { text, .. } => self.values(*text, to),
            Instr::Input { target } => self.source_acts(
                *target,
                Doing::Actual {
                    mode: Mode::Out,
                    owning: false,
                    access: false,
                },
                to,
            ),
            Instr::Release { name } => self.source_acts(*name, Doing::Free, to),
            Instr::Test { condition } => self.values(*condition, to),
            Instr::Choose { selector, .. } => self.values(*selector, to),
            Instr::Start { low, high, .. } => self.bounds(*low, *high, to),
            Instr::Evaluate { operand, .. } => self.values(*operand, to),
            Instr::LeaveLoop { condition } => self.values(*condition, to),
            Instr::Hold { value } => self.returned(given, *value, to),
            Instr::Skip
            | Instr::Next { .. }
            | Instr::EndScope { .. }
            | Instr::Finish
            | Instr::Fall => Ok(()),
        }
    }
}
