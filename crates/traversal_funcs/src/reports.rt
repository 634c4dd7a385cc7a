//! The reports of V1 to V4.
ghost use Rattle.std.specs.Prelude.{◌≡◌, ◌++◌, map, OnOk};
ghost use Rattle.flow_paths.specs.Reports.{report_of};
ghost use Rattle.flow_paths.specs.Stands.{flow_point_of};
ghost use Rattle.flow_paths.specs.Views.{text_report};
ghost use Rattle.traversal_funcs.specs.Instructions.{instruction};
ghost use Rattle.traversal_funcs.specs.Lists.{told, changed_reports, actual_reports, borrowed_reports, observed_reports, given_reports, reborrowed_reports, act_reports, acts_reports, called_by, call_reports, point_reports, points_reports};

use crate::instructions::{is_assignment, procedure, source_pos, writes_text};
use crate::scopes::encloses;
use crate::views::Views;
use flow_paths::{Effects, Instr, Point, Report};
use place_names::{Act, Mode, PlaceName, Placed, Rule};
use spark_base::Pos;
use std::alloc::AllocError;

/// Adds a report where there is one.
fn tell(
    when: bool,
    pos: Pos,
    rule: Rule,
    name: &PlaceName,
    to: &mut Vec<Report>,
) -> Result<(), AllocError>
    ensures { OnOk result (map report_of to.new.items ≡ map report_of to.old.items ++ told when (text_report pos rule name.now)) }
{
    if when {
        let name = name.clone()?;
        to.push(Report {
            pos,
            rule,
            name,
            state: None,
        })?;
    }
    Ok(())
}

impl<'p> Views<'p> {
    /// What is reported of a name that is changed.
    fn changed(&self, pos: Pos, name: &PlaceName, to: &mut Vec<Report>) -> Result<(), AllocError>
        ensures { OnOk result (map report_of to.new.items ≡ map report_of to.old.items ++ changed_reports self.now pos name.now) }
    {
        let selected = !name.sels().is_empty();
        tell(
            self.is_constant(name.root(), selected),
            pos,
            Rule::V1,
            name,
            to,
        )
    }

    /// What is reported of an actual.
    fn actual(
        &self,
        pos: Pos,
        name: &PlaceName,
        mode: Mode,
        access: bool,
        to: &mut Vec<Report>,
    ) -> Result<(), AllocError>
        ensures { OnOk result (map report_of to.new.items ≡ map report_of to.old.items ++ actual_reports self.now pos name.now mode access) }
    {
        match mode {
            Mode::In => {
                let lent = access && self.is_constant(name.root(), true);
                tell(lent, pos, Rule::V1, name, to)
            }
            Mode::Out | Mode::InOut => self.changed(pos, name, to),
        }
    }

    /// What is reported of the source of a borrower.
    fn borrowed(&self, pos: Pos, name: &PlaceName, to: &mut Vec<Report>) -> Result<(), AllocError>
        ensures { OnOk result (map report_of to.new.items ≡ map report_of to.old.items ++ borrowed_reports self.now pos name.now) }
    {
        let root = name.root();
        let lent = self.is_constant(root, true) && !self.may_borrow(root);
        tell(lent, pos, Rule::V1, name, to)
    }

    /// What is reported of a source of an observer: of that of an assignment, whether its scope
    /// ends before the observer's.
    fn observed(
        &self,
        instr: &Instr,
        pos: Pos,
        holder: u32,
        name: &PlaceName,
        to: &mut Vec<Report>,
    ) -> Result<(), AllocError>
        ensures { OnOk result (map report_of to.new.items ≡ map report_of to.old.items ++ observed_reports self.now (instruction self.now.rows.now instr.now) pos holder name.now) }
    {
        let source = self.known.object_scope(name.root());
        let own = self.known.object_scope(holder);
        let shorter = is_assignment(self.rows, instr) && !encloses(self.scopes, source, own);
        tell(shorter, pos, Rule::V2, name, to)
    }

    /// What is reported of a name that a traversal function gives.
    fn given(
        &self,
        pos: Pos,
        name: &PlaceName,
        borrows: bool,
        to: &mut Vec<Report>,
    ) -> Result<(), AllocError>
        ensures { OnOk result (map report_of to.new.items ≡ map report_of to.old.items ++ given_reports self.now pos name.now borrows) }
    {
        let root = name.root();
        let observed = borrows && self.known.is_observer(root);
        tell(observed, pos, Rule::V1, name, to)?;
        tell(!self.is_given(root), pos, Rule::V3, name, to)
    }

    /// What is reported of a name that a borrower is assigned from.
    fn reborrowed(
        &self,
        instr: &Instr,
        pos: Pos,
        borrower: u32,
        name: &PlaceName,
        to: &mut Vec<Report>,
    ) -> Result<(), AllocError>
        ensures { OnOk result (map report_of to.new.items ≡ map report_of to.old.items ++ reborrowed_reports (instruction self.now.rows.now instr.now) pos borrower name.now) }
    {
        let at = source_pos(self.rows, instr, pos);
        tell(name.root() != borrower, at, Rule::V4, name, to)
    }

    /// What is reported of an act.
    fn act(&self, instr: &Instr, placed: &Placed, to: &mut Vec<Report>) -> Result<(), AllocError>
        ensures { OnOk result (map report_of to.new.items ≡ map report_of to.old.items ++ act_reports self.now (instruction self.now.rows.now instr.now) placed.now.pos placed.now.act) }
    {
        let pos = placed.pos;
        match &placed.act {
            Act::Write { name } | Act::Move { name, .. } | Act::Free { name } => {
                self.changed(pos, name, to)
            }
            Act::Actual {
                name,
                mode,
                access,
                ..
            } => self.actual(pos, name, *mode, *access, to),
            Act::Borrow { name, .. } => self.borrowed(pos, name, to),
            Act::Observe { holder, name, .. } => self.observed(instr, pos, *holder, name, to),
            Act::Give { name, borrows } => self.given(pos, name, *borrows, to),
            Act::Reborrow { borrower, source } => {
                self.reborrowed(instr, pos, *borrower, source, to)
            }
            _ => Ok(()),
        }
    }

    /// What is reported of the acts of a point.
    fn acts(&self, point: &Point, to: &mut Vec<Report>) -> Result<(), AllocError>
        ensures { OnOk result (map report_of to.new.items ≡ map report_of to.old.items ++ acts_reports self.now (flow_point_of self.now.rows.now point.now)) }
    {
        'acts: for placed in point.acts.as_slice() {
            self.act(&point.instr, placed, to)?;
        }
        Ok(())
    }

    /// What is reported of the call of a procedure in a function.
    fn called(
        &self,
        effects: &Effects,
        point: &Point,
        to: &mut Vec<Report>,
    ) -> Result<(), AllocError>
        ensures { OnOk result (map report_of to.new.items ≡ map report_of to.old.items ++ call_reports self.now effects.now (flow_point_of self.now.rows.now point.now)) }
    {
        if !self.function {
            return Ok(());
        }
        'written: for g in written(effects, procedure(self.rows, &point.instr)) {
            tell(true, point.pos, Rule::V1, &PlaceName::new(*g), to)?;
        }
        Ok(())
    }

    /// What is reported of a point.
    fn point(
        &self,
        effects: &Effects,
        point: &Point,
        to: &mut Vec<Report>,
    ) -> Result<(), AllocError>
        ensures { OnOk result (map report_of to.new.items ≡ map report_of to.old.items ++ point_reports self.now effects.now (flow_point_of self.now.rows.now point.now)) }
    {
        self.acts(point, to)?;
        self.called(effects, point, to)?;
        let text = self.function && writes_text(self.rows, &point.instr);
        tell(text, point.pos, Rule::V1, &PlaceName::new(0), to)
    }

    /// What is reported of a subprogram.
    pub(crate) fn points(
        &self,
        effects: &Effects,
        points: &[Point],
        to: &mut Vec<Report>,
    ) -> Result<(), AllocError>
        ensures { OnOk result (map report_of to.new.items ≡ map report_of to.old.items ++ points_reports self.now effects.now (map (flow_point_of self.now.rows.now) points.now)) }
    {
        'points: for point in points {
            self.point(effects, point, to)?;
        }
        Ok(())
    }
}

/// The package objects, and Ada.Text_IO, that the procedure writes which is called.
fn written(effects: &Effects, callee: Option<u32>) -> &[u32]
    ensures { result.now ≡ called_by effects.now callee }
{
    match callee {
        Some(sub) => match effects.written.as_slice().get(sub as usize) {
            Some(objects) => objects.as_slice(),
            None => &[],
        },
        None => &[],
    }
}
