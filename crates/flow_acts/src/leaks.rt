//! The leak checks of instructions.
ghost use Rattle.std.specs.Prelude.{◌≡◌, ◌+◌, ◌++◌, ◌∷◌, [], ℕ, Err, IfOk, IsTrue, List, OnOk, Option, false, length, map};
ghost use Rattle.type_definitions.specs.Types.{parts};
ghost use Rattle.place_names.specs.Names.{Name as PlaceName, object};
ghost use Rattle.place_names.specs.declared.act.Act.{Act};
ghost use Rattle.flow_paths.specs.Names.{written};
ghost use Rattle.flow_paths.specs.Limits.{is_deep};
ghost use Rattle.flow_paths.specs.Objects.{object_at, passings, sub_at};
ghost use Rattle.flow_paths.specs.Acts.{actual_act, actual_spots, call_spots, leaks_of, naming, spot};
ghost use Rattle.program_typing.specs.Passings.{passing_of};
ghost use Rattle.flow_acts.specs.declared.fault.ActFault.TheVariants.{TooDeep as Deep};
ghost use Rattle.flow_acts.specs.Depths.{deep_spots};
ghost use Rattle.flow_acts.specs.Frames.{frame, instruction, site};
ghost use Rattle.flow_acts.specs.Plans.{tree};
ghost use Rattle.flow_acts.specs.Spots.{all_call_spots, assign_spots, found_spots, looked_at, looked_type, node_spots, release_spots};
ghost use Rattle.flow_acts.specs.Ways.{ways_of};

use crate::fault::ActFault;
use crate::names::{extended, is_deep};
use crate::plan::{NameNode, Planned};
use crate::writer::ActWriter;
use flow_paths::{Instr, LeakSpot};
use place_names::{Mode, PlaceName, PlaceTail, Sel};
use program_typing::Passing;
use spark_base::{Listed, Pos};
use std::alloc::AllocError;
use typed_tree::TypedNode;

/// How many acts are planned.
fn counted(plan: &[Planned]) -> Result<u32, AllocError>
    ensures { IfOk result (λ n. n ≡ length plan.now) }
{
    match u32::try_from(plan.len()) {
        Ok(count) => Ok(count),
        Err(_) => Err(AllocError),
    }
}

/// One more.
fn following(before: u32) -> Result<u32, AllocError>
    ensures { IfOk result (λ n. n ≡ before + 1) }
{
    match before.checked_add(1) {
        Some(next) => Ok(next),
        None => Err(AllocError),
    }
}

/// Adds a leak check for each of these parts of a place.
#[tactic(auto, using(crate::proofs::DeepSpots::spot_deep))]
fn add_spots(
    pos: Pos,
    base: &PlaceName,
    before: u32,
    parts: &[PlaceTail],
    to: &mut Listed<LeakSpot>,
) -> Result<(), ActFault>
    ensures spots { OnOk result (to.new ≡ to.old ++ map (spot pos base.now before) parts.now) }
    ensures deep { result ≡ Err Deep → IsTrue (deep_spots (to.old ++ map (spot pos base.now before) parts.now)) }
{
    'parts: for part in parts {
        let name = extended(base.clone()?, part.sels())?;
        to.push(LeakSpot { pos, name, before })?;
    }
    Ok(())
}

/// Whether some leak check looks at a name that is too deep.
fn has_deep_spot(spots: &[LeakSpot]) -> bool
    ensures { result ≡ deep_spots spots.now }
{
    'spots: for spot in spots {
        if is_deep(&spot.name) {
            return true;
        }
    }
    false
}

impl<'p> ActWriter<'p> {
    /// The type of what a name of this type names, or of what that designates.
    fn looked_type(&self, behind: bool, t: u32) -> u32
        ensures { result ≡ looked_type self.now behind t }
    {
        if behind {
            return self.typing.designated(t);
        }
        t
    }

    /// What a name names, or what that designates.
    fn looked_at(&self, behind: bool, name: NameNode) -> Result<PlaceName, ActFault>
        ensures ok { IfOk result (λ m. m ≡ looked_at self.now behind name) }
        ensures deep { result ≡ Err Deep → IsTrue (is_deep (looked_at self.now behind name)) }
    {
        let place = self.name(name.object, name.steps)?;
        if behind {
            return extended(place, &[Sel::Deref]);
        }
        Ok(place)
    }

    /// Adds the leak checks of what a name names, or of what that designates.
    #[tactic(auto, using(crate::proofs::DeepSpots::base_deep))]
    pub(crate) fn node_spots(
        &self,
        behind: bool,
        name: NameNode,
        before: u32,
        to: &mut Listed<LeakSpot>,
    ) -> Result<(), ActFault>
        ensures spots { OnOk result (to.new ≡ to.old ++ node_spots self.now behind name before) }
        ensures deep { result ≡ Err Deep → IsTrue (deep_spots (to.old ++ node_spots self.now behind name before)) }
    {
        let parts = self.typing.access_parts(self.looked_type(behind, name.of));
        if parts.is_empty() {
            return Ok(());
        }
        let base = self.looked_at(behind, name)?;
        add_spots(name.pos, &base, before, parts, to)
    }

    /// The same where there is a name.
    fn found_spots(
        &self,
        behind: bool,
        found: Option<NameNode>,
        before: u32,
        to: &mut Listed<LeakSpot>,
    ) -> Result<(), ActFault>
        ensures spots { OnOk result (to.new ≡ to.old ++ found_spots self.now behind found before) }
        ensures deep { result ≡ Err Deep → IsTrue (deep_spots (to.old ++ found_spots self.now behind found before)) }
    {
        match found {
            Some(name) => self.node_spots(behind, name, before, to),
            None => Ok(()),
        }
    }

    /// Adds those of the target of an assignment.
    fn assigned_spots(
        &self,
        target: usize,
        e: usize,
        to: &mut Listed<LeakSpot>,
    ) -> Result<(), ActFault>
        ensures spots { OnOk result (to.new ≡ to.old ++ assign_spots self.now (tree self.now target) (tree self.now e)) }
        ensures deep { result ≡ Err Deep → IsTrue (deep_spots (to.old ++ assign_spots self.now (tree self.now target) (tree self.now e))) }
    {
        let mut plan = Vec::new(self.alloc);
        self.before_write(target, e, &mut plan)?;
        let before = counted(&plan)?;
        self.found_spots(false, self.written(target), before, to)
    }

    /// Adds those of what is freed.
    fn released_spots(&self, name: usize, to: &mut Listed<LeakSpot>) -> Result<(), ActFault>
        ensures spots { OnOk result (to.new ≡ to.old ++ release_spots self.now (tree self.now name)) }
        ensures deep { result ≡ Err Deep → IsTrue (deep_spots (to.old ++ release_spots self.now (tree self.now name))) }
    {
        let mut plan = Vec::new(self.alloc);
        self.index_acts(name, &mut plan)?;
        let before = counted(&plan)?;
        self.found_spots(true, self.written(name), before, to)
    }

    /// Adds those of an actual.
    fn actual_spots(
        &self,
        way: Passing,
        e: usize,
        before: u32,
        to: &mut Listed<LeakSpot>,
    ) -> Result<(), ActFault>
        ensures spots { OnOk result (to.new ≡ to.old ++ actual_spots (site self.now) (passing_of way) (tree self.now e) before) }
        ensures deep { result ≡ Err Deep → IsTrue (deep_spots (to.old ++ actual_spots (site self.now) (passing_of way) (tree self.now e) before)) }
    {
        match way {
            Passing::Place {
                mode: Mode::Out,
                ..
            } => self.found_spots(false, self.written(e), before, to),
            _ => Ok(()),
        }
    }

    /// The index after the act on a name, where there is one.
    fn behind_written(&self, e: usize, before: u32) -> Result<u32, AllocError>
        ensures { (a : PlaceName → Act) → IfOk result (λ n. n ≡ before + length (naming (written (tree self.now e)) a)) }
    {
        match self.written(e) {
            Some(_) => following(before),
            None => Ok(before),
        }
    }

    /// The index after the act of an actual.
    fn behind_actual(&self, way: Passing, e: usize, before: u32) -> Result<u32, AllocError>
        ensures { IfOk result (λ n. n ≡ before + length (actual_act (passing_of way) (tree self.now e))) }
    {
        match way {
            Passing::Place { .. } => self.behind_written(e, before),
            Passing::ByValue | Passing::Traversed => Ok(before),
        }
    }

    /// Adds those of all actuals.
    #[tactic(auto, using(crate::proofs::DeepSpots::spots_deep))]
    fn call_spots(
        &self,
        ways: &[Passing],
        actuals: usize,
        before: u32,
        to: &mut Listed<LeakSpot>,
    ) -> Result<(), ActFault>
        ensures spots { OnOk result (to.new ≡ to.old ++ call_spots (site self.now) (ways_of ways.now) (tree self.now actuals) before) }
        ensures deep { result ≡ Err Deep → IsTrue (deep_spots (to.old ++ call_spots (site self.now) (ways_of ways.now) (tree self.now actuals) before)) }
    {
        let mut at = actuals;
        let mut index = before;
        'ways: for way in ways {
            let TypedNode::More { first, rest } = self.rows.node(at) else {
                return Ok(());
            };
            self.actual_spots(*way, *first, index, to)?;
            index = self.behind_actual(*way, *first, index)?;
            at = *rest;
        }
        Ok(())
    }

    /// Adds those of a call.
    fn called_spots(
        &self,
        sub: u32,
        actuals: usize,
        to: &mut Listed<LeakSpot>,
    ) -> Result<(), ActFault>
        ensures spots { OnOk result (to.new ≡ to.old ++ all_call_spots self.now (passings (site self.now) (sub_at (site self.now) sub)) (tree self.now actuals)) }
        ensures deep { result ≡ Err Deep → IsTrue (deep_spots (to.old ++ all_call_spots self.now (passings (site self.now) (sub_at (site self.now) sub)) (tree self.now actuals))) }
    {
        let ways = self.typing.passings(self.alloc, sub)?;
        let mut plan = Vec::new(self.alloc);
        self.actual_values(&ways, actuals, &mut plan)?;
        let before = counted(&plan)?;
        self.call_spots(&ways, actuals, before, to)
    }

    /// Adds those of an object whose scope ends.
    fn ended_spots(&self, pos: Pos, x: u32, to: &mut Listed<LeakSpot>) -> Result<(), ActFault>
        ensures spots { OnOk result (to.new ≡ to.old ++ map (spot pos (object x) 0) (parts (site self.now).table (object_at (site self.now) x).of)) }
        ensures deep { result ≡ Err Deep → IsTrue (deep_spots (to.old ++ map (spot pos (object x) 0) (parts (site self.now).table (object_at (site self.now) x).of))) }
    {
        let parts = self.typing.access_parts(self.typing.object_type(x));
        add_spots(pos, &PlaceName::new(x), 0, parts, to)
    }

    /// Adds those of an instruction.
    fn add_leaks(&self, pos: Pos, instr: &Instr, to: &mut Listed<LeakSpot>) -> Result<(), ActFault>
        ensures spots { (given : Option ℕ) (roots : List ℕ) → OnOk result (to.new ≡ to.old ++ leaks_of (frame self.now given roots) pos (instruction self.now instr.now)) }
        ensures deep { (given : Option ℕ) (roots : List ℕ) → result ≡ Err Deep → IsTrue (deep_spots (to.old ++ leaks_of (frame self.now given roots) pos (instruction self.now instr.now))) }
    {
        match instr {
            Instr::Assign { target, source } => self.assigned_spots(*target, *source, to),
            Instr::Call { sub, actuals, .. } => self.called_spots(*sub, *actuals, to),
            Instr::Release { name } => self.released_spots(*name, to),
            Instr::EndScope { object } => self.ended_spots(pos, *object, to),
            _ => Ok(()),
        }
    }

    /// The leak checks of an instruction. `TooDeep` comes only where one looks at a name with more
    /// than 16 selectors, and then always.
    pub fn leaks_of(&self, pos: Pos, instr: &Instr) -> Result<Listed<LeakSpot>, ActFault>
        ensures leaks { (given : Option ℕ) (roots : List ℕ) → IfOk result (λ spots. spots ≡ leaks_of (frame self.now given roots) pos (instruction self.now instr.now)) }
        ensures within { IfOk result (λ spots. deep_spots spots ≡ false) }
        ensures deep { (given : Option ℕ) (roots : List ℕ) → result ≡ Err Deep → IsTrue (deep_spots (leaks_of (frame self.now given roots) pos (instruction self.now instr.now))) }
    {
        let mut spots = Listed::new(self.alloc);
        self.add_leaks(pos, instr, &mut spots)?;
        if has_deep_spot(spots.as_slice()) {
            return Err(ActFault::TooDeep);
        }
        Ok(spots)
    }
}
