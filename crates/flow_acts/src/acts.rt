//! The acts of instructions.
ghost use Rattle.std.specs.Prelude.{◌≡◌, ◌∷◌, [], ℕ, Err, IfOk, IsTrue, List, false};
ghost use Rattle.place_names.specs.declared.act.Act.TheVariants as act;
ghost use Rattle.flow_paths.specs.Objects.{is_borrower};
ghost use Rattle.flow_paths.specs.Acts.{acts_of, placed};
ghost use Rattle.flow_acts.specs.declared.fault.ActFault.TheVariants.{TooDeep as Deep};
ghost use Rattle.flow_acts.specs.Depths.{deep_names, has_deep};
ghost use Rattle.flow_acts.specs.Frames.{frame, instruction, site};
ghost use Rattle.flow_acts.specs.NamedActs.{named_acts};

use crate::fault::ActFault;
use crate::writer::ActWriter;
use flow_paths::Instr;
use place_names::{Act, Placed};
use spark_base::{Listed, Pos};
use std::alloc::{AllocError, Global};

/// A copy of some numbers.
fn copied(alloc: Global, numbers: &[u32]) -> Result<Listed<u32>, AllocError>
    ensures { IfOk result (λ copy. copy ≡ numbers.now) }
{
    let mut copy = Listed::new(alloc);
    'numbers: for number in numbers {
        copy.push(*number)?;
    }
    Ok(copy)
}

impl<'p> ActWriter<'p> {
    /// One act alone.
    fn alone(&self, pos: Pos, act: Act) -> Result<Listed<Placed>, AllocError>
        ensures { IfOk result (λ acts. acts ≡ placed pos act ∷ []) }
    {
        let mut acts = Listed::new(self.alloc);
        acts.push(Placed { pos, act })?;
        Ok(acts)
    }

    /// The act of the end of a scope.
    fn ended(&self, pos: Pos, object: u32) -> Result<Listed<Placed>, AllocError>
        ensures { IfOk result (λ acts. acts ≡ placed pos (act.EndScope object (is_borrower (site self.now) object)) ∷ []) }
    {
        let borrower = self.typing.is_borrower(object);
        self.alone(pos, Act::EndScope { object, borrower })
    }

    /// The act of the end of a call, which looks at these objects.
    fn finished(&self, pos: Pos, roots: &[u32]) -> Result<Listed<Placed>, AllocError>
        ensures { IfOk result (λ acts. acts ≡ placed pos (act.Return roots.now) ∷ []) }
    {
        let roots = copied(self.alloc, roots)?;
        self.alone(pos, Act::Return { roots })
    }

    /// The acts of an instruction on names.
    fn named(&self, given: Option<u32>, pos: Pos, instr: &Instr) -> Result<Listed<Placed>, ActFault>
        ensures acts { (roots : List ℕ) → IfOk result (λ acts. acts ≡ named_acts (frame self.now given roots) pos (instruction self.now instr.now)) }
        ensures within { IfOk result (λ acts. has_deep acts ≡ false) }
        ensures deep { (roots : List ℕ) → result ≡ Err Deep → IsTrue (has_deep (named_acts (frame self.now given roots) pos (instruction self.now instr.now))) }
    {
        let mut plan = Vec::new(self.alloc);
        self.plan(given, pos, instr, &mut plan)?;
        self.made_all(&plan)
    }

    /// The acts of an instruction in a subprogram that gives a value of this type, where it is a
    /// function. The end of a call looks at `roots`, the formals and package objects that facts are
    /// rooted in. `TooDeep` comes only where a name of some act, or of a fact that it adds, has
    /// more than 16 selectors, and then always.
    pub fn acts_of(
        &self,
        given: Option<u32>,
        roots: &[u32],
        pos: Pos,
        instr: &Instr,
    ) -> Result<Listed<Placed>, ActFault>
        ensures acts { IfOk result (λ acts. acts ≡ acts_of (frame self.now given roots.now) pos (instruction self.now instr.now)) }
        ensures within { IfOk result (λ acts. deep_names (instruction self.now instr.now) acts ≡ false) }
        ensures deep { result ≡ Err Deep → IsTrue (deep_names (instruction self.now instr.now) (acts_of (frame self.now given roots.now) pos (instruction self.now instr.now))) }
    {
        match instr {
            Instr::EndScope { object } => Ok(self.ended(pos, *object)?),
            Instr::Finish => Ok(self.finished(pos, roots)?),
            _ => self.named(given, pos, instr),
        }
    }
}
