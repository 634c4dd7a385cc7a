//! Acts, made of what is planned.
ghost use Rattle.std.specs.Prelude.{◌≡◌, ◌++◌, ◌∷◌, [], Err, IfOk, IsTrue, false};
ghost use Rattle.flow_paths.specs.Names.{name_of};
ghost use Rattle.flow_acts.specs.declared.fault.ActFault.TheVariants.{TooDeep as Deep};
ghost use Rattle.flow_acts.specs.Depths.{has_deep, is_deep_act};
ghost use Rattle.flow_acts.specs.Frames.{site};
ghost use Rattle.flow_acts.specs.Plans.{act_by, acts_by, tree};
ghost use Rattle.flow_paths.specs.Acts.{used};

use crate::depths::is_deep_act;
use crate::fault::ActFault;
use crate::plan::{Doing, Planned};
use crate::writer::ActWriter;
use place_names::{Act, PlaceName, Placed};
use spark_base::Listed;
use std::alloc::AllocError;

impl<'p> ActWriter<'p> {
    /// A name as a value of this type.
    fn used(&self, name: PlaceName, of: u32) -> Result<Act, AllocError>
        ensures { IfOk result (λ a. a ≡ used (site self.now) name of) }
    {
        if self.typing.is_owning(of) {
            let parts = self.typing.shared_parts(of)?;
            return Ok(Act::Move { name, parts });
        }
        Ok(Act::Read { name })
    }

    /// What is done to a name.
    fn done_to(&self, name: PlaceName, doing: Doing) -> Result<Act, AllocError>
        ensures { IfOk result (λ a. a ≡ act_by (site self.now) doing name) }
    {
        match doing {
            Doing::Use { of } => self.used(name, of),
            Doing::Look => Ok(Act::Look { name }),
            Doing::Write => Ok(Act::Write { name }),
            Doing::Borrow { holder } => Ok(Act::Borrow { holder, name }),
            Doing::Observe { holder } => Ok(Act::Observe {
                holder,
                from_observer: self.typing.is_observer(name.root()),
                name,
            }),
            Doing::Reborrow { borrower } => Ok(Act::Reborrow {
                borrower,
                source: name,
            }),
            Doing::Actual {
                mode,
                owning,
                access,
            } => Ok(Act::Actual {
                name,
                mode,
                owning,
                access,
            }),
            Doing::Free => Ok(Act::Free { name }),
            Doing::Give { borrows } => Ok(Act::Give { name, borrows }),
        }
    }

    /// The act that is planned. `TooDeep` comes where its name, or that of a fact that it adds, has
    /// more than 16 selectors.
    #[tactic(auto, using(crate::proofs::Deep::deep_act))]
    pub(crate) fn made(&self, planned: Planned) -> Result<Act, ActFault>
        ensures ok { IfOk result (λ a. a ≡ act_by (site self.now) planned.doing (name_of planned.object (tree self.now planned.steps))) }
        ensures within { IfOk result (λ a. is_deep_act a ≡ false) }
        ensures deep { result ≡ Err Deep → IsTrue (is_deep_act (act_by (site self.now) planned.doing (name_of planned.object (tree self.now planned.steps)))) }
    {
        let name = self.name(planned.object, planned.steps)?;
        let act = self.done_to(name, planned.doing)?;
        if is_deep_act(&act) {
            return Err(ActFault::TooDeep);
        }
        Ok(act)
    }

    /// The acts that are planned, or `TooDeep` where one of them is too deep.
    #[tactic(auto, using(crate::proofs::Deep::deep_some, crate::proofs::Deep::deep_none))]
    pub(crate) fn made_all(&self, plan: &[Planned]) -> Result<Listed<Placed>, ActFault>
        ensures ok { IfOk result (λ acts. acts ≡ acts_by self.now plan.now) }
        ensures within { IfOk result (λ acts. has_deep acts ≡ false) }
        ensures deep { result ≡ Err Deep → IsTrue (has_deep (acts_by self.now plan.now)) }
    {
        let mut acts = Listed::new(self.alloc);
        'plan: for planned in plan {
            let act = self.made(*planned)?;
            acts.push(Placed {
                pos: planned.pos,
                act,
            })?;
        }
        Ok(acts)
    }
}
