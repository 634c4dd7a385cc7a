//! Names of places, made of nodes.
ghost use Rattle.std.specs.Prelude.{◌≡◌, ◌<◌, ◌≤◌, ◌++◌, ◌∷◌, [], Err, IfOk, IfSome, IsTrue, length};
ghost use Rattle.place_names.specs.Names.{extend};
ghost use Rattle.flow_paths.specs.Limits.{is_deep};
ghost use Rattle.flow_paths.specs.Names.{name_of, selectors};
ghost use Rattle.flow_acts.specs.declared.fault.ActFault.TheVariants.{TooDeep as Deep};
ghost use Rattle.flow_acts.specs.Plans.{tree};
ghost use Rattle.flow_acts.specs.Steps.{steps_from};

use crate::fault::ActFault;
use crate::writer::ActWriter;
use place_names::{PlaceName, Sel};
use spark_base::SELECTORS;
use std::alloc::AllocError;
use typed_tree::TypedNode;

/// A step of a name, and those after it.
#[derive(Clone, Copy)]
pub(crate) struct Step {
    pub sel: Sel,
    pub rest: usize,
}

/// Goes on from a place.
#[tactic(auto, using(crate::proofs::Deep::deep_step))]
pub(crate) fn extended(mut name: PlaceName, sels: &[Sel]) -> Result<PlaceName, ActFault>
    ensures ok { IfOk result (λ m. m ≡ extend name sels.now) }
    ensures deep { result ≡ Err Deep → IsTrue (is_deep (extend name sels.now)) }
{
    'sels: for sel in sels {
        name.push(*sel)?;
    }
    Ok(name)
}

/// Whether a name has too many selectors, as no `PlaceName` has.
pub(crate) fn is_deep(name: &PlaceName) -> bool
    ensures { result ≡ is_deep name.now }
{
    name.sels().len() > SELECTORS
}

impl<'p> ActWriter<'p> {
    /// The first of some steps.
    #[tactic(auto, unfolding(flow_paths::specs::Names::selectors))]
    fn step(&self, e: usize) -> Option<Step>
        ensures steps { selectors (tree self.now e) ≡ steps_from self.now result }
        ensures below { IfSome result (λ s. s.rest < e) }
    {
        match self.rows.node(e) {
            TypedNode::Component { number, rest } => Some(Step {
                sel: Sel::Field(*number),
                rest: *rest,
            }),
            TypedNode::Designated { rest } => Some(Step {
                sel: Sel::Deref,
                rest: *rest,
            }),
            TypedNode::Element { rest, .. } => Some(Step {
                sel: Sel::Elem,
                rest: *rest,
            }),
            _ => None,
        }
    }

    /// The name with these steps from an object. `TooDeep` comes where it has more than 16.
    #[tactic(auto, using(crate::proofs::Deep::deep_step))]
    pub(crate) fn name(&self, object: u32, steps: usize) -> Result<PlaceName, ActFault>
        ensures ok { IfOk result (λ m. m ≡ name_of object (tree self.now steps)) }
        ensures deep { result ≡ Err Deep → IsTrue (is_deep (name_of object (tree self.now steps))) }
    {
        let mut name = PlaceName::new(object);
        let mut at = steps;
        'steps: while let Some(step) = self.step(at) {
            name.push(step.sel)?;
            at = step.rest;
        }
        Ok(name)
    }
}
