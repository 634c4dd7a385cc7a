//! Names and lists, made of nodes.
ghost use Rattle.std.specs.Prelude.{◌≡◌, ◌<◌, ◌≤◌, ℕ, List, ◌∷◌, length, IfSome};
ghost use Rattle.spark_base.specs.declared.limits.TheConstants.{SELECTORS};
ghost use Rattle.typed_tree.specs.Nodes.{typed_at};
ghost use Rattle.flow_paths.specs.Names.{name_of, selectors};
ghost use Rattle.flow_paths.specs.Aliases.{passed};
ghost use Rattle.alias_rules.specs.Steps.{steps_from, passed_from};

use place_names::{PlaceName, Sel};
use typed_tree::{TypedNode, TypedRows};

/// A step of a name, and those after it.
#[derive(Clone, Copy)]
pub(crate) struct Step {
    pub sel: Sel,
    pub rest: usize,
}

/// The first of a list, and those after it.
#[derive(Clone, Copy)]
pub(crate) struct Cell {
    pub first: usize,
    pub rest: usize,
}

/// The first of some steps.
#[tactic(auto, using(crate::proofs::Nodes::past_steps), unfolding(flow_paths::specs::Names::selectors))]
fn first_step(rows: &TypedRows, at: usize) -> Option<Step>
    ensures steps { selectors (typed_at rows.now at) ≡ steps_from rows.now result }
    ensures below { IfSome result (λ s. s.rest < at) }
{
    if at >= rows.len() {
        return None;
    }
    match rows.node(at) {
        TypedNode::Component { number, rest } => Some(Step {
            sel: Sel::Field(*number),
            rest: *rest,
        }),
        TypedNode::Designated { rest } => Some(Step {
            sel: Sel::Deref,
            rest: *rest,
        }),
        TypedNode::Element { rest, .. } => Some(Step {
            sel: Sel::Elem,
            rest: *rest,
        }),
        _ => None,
    }
}

/// The name with these steps from an object, which are at most 16.
pub(crate) fn place(rows: &TypedRows, object: u32, steps: usize) -> PlaceName
    requires { length (selectors (typed_at rows.now steps)) ≤ SELECTORS }
    ensures { result ≡ name_of object (typed_at rows.now steps) }
{
    let mut name = PlaceName::new(object);
    let mut at = steps;
    'steps: while let Some(step) = first_step(rows, at) {
        let _ = name.push(step.sel);
        at = step.rest;
    }
    name
}

/// The first of a list of actuals, and those after it.
#[tactic(auto, using(crate::proofs::Nodes::past_actuals))]
pub(crate) fn first_cell(rows: &TypedRows, at: usize) -> Option<Cell>
    ensures { (x : ℕ) (formals : List ℕ) → passed (x ∷ formals) (typed_at rows.now at) ≡ passed_from rows.now x formals result }
{
    if at >= rows.len() {
        return None;
    }
    match rows.node(at) {
        TypedNode::More { first, rest } => Some(Cell {
            first: *first,
            rest: *rest,
        }),
        _ => None,
    }
}
