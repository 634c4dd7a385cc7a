//! The sentences on a whole program.
ghost use Rattle.std.specs.Prelude.{◌≡◌, ◌<◌, length, map, IfOk};
ghost use Rattle.std.specs.List.{All};
ghost use Rattle.resolved_tree.specs.Nodes.{code_at};
ghost use Rattle.type_definitions.specs.Faults.{noted};
ghost use Rattle.type_definitions.specs.Whole.{all_made, is_formless, main_faults, outside, sentence_faults, unit_faults};
ghost use Rattle.expression_types.specs.Here.{here};
ghost use Rattle.expression_rules.specs.Around.{context};

use crate::code::code_faults;
use crate::declared::has_none;
use crate::made::add_made;
use crate::same_profile::front_pos;
use expression_rules::Checker;
use expression_types::Reader;
use resolved_tree::CodeNode;
use spark_base::Listed;
use std::alloc::{AllocError, Global};
use type_definitions::{Fault, Made};
use type_settled::demand;

/// Whether a subprogram has no formals.
fn is_formless(reader: &Reader<'_>, front: usize) -> bool
    requires { front < length reader.now.rows.now.1 }
    ensures { result ≡ is_formless (code_at reader.now.rows.now front) }
{
    match reader.rows.code(front) {
        CodeNode::Front { formals, .. } => has_none(reader, *formals),
        _ => true,
    }
}

/// With the fault of a main procedure that has formals.
fn main_faults(checker: &Checker<'_>, found: Option<Fault>, unit: usize) -> Option<Fault>
    requires { unit < length checker.now.rows.now.1 }
    ensures { result ≡ noted found (main_faults (code_at checker.now.rows.now unit)) }
{
    let reader = checker.reader();
    match checker.rows.code(unit) {
        CodeNode::SubBody { front, .. } => {
            let holds = is_formless(&reader, *front);
            demand(found, 3, front_pos(&reader, *front), holds)
        }
        _ => found,
    }
}

/// With the faults of a unit.
#[tactic(auto, using(expression_rules::proofs::Noted::noted_append))]
fn unit_faults(
    alloc: Global,
    checker: &Checker<'_>,
    found: Option<Fault>,
    unit: usize,
) -> Result<Option<Fault>, AllocError>
    requires { unit < length checker.now.rows.now.1 }
    ensures { IfOk result (λ first. first ≡ noted found (unit_faults (context checker.now) (code_at checker.now.rows.now unit))) }
{
    let found = code_faults(alloc, checker, found, unit)?;
    Ok(main_faults(checker, found, unit))
}

/// The first fault, with those that units of a program break of K1 to K8. `checker` stands outside
/// of all packages and subprograms. Out of memory, nothing is known.
#[tactic(auto, using(expression_rules::proofs::Noted::noted_append, std::proofs::lemmas::Grind::common_steps), unfolding(type_definitions::specs::Whole::sentence_faults))]
pub fn sentence_faults(
    alloc: Global,
    checker: &Checker<'_>,
    found: Option<Fault>,
    units: &[usize],
) -> Result<Option<Fault>, AllocError>
    requires outside { context checker.now ≡ outside (context checker.now).known }
    requires units { All (λ u. u < length checker.now.rows.now.1) units.now }
    ensures { IfOk result (λ first. first ≡ noted found (sentence_faults (context checker.now).known (map (code_at checker.now.rows.now) units.now))) }
{
    let mut found = found;
    'units: for unit in units {
        found = unit_faults(alloc, checker, found, *unit)?;
    }
    Ok(found)
}

/// The types that the declarations of a program make, in order, and whether each breaks no
/// sentence. `checker` stands outside of all packages and subprograms.
#[tactic(auto, unfolding(type_definitions::specs::Whole::all_made))]
pub fn all_made(
    alloc: Global,
    checker: &Checker<'_>,
    units: &[usize],
) -> Result<Listed<Made>, AllocError>
    requires outside { context checker.now ≡ outside (context checker.now).known }
    requires units { All (λ u. u < length checker.now.rows.now.1) units.now }
    ensures { IfOk result (λ types. types ≡ all_made (context checker.now).known (map (code_at checker.now.rows.now) units.now)) }
{
    let mut types = Listed::new(alloc);
    'units: for unit in units {
        add_made(&mut types, checker, *unit)?;
    }
    Ok(types)
}
