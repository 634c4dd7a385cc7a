//! The first broken sentence on types.
ghost use Rattle.std.specs.Prelude.{◌≡◌, ◌<◌, ◌↔◌, true, All, IfOk, IsTrue, length, map};
ghost use Rattle.name_resolve.specs.Inputs.{trees_of};
ghost use Rattle.resolved_tree.specs.Nodes.{code_at, HoldsAllCode};
ghost use Rattle.resolved_tree.specs.Trees.{Program};
ghost use Rattle.expression_rules.specs.Around.{context};
ghost use Rattle.type_definitions.specs.Refusals.{Judges, Says};
ghost use Rattle.type_definitions.specs.Whole.{fault_known, known_of, known_with, outside, type_fault};
ghost use Rattle.typing_steps.specs.Programs.{program_of, sentence_fault};

use crate::refused::{sentence_refusal, size_refusal};
use declaration_rules::{all_made, sentence_faults};
use expression_lowering::NumberIndex;
use expression_rules::Checker;
use name_resolve::Resolved;
use resolved_tree::Rows;
use std::alloc::{AllocError, Global};
use tree_lowering::lower;
use type_definitions::TypeRefusal;
use type_gather::gather;
use type_settled::{Settled, sizes};

/// The code of the files, in rows, by the numbers of its units in the order of their text. Out of
/// memory, the rows may have more nodes than before.
pub fn lowered(
    alloc: Global,
    resolved: &Resolved,
    rows: &mut Rows,
) -> Result<Vec<usize>, AllocError>
    ensures { IfOk result (λ units. HoldsAllCode rows.new units.items (program_of (trees_of resolved.now.files.items)).units) }
{
    let numbers = NumberIndex::new(alloc, &resolved.identified)?;
    let units = lower(alloc, &numbers, &resolved.files, rows)?;
    Ok(units)
}

/// What is settled of the declarations and types of a program. `rows` has its code, `units` are the
/// numbers of its units, and `count` is how many declarations it has, the predefined ones included.
#[tactic(auto, unfolding(type_definitions::specs::Whole::known_of))]
pub fn settled(
    alloc: Global,
    rows: &Rows,
    units: &[usize],
    count: usize,
) -> Result<Settled, AllocError>
    requires { All (λ u. u < length rows.now.1) units.now }
    ensures { IfOk result (λ made. made.known ≡ known_of (record { count = count; units = map (code_at rows.now) units.now })) }
{
    let known = gather(alloc, rows, units, count, false)?;
    let settled = Settled::new(alloc, known)?;
    Ok(settled)
}

/// The first fault of a program that doesn't follow from a mark that denotes no type, or from
/// bounds that aren't static.
fn check_causes(
    alloc: Global,
    rows: &Rows,
    units: &[usize],
    count: usize,
) -> Result<(), TypeRefusal>
    requires { All (λ u. u < length rows.now.1) units.now }
    ensures { let program : Program = record { count = count; units = map (code_at rows.now) units.now } in
        Judges result (fault_known (known_with true program) program.units) }
{
    let known = gather(alloc, rows, units, count, true)?;
    let settled = Settled::new(alloc, known)?;
    check_units(alloc, rows, &settled, units)
}

/// Whether it says that memory ran out.
fn is_memory(refusal: &TypeRefusal) -> bool
    ensures { IsTrue result ↔ (refusal.now ≡ TypeRefusal.Memory) }
{
    matches!(refusal, TypeRefusal::Memory)
}

/// The refusal of a program that breaks a sentence on types: what only follows from a fault isn't
/// told before that. `refusal` says the first fault with what follows.
pub fn told(
    alloc: Global,
    rows: &Rows,
    units: &[usize],
    count: usize,
    refusal: TypeRefusal,
) -> TypeRefusal
    requires units { All (λ u. u < length rows.now.1) units.now }
    requires said { let program : Program = record { count = count; units = map (code_at rows.now) units.now } in
        Says refusal (fault_known (known_of program) program.units) }
    ensures { Says result (type_fault (record { count = count; units = map (code_at rows.now) units.now })) }
{
    if is_memory(&refusal) {
        return refusal;
    }
    match check_causes(alloc, rows, units, count) {
        Ok(()) => refusal,
        Err(other) => other,
    }
}

/// Whether the units of a program break a sentence on types: the first one, Y1 to Y3 before K1 to
/// K8, and in the order of the text.
pub fn check_units(
    alloc: Global,
    rows: &Rows,
    settled: &Settled,
    units: &[usize],
) -> Result<(), TypeRefusal>
    requires { All (λ u. u < length rows.now.1) units.now }
    ensures { Judges result (fault_known settled.now.known (map (code_at rows.now) units.now)) }
{
    let checker = Checker {
        rows,
        settled,
        home: None,
        within: None,
        sub: None,
        in_loop: false,
        starts: false,
    };
    check_code(alloc, &checker, units)
}

/// The first broken sentence of units, Y1 to Y3 before K1 to K8.
fn check_code(alloc: Global, checker: &Checker<'_>, units: &[usize]) -> Result<(), TypeRefusal>
    requires outside { context checker.now ≡ outside (context checker.now).known }
    requires units { All (λ u. u < length checker.now.rows.now.1) units.now }
    ensures { Judges result (fault_known (context checker.now).known (map (code_at checker.now.rows.now) units.now)) }
{
    let made = all_made(alloc, checker, units)?;
    match sizes(alloc, checker.settled, made.as_slice(), None)? {
        Some(fault) => Err(size_refusal(fault.code, fault.pos)),
        None => check_sentences(alloc, checker, units),
    }
}

/// The first of K1 to K8 that units break.
fn check_sentences(alloc: Global, checker: &Checker<'_>, units: &[usize]) -> Result<(), TypeRefusal>
    requires outside { context checker.now ≡ outside (context checker.now).known }
    requires units { All (λ u. u < length checker.now.rows.now.1) units.now }
    ensures { Judges result (sentence_fault (context checker.now).known (map (code_at checker.now.rows.now) units.now)) }
{
    match sentence_faults(alloc, checker, None, units)? {
        Some(fault) => Err(sentence_refusal(fault.code, fault.pos)),
        None => Ok(()),
    }
}
