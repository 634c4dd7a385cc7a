//! Types measured in rounds.
ghost use Rattle.std.specs.Prelude.{◌≡◌, ◌<◌, ℕ, length, get_or, IfOk, IsTrue, map};
ghost use Rattle.type_settled.specs.Measures.{marked, nothing, part_in, info_measure, IsMeasured};

use crate::measure::{Measure, info_measure};
use std::alloc::{AllocError, Global};
use type_definitions::Info;

/// Measures all types by what was measured of their parts in the round before.
fn round(
    alloc: Global,
    table: &[Info],
    unsound: &[bool],
    values: &[Measure],
) -> Result<Vec<Measure>, AllocError>
    ensures { IfOk result (λ made. made.items ≡ map (info_measure (part_in unsound.now values.now)) table.now) }
{
    let mut made = Vec::new(alloc);
    'types: for info in table {
        made.push(info_measure(unsound, values, info))?;
    }
    Ok(made)
}

/// Whether two measures are the same.
#[tactic(auto, using(crate::proofs::Measured::same_measure))]
fn is_same(a: Measure, b: Measure) -> bool
    ensures { IsTrue result → a ≡ b }
{
    a.words == b.words && a.parts == b.parts && a.reach == b.reach && a.unsound == b.unsound
}

/// Whether the measures of all types are the same.
fn are_same(values: &[Measure], others: &[Measure]) -> bool
    ensures { IsTrue result → (t : ℕ) → get_or values.now t nothing ≡ get_or others.now t nothing }
{
    if values.len() != others.len() {
        return false;
    }
    let mut i = 0;
    'types: while i < values.len() {
        if !is_same(values[i], others[i]) {
            return false;
        }
        i += 1;
    }
    true
}

/// Measures all types in as many rounds as there are types, since no type is nested deeper, or
/// until a round changes nothing.
#[tactic(auto, using(crate::proofs::RoundSteps::round_first))]
pub fn rounds(alloc: Global, table: &[Info], unsound: &[bool]) -> Result<Vec<Measure>, AllocError>
    ensures { IfOk result (λ made. IsMeasured (marked unsound.now) table.now made.items) }
{
    let mut values = Vec::new(alloc);
    'rounds: for _round in 0..table.len() {
        let next = round(alloc, table, unsound, &values)?;
        if are_same(&values, &next) {
            return Ok(next);
        }
        values = next;
    }
    Ok(values)
}
