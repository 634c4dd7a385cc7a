//! The first type that exceeds a limit.
ghost use Rattle.std.specs.Prelude.{◌≡◌, ◌<◌, ◌&&◌, ℕ, List, All, IfOk, flat_map, length, min, nat_le};
ghost use Rattle.type_definitions.specs.declared.table.Made.{Made};
ghost use Rattle.type_definitions.specs.Types.{meant_type, full, words, parts};
ghost use Rattle.type_definitions.specs.Faults.{noted};
ghost use Rattle.type_definitions.specs.Whole.{is_unsound, has_elements, made_faults, size_faults};
ghost use Rattle.type_settled.specs.Measures.{reach, marked, AreEnough};
ghost use Rattle.type_settled.specs.Skips.{marked_with, skips};

use crate::faults::demand;
use crate::measure::{Measure, is_marked};
use crate::measures::{Measures, measure_in, measured};
use crate::settled::Settled;
use spark_base::{ACCESS_PARTS, Pos, SELECTORS, TYPE_WORDS};
use std::alloc::{AllocError, Global};
use type_definitions::{Fault, Info, Made, Shape};

/// One more than the greatest number of these types.
fn end(made: &[Made]) -> usize
    ensures { All (λ m. m.number < result) made.now }
{
    let mut end = 0;
    'made: for m in made {
        end = end.max(m.number as usize + 1);
    }
    end
}

/// Marks a type whose declaration breaks a sentence.
fn mark(marks: &mut Vec<bool>, m: Made)
    requires { m.number < length marks.old.items }
    ensures { marks.new.items ≡ marked_with m marks.old.items }
{
    if !m.sound {
        marks[m.number as usize] = true;
    }
}

/// The types whose declarations break a sentence.
fn unsound(alloc: Global, made: &[Made]) -> Result<Vec<bool>, AllocError>
    ensures { IfOk result (λ marks. (t : ℕ) → marked marks.items t ≡ is_unsound made.now t) }
{
    let mut marks = vec![in alloc; false; end(made)]?;
    'made: for m in made {
        mark(&mut marks, *m);
    }
    Ok(marks)
}

/// The type that is meant by a subtype without a constraint.
fn meant_type(table: &[Info], t: u32) -> u32
    ensures { result ≡ meant_type table.now t }
{
    match table.get(t as usize) {
        Some(info) => match &info.shape {
            Shape::Same { of } => *of,
            _ => t,
        },
        None => t,
    }
}

/// Whether a type is no array without an element.
fn has_elements(table: &[Info], t: u32) -> bool
    ensures { result ≡ has_elements (full table.now t) }
{
    match table.get(meant_type(table, t) as usize) {
        Some(info) => match info.shape {
            Shape::Elements {
                low,
                high,
                element: _,
            } => low <= high,
            _ => true,
        },
        None => true,
    }
}

/// Whether a type has no more access parts than it may have, and none that is too long.
fn has_short_parts(measure: Measure) -> bool
    ensures { result ≡ nat_le measure.parts 64 && nat_le measure.reach 17 }
{
    measure.parts as usize <= ACCESS_PARTS && measure.reach as usize <= SELECTORS + 1
}

/// The first fault, with those of the size of a type.
fn size_faults(
    found: Option<Fault>,
    table: &[Info],
    measure: Measure,
    pos: Pos,
    t: u32,
) -> Option<Fault>
    requires words { measure.words ≡ min 65537 (words table.now t) }
    requires parts { measure.parts ≡ min 65 (length (parts table.now t)) }
    requires reach { measure.reach ≡ min 18 (reach (parts table.now t)) }
    ensures { result ≡ noted found (size_faults table.now pos t) }
{
    let words = demand(found, 1, pos, measure.words <= TYPE_WORDS);
    let parts = demand(words, 2, pos, has_short_parts(measure));
    demand(parts, 3, pos, has_elements(table, t))
}

/// Whether a type isn't looked at: it is a subtype, or unsound, or an unsound type is in it.
fn skips(unsound: &[bool], measure: Measure, m: Made) -> bool
    ensures { result ≡ skips unsound.now measure m }
{
    !m.full || is_marked(unsound, m.number as usize) || measure.unsound
}

/// The first fault, with those of a type that a declaration makes.
fn made_faults(
    found: Option<Fault>,
    table: &[Info],
    unsound: &[bool],
    measures: &Measures,
    m: Made,
) -> Option<Fault>
    requires { AreEnough (marked unsound.now) table.now measures.now }
    ensures { (all : List Made) → ((t : ℕ) → marked unsound.now t ≡ is_unsound all t)
        → result ≡ noted found (made_faults table.now all m) }
{
    let measure = measure_in(measures, m.number);
    if skips(unsound, measure, m) {
        return found;
    }
    size_faults(found, table, measure, m.pos, m.number)
}

/// The first fault, with those of the sizes of all types that declarations make (Y1 to Y3).
pub fn sizes(
    alloc: Global,
    settled: &Settled,
    made: &[Made],
    found: Option<Fault>,
) -> Result<Option<Fault>, AllocError>
    ensures { IfOk result (λ r. r
        ≡ noted found (flat_map (made_faults settled.now.known.table made.now) made.now)) }
{
    let table = settled.known.table.as_slice();
    let unsound = unsound(alloc, made)?;
    let measures = measured(alloc, table, &unsound)?;
    let mut found = found;
    'made: for m in made {
        found = made_faults(found, table, &unsound, &measures, *m);
    }
    Ok(found)
}
