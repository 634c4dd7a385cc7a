//! The words of an object without a value.
ghost use Rattle.std.specs.Prelude.{◌≡◌, ◌≤◌, ◌++◌, length, map, slice_get, OnOk, nat_eq, pos, if◌then◌else◌};
ghost use Rattle.type_definitions.specs.Types.{shape_found};
ghost use Rattle.type_definitions.specs.Entries.{integer};
ghost use Rattle.machine.specs.Words.{default_within};
ghost use Rattle.run_codes.specs.Flat.{untagged, default_words, repeated};
ghost use Rattle.type_words.specs.Parts.{fields_words, shape_words};

use crate::repeats::repeat_words;
use crate::spans::span;
use std::alloc::AllocError;
use type_definitions::{Component, Shape};
use type_table::TypeTable;

/// The declaration of Integer.
const INTEGER: u32 = 0;

/// Appends the words of the components of a record without a value.
#[cycle(defaults)]
#[tactic(auto, using(crate::proofs::Parts::fields_words_next))]
fn push_fields(
    table: &TypeTable,
    room: usize,
    components: &[Component],
    words: &mut Vec<i64>,
) -> Result<(), AllocError>
    requires { room ≤ length table.now }
    ensures { OnOk result (words.new.items ≡ words.old.items ++ fields_words (default_within room table.now) components.now) }
{
    'components: for component in components {
        push_within(table, room, component.of, words)?;
    }
    Ok(())
}

/// Appends the words of so many elements without a value.
#[cycle(defaults)]
#[tactic(auto, using(crate::proofs::Parts::no_repeated_words))]
fn push_elements(
    table: &TypeTable,
    room: usize,
    count: u64,
    element: u32,
    words: &mut Vec<i64>,
) -> Result<(), AllocError>
    requires { room ≤ length table.now }
    ensures { OnOk result (words.new.items ≡ words.old.items ++ repeated count (map untagged (default_within room table.now element))) }
{
    if count == 0 {
        return Ok(());
    }
    if table.words(element) == 0 {
        return Ok(());
    }
    let first = words.len();
    push_within(table, room, element, words)?;
    repeat_words(words, first, count - 1)
}

/// Appends the words of an object without a value, of a type that is nested no deeper than there is
/// room.
/// What has no words isn't looked into.
#[cycle(defaults)]
#[tactic(auto, using(crate::proofs::Parts::words_step, crate::proofs::Parts::no_default), unfolding(machine::specs::Words::default_within))]
fn push_within(
    table: &TypeTable,
    room: usize,
    t: u32,
    words: &mut Vec<i64>,
) -> Result<(), AllocError>
    requires { room ≤ length table.now }
    ensures { OnOk result (words.new.items ≡ words.old.items ++ map untagged (default_within room table.now t)) }
{
    if room == 0 {
        return Ok(());
    }
    if table.words(t) == 0 {
        return Ok(());
    }
    push_found(table, room - 1, t, words)
}

/// Appends the words of an object of a type without a value, by its definition.
#[cycle(defaults)]
fn push_found(
    table: &TypeTable,
    room: usize,
    t: u32,
    words: &mut Vec<i64>,
) -> Result<(), AllocError>
    requires { room ≤ length table.now }
    ensures { OnOk result (words.new.items ≡ words.old.items ++ shape_words (default_within room table.now) t (shape_found (slice_get table.now t))) }
{
    match table.infos().get(t as usize) {
        Some(info) => push_shape(table, room, t, &info.shape, words),
        None => Ok(()),
    }
}

/// Appends the words of an object of a definition without a value.
#[cycle(defaults)]
fn push_shape(
    table: &TypeTable,
    room: usize,
    t: u32,
    shape: &Shape,
    words: &mut Vec<i64>,
) -> Result<(), AllocError>
    requires { room ≤ length table.now }
    ensures { OnOk result (words.new.items ≡ words.old.items ++ shape_words (default_within room table.now) t shape.now) }
{
    match shape {
        Shape::Whole { low, .. } => words.push(lowest(t, *low))?,
        Shape::Listed { low, .. } => words.push(*low as i64)?,
        Shape::Access { .. } => words.push(0)?,
        Shape::Fields { components } => { push_fields(table, room, components.as_slice(), words)? }
        Shape::Elements { low, high, element } => {
            push_elements(table, room, span(*low, *high), *element, words)?
        }
        Shape::Same { of } => push_within(table, room, *of, words)?,
    }
    Ok(())
}

/// The word of an object of a whole type without a value.
fn lowest(t: u32, low: i32) -> i64
    ensures { result ≡ (if nat_eq t integer then pos 0 else low) }
{
    if t == INTEGER { 0 } else { low as i64 }
}

/// Appends the words of an object of a type without a value.
#[tactic(auto, unfolding(machine::specs::Words::default))]
pub fn push_defaults(table: &TypeTable, t: u32, words: &mut Vec<i64>) -> Result<(), AllocError>
    ensures { OnOk result (words.new.items ≡ words.old.items ++ default_words table.now t) }
{
    push_within(table, table.infos().len(), t, words)
}
