//! The kinds of the words of a type.
ghost use Rattle.std.specs.Prelude.{◌≡◌, ◌≤◌, ◌++◌, length, map, slice_get, OnOk};
ghost use Rattle.type_definitions.specs.Types.{shape_found};
ghost use Rattle.machine.specs.Typed.{sorts_within};
ghost use Rattle.run_codes.specs.Flat.{kind_of, kinds as kinds_of};
ghost use Rattle.type_words.specs.Parts.{fields_kinds, repeated_kinds, shape_kinds};

use crate::repeats::repeat;
use crate::spans::span;
use run_values::Kind;
use std::alloc::AllocError;
use type_definitions::{Component, Shape};
use type_table::TypeTable;

/// Appends the kinds of the words of the components of a record.
#[cycle(kinds)]
#[tactic(auto, using(crate::proofs::Parts::fields_kinds_next))]
fn push_fields(
    table: &TypeTable,
    room: usize,
    components: &[Component],
    kinds: &mut Vec<Kind>,
) -> Result<(), AllocError>
    requires { room ≤ length table.now }
    ensures { OnOk result (kinds.new.items ≡ kinds.old.items ++ fields_kinds (sorts_within room table.now) components.now) }
{
    'components: for component in components {
        push_within(table, room, component.of, kinds)?;
    }
    Ok(())
}

/// Appends the kinds of the words of so many elements.
#[cycle(kinds)]
#[tactic(auto, using(crate::proofs::Parts::no_repeated_kinds))]
fn push_elements(
    table: &TypeTable,
    room: usize,
    count: u64,
    element: u32,
    kinds: &mut Vec<Kind>,
) -> Result<(), AllocError>
    requires { room ≤ length table.now }
    ensures { OnOk result (kinds.new.items ≡ kinds.old.items ++ repeated_kinds count (map kind_of (sorts_within room table.now element))) }
{
    if count == 0 {
        return Ok(());
    }
    if table.words(element) == 0 {
        return Ok(());
    }
    let first = kinds.len();
    push_within(table, room, element, kinds)?;
    repeat(kinds, first, count - 1)
}

/// Appends the kinds of the words of a type, whose definition is nested no deeper than there is room.
/// What has no words isn't looked into.
#[cycle(kinds)]
#[tactic(auto, using(crate::proofs::Parts::kinds_step, crate::proofs::Parts::no_kinds), unfolding(machine::specs::Typed::sorts_within))]
fn push_within(
    table: &TypeTable,
    room: usize,
    t: u32,
    kinds: &mut Vec<Kind>,
) -> Result<(), AllocError>
    requires { room ≤ length table.now }
    ensures { OnOk result (kinds.new.items ≡ kinds.old.items ++ map kind_of (sorts_within room table.now t)) }
{
    if room == 0 {
        return Ok(());
    }
    if table.words(t) == 0 {
        return Ok(());
    }
    push_found(table, room - 1, t, kinds)
}

/// Appends the kinds of the words of a type, by its definition.
#[cycle(kinds)]
fn push_found(
    table: &TypeTable,
    room: usize,
    t: u32,
    kinds: &mut Vec<Kind>,
) -> Result<(), AllocError>
    requires { room ≤ length table.now }
    ensures { OnOk result (kinds.new.items ≡ kinds.old.items ++ shape_kinds (sorts_within room table.now) (shape_found (slice_get table.now t))) }
{
    match table.infos().get(t as usize) {
        Some(info) => push_shape(table, room, &info.shape, kinds),
        None => Ok(()),
    }
}

/// Appends the kinds of the words of a definition.
#[cycle(kinds)]
fn push_shape(
    table: &TypeTable,
    room: usize,
    shape: &Shape,
    kinds: &mut Vec<Kind>,
) -> Result<(), AllocError>
    requires { room ≤ length table.now }
    ensures { OnOk result (kinds.new.items ≡ kinds.old.items ++ shape_kinds (sorts_within room table.now) shape.now) }
{
    match shape {
        Shape::Whole { .. } => kinds.push(Kind::Int)?,
        Shape::Listed { .. } => kinds.push(Kind::Enum)?,
        Shape::Access { .. } => kinds.push(Kind::Access)?,
        Shape::Fields { components } => { push_fields(table, room, components.as_slice(), kinds)? }
        Shape::Elements { low, high, element } => {
            push_elements(table, room, span(*low, *high), *element, kinds)?
        }
        Shape::Same { of } => push_within(table, room, *of, kinds)?,
    }
    Ok(())
}

/// Appends the kinds of the words of a type.
#[tactic(auto, unfolding(machine::specs::Typed::sorts))]
pub fn push_kinds(table: &TypeTable, t: u32, kinds: &mut Vec<Kind>) -> Result<(), AllocError>
    ensures { OnOk result (kinds.new.items ≡ kinds.old.items ++ kinds_of table.now t) }
{
    push_within(table, table.infos().len(), t, kinds)
}
