//! At which words of a type its access parts stand.
ghost use Rattle.std.specs.Prelude.{◌≡◌, ◌+◌, ◌++◌, ◌∷◌, map, sum, take, OnOk, IfOk};
ghost use Rattle.place_names.specs.declared.selector.Sel.{Sel};
ghost use Rattle.machine.specs.Words as machine;
ghost use Rattle.machine.specs.Words.{in_each, offsets as offsets_of, access_offsets, component_type};
ghost use Rattle.type_definitions.specs.Types as types;
ghost use Rattle.type_definitions.specs.Types.{words};
ghost use Rattle.type_words.specs.Parts.{offsets_from};

use crate::spans::span;
use place_names::Sel;
use std::alloc::AllocError;
use type_definitions::{Component, Shape};
use type_table::TypeTable;

/// The declaration of Integer.
const INTEGER: u32 = 0;

/// The sum of two offsets. One beyond four billion counts as too little memory.
fn plus(a: u32, b: u32) -> Result<u32, AllocError>
    ensures { IfOk result (λ c. c ≡ a + b) }
{
    match a.checked_add(b) {
        Some(c) => Ok(c),
        None => Err(AllocError),
    }
}

/// The components of a record; none of another type.
fn fields(table: &TypeTable, t: u32) -> &[Component]
    ensures { result.now ≡ types.fields table.now t }
{
    if t as usize >= table.infos().len() {
        return &[];
    }
    match table.shape(t) {
        Shape::Fields { components } => components.as_slice(),
        _ => &[],
    }
}

/// How many elements an array has; none of another type.
fn element_count(table: &TypeTable, t: u32) -> u64
    ensures { result ≡ machine.element_count table.now t }
{
    if t as usize >= table.infos().len() {
        return 0;
    }
    match table.shape(t) {
        Shape::Elements { low, high, .. } => span(*low, *high),
        _ => 0,
    }
}

/// The type of the elements of an array; Integer of another type.
fn element_type(table: &TypeTable, t: u32) -> u32
    ensures { result ≡ machine.element_type table.now t }
{
    if t as usize >= table.infos().len() {
        return INTEGER;
    }
    match table.shape(t) {
        Shape::Elements { element, .. } => *element,
        _ => INTEGER,
    }
}

/// The words of some components.
fn fields_words(table: &TypeTable, components: &[Component]) -> Result<u32, AllocError>
    ensures { IfOk result (λ all. all ≡ sum (map (λ c. words table.now c.of) components.now)) }
{
    let mut all = 0u32;
    'components: for component in components {
        all = plus(all, table.words(component.of))?;
    }
    Ok(all)
}

/// How many words stand before a component.
#[tactic(auto, using(std::proofs::lemmas::List::take_all))]
fn words_before(table: &TypeTable, t: u32, i: u32) -> Result<u32, AllocError>
    ensures { IfOk result (λ before. before ≡ machine.words_before table.now t i) }
{
    let components = fields(table, t);
    let count = i as usize;
    if count < components.len() {
        fields_words(table, &components[..count])
    } else {
        fields_words(table, components)
    }
}

/// The type of a component; Integer where there is none.
fn component_type(table: &TypeTable, t: u32, i: u32) -> u32
    ensures { result ≡ component_type table.now t i }
{
    match fields(table, t).get(i as usize) {
        Some(component) => component.of,
        None => INTEGER,
    }
}

/// Appends at which words a part of a component stands.
#[cycle(offsets)]
#[tactic(auto, using(crate::proofs::Parts::field_offsets), unfolding(machine::specs::Words::offsets))]
fn push_field(
    table: &TypeTable,
    t: u32,
    i: u32,
    rest: &[Sel],
    at: u32,
    offsets: &mut Vec<u32>,
) -> Result<(), AllocError>
    ensures { OnOk result (offsets.new.items ≡ offsets.old.items ++ offsets_from table.now at t (Sel.Field i ∷ rest.now)) }
{
    let before = words_before(table, t, i)?;
    let at = plus(at, before)?;
    push_part(table, component_type(table, t, i), rest, at, offsets)
}

/// Appends at which words a part of each of so many elements stands.
#[cycle(offsets)]
#[tactic(auto, using(crate::proofs::Parts::each_next, crate::proofs::Parts::each_early, crate::proofs::Parts::each_end))]
fn push_elements(
    table: &TypeTable,
    count: u64,
    element: u32,
    rest: &[Sel],
    at: u32,
    offsets: &mut Vec<u32>,
) -> Result<(), AllocError>
    ensures { OnOk result (offsets.new.items ≡ offsets.old.items ++ in_each count (words table.now element) at (offsets_of table.now element rest.now)) }
{
    let size = table.words(element);
    let none = offsets.len();
    let mut at = at;
    'elements: for _element in 0..count {
        push_part(table, element, rest, at, offsets)?;
        // what one element doesn't have, none has
        if offsets.len() == none {
            return Ok(());
        }
        at = plus(at, size)?;
    }
    Ok(())
}

/// Appends at which words a part of a type stands that begins at an offset.
#[cycle(offsets)]
#[tactic(auto, using(crate::proofs::Parts::elements_offsets), unfolding(machine::specs::Words::offsets))]
fn push_part(
    table: &TypeTable,
    t: u32,
    part: &[Sel],
    at: u32,
    offsets: &mut Vec<u32>,
) -> Result<(), AllocError>
    ensures { OnOk result (offsets.new.items ≡ offsets.old.items ++ offsets_from table.now at t part.now) }
{
    let Some((sel, rest)) = part.split_first() else {
        offsets.push(at)?;
        return Ok(());
    };
    match *sel {
        Sel::Field(i) => push_field(table, t, i, rest, at, offsets)?,
        Sel::Elem => {
            let count = element_count(table, t);
            push_elements(table, count, element_type(table, t), rest, at, offsets)?
        }
        Sel::Deref => {}
    }
    Ok(())
}

/// Appends at which words of a type its access parts stand, part by part.
#[tactic(auto, using(crate::proofs::Parts::parts_next))]
pub fn push_access_offsets(
    table: &TypeTable,
    t: u32,
    offsets: &mut Vec<u32>,
) -> Result<(), AllocError>
    ensures { OnOk result (offsets.new.items ≡ offsets.old.items ++ access_offsets table.now t) }
{
    'parts: for part in table.access_parts(t) {
        push_part(table, t, part.sels(), 0, offsets)?;
    }
    Ok(())
}
