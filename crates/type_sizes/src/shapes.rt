//! What a definition is made of, by what its parts are made of.
ghost use Rattle.std.specs.Prelude.{◌≡◌, ◌≤◌, ◌*◌, [], ◌∷◌, map, sum, IfOk, IsTrue, if◌then◌else◌};
ghost use Rattle.type_definitions.specs.Types.{span, words_of, numbered, parts_of};
ghost use Rattle.type_definitions.specs.Whole.{all_short};
ghost use Rattle.type_sizes.specs.Sizes.{words_in, parts_in, shape_size, IsSmall};

use crate::tails::add_fronts;
use place_names::{Parts, PlaceTail, Sel};
use std::alloc::{AllocError, Global};
use type_definitions::{Component, Shape};
use type_table::TypeSize;

/// The words of a type; none where it isn't there.
fn words_in(sizes: &[TypeSize], t: u32) -> u32
    ensures { result ≡ words_in sizes.now t }
{
    match sizes.get(t as usize) {
        Some(size) => size.words,
        None => 0,
    }
}

/// The access parts of a type; none where it isn't there.
fn parts_in(sizes: &[TypeSize], t: u32) -> &[PlaceTail]
    ensures { result.now ≡ parts_in sizes.now t }
{
    match sizes.get(t as usize) {
        Some(size) => size.parts.as_slice(),
        None => &[],
    }
}

/// How many values a range has.
fn span(low: i32, high: i32) -> u64
    ensures { result ≡ span low high }
{
    if low <= high {
        (i64::from(high) - i64::from(low)).unsigned_abs() + 1
    } else {
        0
    }
}

/// The words of an array of so many elements.
fn elements_words(count: u64, words: u32) -> u32
    requires { count * words ≤ 65536 }
    ensures { result ≡ count * words }
{
    (count * u64::from(words)) as u32
}

/// The words of a record.
fn fields_words(sizes: &[TypeSize], components: &[Component]) -> u32
    requires { sum (map (λ c. words_in sizes.now c.of) components.now) ≤ 65536 }
    ensures { result ≡ sum (map (λ c. words_in sizes.now c.of) components.now) }
{
    let mut all = 0;
    'components: for component in components {
        all += words_in(sizes, component.of);
    }
    all
}

/// The words of a definition.
fn shape_words(sizes: &[TypeSize], shape: &Shape) -> u32
    requires { words_of (words_in sizes.now) shape.now ≤ 65536 }
    ensures { result ≡ words_of (words_in sizes.now) shape.now }
{
    match shape {
        Shape::Whole { .. } | Shape::Listed { .. } | Shape::Access { .. } => 1,
        Shape::Fields { components } => fields_words(sizes, components.as_slice()),
        Shape::Elements { low, high, element } => {
            elements_words(span(*low, *high), words_in(sizes, *element))
        }
        Shape::Same { of } => words_in(sizes, *of),
    }
}

/// The same, shared with the type.
fn shared_in(sizes: &[TypeSize], t: u32) -> Result<Parts, AllocError>
    ensures { IfOk result (λ shared. shared ≡ parts_in sizes.now t) }
{
    match sizes.get(t as usize) {
        Some(size) => Ok(size.parts.clone()?),
        None => Ok(Parts::none()),
    }
}

/// The access part of a named access type: itself.
fn access_parts(alloc: Global, named: bool) -> Result<Parts, AllocError>
    ensures { IfOk result (λ made. made ≡ (if named then [] ∷ [] else [])) }
{
    if !named {
        return Ok(Parts::none());
    }
    Ok(Parts::from_vec(vec![in alloc; PlaceTail::new(); 1]?)?)
}

/// The access parts of an array.
fn elements_parts(alloc: Global, tails: &[PlaceTail]) -> Result<Parts, AllocError>
    requires { IsTrue (all_short (map (λ q. Sel.Elem ∷ q) tails.now)) }
    ensures { IfOk result (λ made. made ≡ map (λ q. Sel.Elem ∷ q) tails.now) }
{
    let mut made = Vec::new(alloc);
    add_fronts(&mut made, Sel::Elem, tails)?;
    Ok(Parts::from_vec(made)?)
}

/// A number in 32 bits. More than four billion components count as too little memory.
fn narrowed(number: usize) -> Result<u32, AllocError>
    ensures { IfOk result (λ narrow. narrow ≡ number) }
{
    match u32::try_from(number) {
        Ok(narrow) => Ok(narrow),
        Err(_) => Err(AllocError),
    }
}

/// The access parts of a record.
fn fields_parts(
    alloc: Global,
    sizes: &[TypeSize],
    components: &[Component],
) -> Result<Parts, AllocError>
    requires { IsTrue (all_short (numbered 0 (parts_in sizes.now) components.now)) }
    ensures { IfOk result (λ made. made ≡ numbered 0 (parts_in sizes.now) components.now) }
{
    let mut made = Vec::new(alloc);
    'components: for (i, component) in components.iter().enumerate() {
        let number = narrowed(i)?;
        add_fronts(&mut made, Sel::Field(number), parts_in(sizes, component.of))?;
    }
    Ok(Parts::from_vec(made)?)
}

/// The access parts of a definition.
fn shape_parts(alloc: Global, sizes: &[TypeSize], shape: &Shape) -> Result<Parts, AllocError>
    requires { IsTrue (all_short (parts_of (parts_in sizes.now) shape.now)) }
    ensures { IfOk result (λ made. made ≡ parts_of (parts_in sizes.now) shape.now) }
{
    match shape {
        Shape::Whole { .. } | Shape::Listed { .. } => Ok(Parts::none()),
        Shape::Access { named, .. } => access_parts(alloc, *named),
        Shape::Fields { components } => fields_parts(alloc, sizes, components.as_slice()),
        Shape::Elements { element, .. } => elements_parts(alloc, parts_in(sizes, *element)),
        Shape::Same { of } => shared_in(sizes, *of),
    }
}

/// What a definition is made of.
pub fn shape_size(alloc: Global, sizes: &[TypeSize], shape: &Shape) -> Result<TypeSize, AllocError>
    requires { IsSmall sizes.now shape.now }
    ensures { IfOk result (λ made. made ≡ shape_size sizes.now shape.now) }
{
    let parts = shape_parts(alloc, sizes, shape)?;
    Ok(TypeSize {
        words: shape_words(sizes, shape),
        owning: !parts.is_empty(),
        parts,
    })
}
