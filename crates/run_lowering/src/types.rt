//! What types are made of.
ghost use Rattle.std.specs.Prelude.{◌≡◌, ◌<◌, ◌≤◌, IfSome, length, map, sum, take, true};
ghost use Rattle.type_definitions.specs.Types.{meant_type, components_of, fields, shape_of, span, words};
ghost use Rattle.machine.specs.Words.{component_type, element_count, element_type, words_before};
ghost use Rattle.machine.specs.Typed.{field_count, is_array};
ghost use Rattle.machine.specs.Evaluate.{part_type};
ghost use Rattle.run_codes.specs.Lowered.{is_composite};

use type_definitions::{Component, Info, Shape, View};
use type_table::TypeTable;

/// The declaration of Integer.
const INTEGER: u32 = 0;

/// The type that is meant by a subtype without a constraint.
fn meant(infos: &[Info], t: u32) -> u32
    ensures { result ≡ meant_type infos.now t }
{
    match infos.get(t as usize) {
        Some(info) => match &info.shape {
            Shape::Same { of } => *of,
            _ => t,
        },
        None => t,
    }
}

/// The type that is meant by a subtype without a constraint.
pub(crate) fn meant_type(table: &TypeTable, t: u32) -> u32
    ensures { result ≡ meant_type table.now t }
{
    meant(table.infos(), t)
}

/// The components in the definition of a record.
fn components_of(shape: &Shape) -> &[Component]
    ensures { result.now ≡ components_of shape.now }
{
    match shape {
        Shape::Fields { components } => components.as_slice(),
        _ => &[],
    }
}

/// The components of a record. What is none has none.
pub(crate) fn fields(table: &TypeTable, t: u32) -> &[Component]
    ensures { result.now ≡ fields table.now t }
{
    match table.infos().get(meant_type(table, t) as usize) {
        Some(info) => components_of(&info.shape),
        None => &[],
    }
}

/// The words of the first components of a record.
fn words_of(table: &TypeTable, components: &[Component], count: usize) -> Option<u32>
    requires { count ≤ length components.now }
    ensures { IfSome result (λ n. n ≡ sum (map (λ c. words table.now c.of) (take count components.now))) }
{
    let mut words = 0u32;
    'components: for i in 0..count {
        words = words.checked_add(table.words(components[i].of))?;
    }
    Some(words)
}

/// A component of a record: the words that stand before it, and its type.
#[derive(Clone, Copy)]
pub(crate) struct Part {
    pub(crate) before: u32,
    pub(crate) of: u32,
}

/// A component of a record.
pub(crate) fn component(table: &TypeTable, t: u32, i: u32) -> Option<Part>
    ensures there { IfSome result (λ p. i < length (fields table.now t)) }
    ensures before { IfSome result (λ p. p.before ≡ words_before table.now t i) }
    ensures of { IfSome result (λ p. p.of ≡ component_type table.now t i) }
{
    let components = fields(table, t);
    let of = components.get(i as usize)?.of;
    let before = words_of(table, components, i as usize)?;
    Some(Part { before, of })
}

// ---- aggregates

/// Whether there are aggregates of a type with a definition.
fn is_composite_shape(shape: &Shape) -> bool
    ensures { result ≡ is_composite shape.now }
{
    matches!(shape, Shape::Fields { .. } | Shape::Elements { .. })
}

/// Whether there are aggregates of a type.
pub(crate) fn is_composite(table: &TypeTable, t: u32) -> bool
    ensures { result ≡ is_composite (shape_of table.now t) }
{
    match table.infos().get(meant_type(table, t) as usize) {
        Some(info) => is_composite_shape(&info.shape),
        None => true,
    }
}

/// How many values a range has.
fn span(low: i32, high: i32) -> u64
    ensures { result ≡ span low high }
{
    if low <= high {
        (i64::from(high) - i64::from(low)).unsigned_abs() + 1
    } else {
        0
    }
}

/// How many components or elements a definition tells.
fn count_of(shape: &Shape) -> u64
    ensures { result ≡ field_count shape.now }
{
    match shape {
        Shape::Fields { components } => components.as_slice().len() as u64,
        Shape::Elements { low, high, .. } => span(*low, *high),
        _ => 0,
    }
}

/// How many components or elements the values of a type have.
pub(crate) fn part_count(table: &TypeTable, t: u32) -> u64
    ensures { result ≡ field_count (shape_of table.now t) }
{
    match table.infos().get(meant_type(table, t) as usize) {
        Some(info) => count_of(&info.shape),
        None => 0,
    }
}

/// The type of a component.
fn type_at(components: &[Component], i: usize) -> u32
    ensures { result ≡ part_type (Shape.Fields components.now) i }
{
    match components.get(i) {
        Some(component) => component.of,
        None => INTEGER,
    }
}

/// The type of a component or element of a type with a definition.
fn part_in(shape: &Shape, i: usize) -> u32
    ensures { result ≡ part_type shape.now i }
{
    match shape {
        Shape::Fields { components } => type_at(components.as_slice(), i),
        Shape::Elements { element, .. } => *element,
        _ => INTEGER,
    }
}

/// The type of a component or element of a type.
pub(crate) fn part_type(table: &TypeTable, t: u32, i: usize) -> u32
    ensures { result ≡ part_type (shape_of table.now t) i }
{
    match table.infos().get(meant_type(table, t) as usize) {
        Some(info) => part_in(&info.shape, i),
        None => INTEGER,
    }
}

/// The elements of an array: their type, and how many there are.
#[derive(Clone, Copy)]
pub(crate) struct ElementCount {
    pub(crate) of: u32,
    pub(crate) count: u32,
}

/// The elements of an array type. There are none where they are too many.
#[tactic(auto, using(crate::proofs::Shapes::array_viewed, crate::proofs::Shapes::element_viewed, crate::proofs::Shapes::count_viewed))]
pub(crate) fn elements(table: &TypeTable, t: u32) -> Option<ElementCount>
    ensures array { IfSome result (λ e. is_array (shape_of table.now t) ≡ true) }
    ensures of { IfSome result (λ e. element_type table.now t ≡ e.of) }
    ensures count { IfSome result (λ e. element_count table.now t ≡ e.count) }
{
    match table.view(t) {
        View::Elements { low, high, element } => Some(ElementCount {
            of: element,
            count: u32::try_from(span(low, high)).ok()?,
        }),
        _ => None,
    }
}
