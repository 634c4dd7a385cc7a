//! The measure of a type, from the measures of its parts.
ghost use Rattle.std.specs.Prelude.{◌≡◌, false, get_or};
ghost use Rattle.type_definitions.specs.Types.{span};
ghost use Rattle.type_settled.specs.Measures.{nothing, unsound_alone, word, deeper, component_of, elements_of, joined, part_in, fields_of, shape_measure, parent_unsound, info_measure};

use type_definitions::{Component, Info, Shape};

/// One more than the words of a type.
const MANY_WORDS: u64 = 65_537;
/// One more than the access parts of a type.
const MANY_PARTS: u32 = 65;
/// One more than the reach of an access part.
const FAR: u32 = 18;

/// What is measured of a type. Each count stops at one more than its limit.
#[derive(Clone, Copy)]
pub struct Measure {
    /// Its words.
    pub words: u32,
    /// How many access parts it has.
    pub parts: u32,
    /// The selectors of its longest access part, and one more; 0 where it has none.
    pub reach: u32,
    /// Whether a type in it is unsound.
    pub unsound: bool,
}

/// The reach with one selector more.
fn deeper(reach: u32) -> u32
    ensures { result ≡ deeper reach }
{
    if reach == 0 {
        0
    } else {
        reach.saturating_add(1).min(FAR)
    }
}

impl Measure {
    /// That of a type with no words.
    pub fn nothing() -> Measure
        ensures { result ≡ nothing }
    {
        Measure {
            words: 0,
            parts: 0,
            reach: 0,
            unsound: false,
        }
    }

    /// That of a type with an unsound one in it, of which no more is said.
    pub fn unsound() -> Measure
        ensures { result ≡ unsound_alone }
    {
        Measure {
            unsound: true,
            ..Measure::nothing()
        }
    }

    /// That of a scalar or access type, with as many access parts of no selector.
    fn word(parts: u32) -> Measure
        ensures { result ≡ word parts }
    {
        Measure {
            words: 1,
            parts,
            reach: parts,
            unsound: false,
        }
    }

    /// What a component of this type adds to a record.
    fn component(self) -> Measure
        ensures { result ≡ component_of self }
    {
        Measure {
            reach: deeper(self.reach),
            ..self
        }
    }

    /// That of an array of so many elements of this type.
    fn elements(self, count: u64) -> Measure
        ensures { result ≡ elements_of count self }
    {
        Measure {
            words: count.saturating_mul(u64::from(self.words)).min(MANY_WORDS) as u32,
            reach: deeper(self.reach),
            ..self
        }
    }

    /// Both together.
    fn joined(self, other: Measure) -> Measure
        ensures { result ≡ joined self other }
    {
        let words = u64::from(self.words) + u64::from(other.words);
        Measure {
            words: words.min(MANY_WORDS) as u32,
            parts: self.parts.saturating_add(other.parts).min(MANY_PARTS),
            reach: self.reach.max(other.reach),
            unsound: self.unsound || other.unsound,
        }
    }
}

/// What is measured of a type; nothing where it isn't.
pub fn measure_of(values: &[Measure], t: u32) -> Measure
    ensures { result ≡ get_or values.now t nothing }
{
    match values.get(t as usize) {
        Some(measure) => *measure,
        None => Measure::nothing(),
    }
}

/// The measure of a part. It is unsound where it is so itself.
fn part(unsound: &[bool], values: &[Measure], t: u32) -> Measure
    ensures { result ≡ part_in unsound.now values.now t }
{
    let measure = measure_of(values, t);
    Measure {
        unsound: is_marked(unsound, t as usize) || measure.unsound,
        ..measure
    }
}

/// Whether this type is marked.
pub fn is_marked(marks: &[bool], t: usize) -> bool
    ensures { result ≡ get_or marks.now t false }
{
    match marks.get(t) {
        Some(mark) => *mark,
        None => false,
    }
}

/// How many values a range has.
fn span(low: i32, high: i32) -> u64
    ensures { result ≡ span low high }
{
    if low <= high {
        (i64::from(high) - i64::from(low)).unsigned_abs() + 1
    } else {
        0
    }
}

/// The measure of a record.
fn fields(unsound: &[bool], values: &[Measure], components: &[Component]) -> Measure
    ensures { result ≡ fields_of (part_in unsound.now values.now) nothing components.now }
{
    let mut all = Measure::nothing();
    'components: for component in components {
        all = all.joined(part(unsound, values, component.of).component());
    }
    all
}

/// The measure of a definition.
fn shape_measure(unsound: &[bool], values: &[Measure], shape: &Shape) -> Measure
    ensures { result ≡ shape_measure (part_in unsound.now values.now) shape.now }
{
    match shape {
        Shape::Whole { low: _, high: _ }
        | Shape::Listed {
            literals: _,
            low: _,
            high: _,
        } => Measure::word(0),
        Shape::Access {
            designated: _,
            constant: _,
            named,
        } => Measure::word(if *named { 1 } else { 0 }),
        Shape::Fields { components } => fields(unsound, values, components.as_slice()),
        Shape::Elements { low, high, element } => {
            part(unsound, values, *element).elements(span(*low, *high))
        }
        Shape::Same { of } => part(unsound, values, *of),
    }
}

/// The measure of a type. It is unsound where the type in its mark is.
pub fn info_measure(unsound: &[bool], values: &[Measure], info: &Info) -> Measure
    ensures { result ≡ info_measure (part_in unsound.now values.now) info.now }
{
    let measure = shape_measure(unsound, values, &info.shape);
    Measure {
        unsound: measure.unsound || has_unsound_parent(unsound, values, info.parent),
        ..measure
    }
}

/// Whether the type in a mark is unsound.
fn has_unsound_parent(unsound: &[bool], values: &[Measure], parent: Option<u32>) -> bool
    ensures { result ≡ parent_unsound (part_in unsound.now values.now) parent }
{
    match parent {
        Some(t) => part(unsound, values, t).unsound,
        None => false,
    }
}
