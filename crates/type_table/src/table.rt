//! The table of the types of a program.
ghost use Rattle.std.specs.Prelude.{◌≡◌, ◌<◌, length, IfOk};
ghost use Rattle.type_definitions.specs.Types.{meant_type, full, view_of, words, parts, is_owning};
ghost use Rattle.type_table.specs.Definitions.{definition, settled, IsSame};
ghost use Rattle.type_table.specs.Sizes.{AreSizes};

use place_names::{Parts, PlaceTail};
use spark_base::Listed;
use std::alloc::AllocError;
use std::marker::Model;
use type_definitions::{Info, Shape, View};

/// What a type is made of.
#[derive(Drop)]
pub struct TypeSize {
    /// How many words a value of it has.
    pub words: u32,
    /// Whether it is a named access type, or has an owning component or element.
    pub owning: bool,
    /// Its access parts: the paths without a dereference to a named access type.
    pub parts: Parts,
}

/// The types of a program. Contracts see what is known of each, by its number.
pub struct TypeTable {
    infos: Listed<Info>,
    sizes: Vec<TypeSize>,
    /// The definition of what leads to none.
    none: Shape,
}

impl Model for TypeTable {
    ghost use Rattle.std.specs.Prelude.{◌≡◌};
    ghost use Rattle.type_definitions.specs.Types.{Table};

    ghost Value = { Table };

    ghost view = { λ table. table.infos };

    ghost use Rattle.type_table.specs.Definitions.{no_definition};
    ghost use Rattle.type_table.specs.Sizes.{AreSizes};

    ghost invariant = { λ table. AreSizes table.infos table.sizes.items × (table.none ≡ no_definition) };
}

impl Drop for TypeTable {
    fn drop(self) {
        let Self {
            infos: _,
            sizes: _,
            none: _,
        } = self;
    }
}

impl TypeTable {
    /// The table of these types, whose sizes are those given.
    pub fn new(infos: Listed<Info>, sizes: Vec<TypeSize>) -> TypeTable
        requires { AreSizes infos sizes.items }
        ensures { result ≡ infos }
    {
        let components = Listed::new(*sizes.allocator());
        TypeTable {
            infos,
            sizes,
            none: Shape::Fields { components },
        }
    }

    /// What is known of each type.
    pub fn infos(&self) -> &[Info]
        ensures { result.now ≡ self.now }
    {
        self.infos.as_slice()
    }

    /// How many words a value of a type has.
    pub fn words(&self, t: u32) -> u32
        ensures { result ≡ words self.now t }
    {
        match self.sizes.get(t as usize) {
            Some(size) => size.words,
            None => 0,
        }
    }

    /// Whether a type is owning.
    pub fn is_owning(&self, t: u32) -> bool
        ensures { result ≡ is_owning self.now t }
    {
        match self.sizes.get(t as usize) {
            Some(size) => size.owning,
            None => false,
        }
    }

    /// The access parts of a type, in the order of its components.
    pub fn access_parts(&self, t: u32) -> &[PlaceTail]
        ensures { result.now ≡ parts self.now t }
    {
        match self.sizes.get(t as usize) {
            Some(size) => size.parts.as_slice(),
            None => &[],
        }
    }

    /// The access parts of a type, shared with the table.
    pub fn shared_parts(&self, t: u32) -> Result<Parts, AllocError>
        ensures { IfOk result (λ shared. shared ≡ parts self.now t) }
    {
        match self.sizes.get(t as usize) {
            Some(size) => Ok(size.parts.clone()?),
            None => Ok(Parts::none()),
        }
    }

    /// The type that is meant by a subtype without a constraint.
    fn meant_type(&self, t: u32) -> u32
        ensures { result ≡ meant_type self.now t }
    {
        match self.infos.as_slice().get(t as usize) {
            Some(info) => match &info.shape {
                Shape::Same { of } => *of,
                _ => t,
            },
            None => t,
        }
    }

    /// The definition of a type of the table: of a subtype without a constraint, that of what it is a
    /// subtype of.
    pub fn shape(&self, t: u32) -> &Shape
        requires { t < length self.now }
        ensures definition { result.now ≡ definition self.now t }
        ensures settled { ¬ IsSame result.now }
    {
        match self.infos.as_slice().get(self.meant_type(t) as usize) {
            Some(info) => self.settled(&info.shape),
            None => &self.none,
        }
    }

    /// A definition, where it is one.
    fn settled<'t>(&'t self, shape: &'t Shape) -> &'t Shape
        ensures { result.now ≡ settled shape.now }
    {
        match shape {
            Shape::Same { .. } => &self.none,
            _ => shape,
        }
    }

    /// The full view of a type.
    pub fn view(&self, t: u32) -> View
        ensures { result ≡ full self.now t }
    {
        match self.infos.as_slice().get(self.meant_type(t) as usize) {
            Some(info) => view_of(&info.shape),
            None => View::Fields,
        }
    }
}

/// A definition without what it lists.
fn view_of(shape: &Shape) -> View
    ensures { result ≡ view_of shape.now }
{
    match shape {
        Shape::Whole { low, high } => View::Whole {
            low: *low,
            high: *high,
        },
        Shape::Listed { low, high, .. } => View::Listed {
            low: *low,
            high: *high,
        },
        Shape::Access {
            designated,
            constant,
            named,
        } => View::Access {
            designated: *designated,
            constant: *constant,
            named: *named,
        },
        Shape::Elements { low, high, element } => View::Elements {
            low: *low,
            high: *high,
            element: *element,
        },
        Shape::Fields { .. } | Shape::Same { .. } => View::Fields,
    }
}
