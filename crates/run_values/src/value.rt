//! Values, and their sorts.
ghost use Rattle.std.specs.Prelude.{◌≡◌};
ghost use Rattle.run_values.specs.Values.{kind};

use crate::handle::Handle;

/// What one word of an object holds.
#[derive(Clone, Copy, Debug, PartialEq, Eq)]
pub enum Value {
    /// A value of Integer.
    Int(i32),
    /// A value of an enumeration type, by its position number (Ada 2012, 3.5.1).
    Enum(u32),
    /// An access value that designates nothing.
    Null,
    /// An access value that designates this cell.
    Cell(Handle),
}

/// The sort of a value, which the type of its place tells.
#[derive(Clone, Copy, Debug, PartialEq, Eq)]
pub enum Kind {
    /// Integer.
    Int,
    /// An enumeration type, as Boolean.
    Enum,
    /// An access type.
    Access,
}

impl Value {
    /// The sort of this value.
    pub fn kind(&self) -> Kind
        ensures { result ≡ kind self.now }
    {
        match self {
            Value::Int(_) => Kind::Int,
            Value::Enum(_) => Kind::Enum,
            Value::Null | Value::Cell(_) => Kind::Access,
        }
    }
}
