//! Objects with their declarations.
ghost use Rattle.std.specs.Prelude.{◌≡◌, IfOk};
ghost use Rattle.type_definitions.specs.Entries.{entry_of};
ghost use Rattle.typed_tree.specs.Expressions.{object_type};
ghost use Rattle.typed_tree.specs.Programs.{entry_kind, kind_of, text_io};

use ada_tree::Word;
use place_names::Mode;
use spark_base::Listed;
use std::alloc::{AllocError, Global};
use type_definitions::{Entry, Kind, Known};
use typed_tree::{Object, ObjectKind};

/// The declaration of Integer.
const INTEGER: u32 = 0;

/// The objects of a program, each with the number that is its place, and the declarations that make
/// them, from object 1 on.
#[derive(Drop)]
pub struct DeclaredObjects {
    pub objects: Listed<Object>,
    pub numbers: Listed<u32>,
}

/// What an object is.
fn kind_of(kind: Kind) -> ObjectKind
    ensures { result ≡ kind_of kind }
{
    match kind {
        Kind::Variable => ObjectKind::Variable,
        Kind::Constant => ObjectKind::Constant,
        Kind::Formal => ObjectKind::Formal,
        Kind::Parameter => ObjectKind::Parameter,
    }
}

/// The type of the object that a declaration makes.
pub fn object_type(known: &Known, number: u32) -> u32
    ensures { result ≡ object_type (entry_of known.now number) }
{
    match known.entries.as_slice().get(number as usize) {
        Some(Entry::Object { object }) => object.of,
        _ => INTEGER,
    }
}

/// What the object is that a declaration makes.
pub fn entry_kind(known: &Known, number: u32) -> ObjectKind
    ensures { result ≡ entry_kind (entry_of known.now number) }
{
    match known.entries.as_slice().get(number as usize) {
        Some(Entry::Object { object }) => kind_of(object.kind),
        _ => ObjectKind::Variable,
    }
}

/// The state of Ada.Text_IO.
pub fn text_io(alloc: Global) -> Result<Object, AllocError>
    ensures { IfOk result (λ object. object ≡ text_io) }
{
    let name = Word::new(alloc, b"Text_IO")?;
    let package = Word::new(alloc, b"Ada")?;
    Ok(Object {
        name,
        package: Some(package),
        of: INTEGER,
        kind: ObjectKind::TextIo,
        mode: Mode::In,
        scope: 0,
    })
}
