//! Named access types.
ghost use Rattle.std.specs.Prelude.{◌≡◌};
ghost use Rattle.type_words.specs.Pointers as spec;

use type_definitions::Shape;
use type_table::TypeTable;

/// Whether a definition is that of a named access type.
fn is_named(shape: &Shape) -> bool
    ensures { result ≡ spec.is_named shape.now }
{
    match shape {
        Shape::Access { named, .. } => *named,
        _ => false,
    }
}

/// Whether a type is defined as a named access type. Its only word is its access part.
pub fn is_pointer(table: &TypeTable, t: u32) -> bool
    ensures { result ≡ spec.is_pointer table.now t }
{
    match table.infos().get(t as usize) {
        Some(info) => is_named(&info.shape),
        None => false,
    }
}
