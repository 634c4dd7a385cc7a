//! The types that have a named access type in them.
ghost use Rattle.std.specs.Prelude.{◌≡◌, IfOk, map, nat_lt};
ghost use Rattle.type_definitions.specs.Types.{info};
ghost use Rattle.type_settled.specs.Owners.{AreOwners, is_named};

use crate::measure::Measure;
use crate::reach::reached;
use crate::rounds::rounds;
use std::alloc::{AllocError, Global};
use type_definitions::{Info, Shape};

/// Whether a definition is that of a named access type.
fn is_named(shape: &Shape) -> bool
    ensures { result ≡ is_named shape.now }
{
    match shape {
        Shape::Access { named, .. } => *named,
        _ => false,
    }
}

/// Whether a type is a named access type.
pub fn is_named_access(table: &[Info], t: u32) -> bool
    ensures { result ≡ is_named (info table.now t).shape }
{
    match table.get(t as usize) {
        Some(info) => is_named(&info.shape),
        None => false,
    }
}

/// Marks of the named access types.
fn named_accesses(alloc: Global, table: &[Info]) -> Result<Vec<bool>, AllocError>
    ensures { IfOk result (λ marks. marks.items ≡ map (λ i. is_named i.shape) table.now) }
{
    let mut marks = Vec::new(alloc);
    'types: for info in table {
        marks.push(is_named(&info.shape))?;
    }
    Ok(marks)
}

/// Whether each of these has an access part.
fn have_parts(alloc: Global, values: &[Measure]) -> Result<Vec<bool>, AllocError>
    ensures { IfOk result (λ marks. marks.items ≡ map (λ m. nat_lt 0 m.parts) values.now) }
{
    let mut marks = Vec::new(alloc);
    'types: for measure in values {
        marks.push(measure.parts > 0)?;
    }
    Ok(marks)
}

/// The owning types but for named access types, of which it isn't said.
pub fn owners(alloc: Global, table: &[Info]) -> Result<Vec<bool>, AllocError>
    ensures { IfOk result (λ made. AreOwners table.now made.items) }
{
    let marks = named_accesses(alloc, table)?;
    if let Some(made) = reached(alloc, table, &marks, false)? {
        return Ok(made);
    }
    let values = rounds(alloc, table, &[])?;
    Ok(have_parts(alloc, &values)?)
}
