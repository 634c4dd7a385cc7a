//! Types made in rounds.
ghost use Rattle.std.specs.Prelude.{◌≡◌, ◌<◌, ℕ, length, map, IfOk};
ghost use Rattle.type_definitions.specs.Types.{info};
ghost use Rattle.type_table.specs.Sizes.{AreSizes};
ghost use Rattle.type_sizes.specs.Limits.{AreWithin};
ghost use Rattle.type_sizes.specs.Sizes.{shape_size, IsSmall};

use crate::shapes::shape_size;
use crate::sizes::made_in_order;
use std::alloc::{AllocError, Global};
use type_definitions::Info;
use type_table::TypeSize;

/// Makes all types by what their parts were made of in the round before.
fn round(alloc: Global, table: &[Info], sizes: &[TypeSize]) -> Result<Vec<TypeSize>, AllocError>
    requires { (t : ℕ) → t < length table.now → IsSmall sizes.now (info table.now t).shape }
    ensures { IfOk result (λ made. made.items ≡ map (λ i. shape_size sizes.now i.shape) table.now) }
{
    let mut made = Vec::new(alloc);
    'types: for info in table {
        made.push(shape_size(alloc, sizes, &info.shape)?)?;
    }
    Ok(made)
}

/// Makes all types in as many rounds as there are types: no type is nested deeper.
fn rounds(alloc: Global, table: &[Info]) -> Result<Vec<TypeSize>, AllocError>
    requires { AreWithin table.now }
    ensures { IfOk result (λ made. AreSizes table.now made.items) }
{
    let mut sizes = Vec::new(alloc);
    'rounds: for _round in 0..table.len() {
        sizes = round(alloc, table, &sizes)?;
    }
    Ok(sizes)
}

/// The sizes of all types.
pub fn sizes(alloc: Global, table: &[Info]) -> Result<Vec<TypeSize>, AllocError>
    requires { AreWithin table.now }
    ensures { IfOk result (λ made. AreSizes table.now made.items) }
{
    let sizes = made_in_order(alloc, table)?;
    if sizes.is_whole() {
        return Ok(sizes.values);
    }
    rounds(alloc, table)
}
