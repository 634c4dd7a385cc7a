//! The table of the types of a program.
ghost use Rattle.std.specs.Prelude.{◌≡◌, IfOk};
ghost use Rattle.type_sizes.specs.Limits.{AreWithin};

use crate::rounds::sizes;
use std::alloc::{AllocError, Global};
use type_definitions::Known;
use type_settled::Settled;
use type_table::TypeTable;

/// The table of the types among the known declarations. The only error is out of memory.
pub fn sized_table(alloc: Global, settled: Settled) -> Result<TypeTable, AllocError>
    requires { AreWithin settled.known.table }
    ensures { IfOk result (λ made. made ≡ settled.known.table) }
{
    let Known { table, .. } = settled.into_known(alloc);
    let sizes = sizes(alloc, table.as_slice())?;
    Ok(TypeTable::new(table, sizes))
}
