//! The holders that each object is a source of.
ghost use Rattle.std.specs.Prelude.{◌≡◌, ◌∷◌, [], ◌++◌, List, OnOk, IfOk};
ghost use Rattle.traversal_funcs.specs.declared.lending.Lending.{Lending};
ghost use Rattle.traversal_funcs.specs.Lendings.{AreHolders, held, holders_in};

use crate::lending::Lending;
use indexmap::IndexMap;
use spark_base::Listed;
use std::alloc::{AllocError, Global};

/// Objects by number, each with the holders that it is a source of.
pub(crate) type Holders = IndexMap<u32, Listed<u32>>;

/// What was listed so far.
fn taken(alloc: Global, found: Option<Listed<u32>>) -> Listed<u32>
    ensures { result ≡ held found }
{
    match found {
        Some(list) => list,
        None => Listed::new(alloc),
    }
}

/// Adds a source of a holder.
fn add(alloc: Global, made: &mut Holders, lending: Lending) -> Result<(), AllocError>
    ensures { OnOk result ((all : List Lending) → AreHolders made.old.entries all → AreHolders made.new.entries (all ++ lending ∷ [])) }
{
    let mut list = taken(alloc, made.swap_remove(&lending.source));
    list.push(lending.holder)?;
    made.insert(lending.source, list)?;
    Ok(())
}

/// The holders that objects are sources of.
pub(crate) fn by_source(alloc: Global, lendings: &[Lending]) -> Result<Holders, AllocError>
    ensures { IfOk result (λ made. AreHolders made.entries lendings.now) }
{
    let mut made = IndexMap::new(alloc);
    'lendings: for lending in lendings {
        add(alloc, &mut made, *lending)?;
    }
    Ok(made)
}

/// Those that one object is a source of.
pub(crate) fn holders_at(holders: &Holders, x: u32) -> &[u32]
    ensures { result.now ≡ holders_in holders.now.entries x }
{
    match holders.get(&x) {
        Some(list) => list.as_slice(),
        None => &[],
    }
}
