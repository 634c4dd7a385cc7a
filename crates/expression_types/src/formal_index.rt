//! Indexes of the names of formals, for the subprograms that have many.
ghost use Rattle.std.specs.Prelude.{◌≡◌, List, IfOk, IfSome};
ghost use Rattle.type_definitions.specs.declared.table.Entry.{Entry};
ghost use Rattle.expression_types.specs.Occurrences.{formal_names, Indexes};
ghost use Rattle.expression_types.specs.FormalNames.{FindAllFormals, own_formals};

use crate::index_lists::put_index;
use crate::look_up::formals_of;
use crate::word_index::{FEW, WordIndex};
use std::alloc::{AllocError, Global};
use type_definitions::{Entry, FormalInfo};

/// The index of the names of formals.
fn formal_index(alloc: Global, formals: &[FormalInfo]) -> Result<WordIndex, AllocError>
    ensures { IfOk result (λ made. Indexes made (formal_names formals.now)) }
{
    let mut made = WordIndex::new(alloc);
    let mut i = 0;
    'formals: while i < formals.len() {
        made.add(alloc, &formals[i].name, i)?;
        i += 1;
    }
    Ok(made)
}

/// The index of the names of formals, where there are many and there is memory for it.
fn index_of_many(alloc: Global, formals: &[FormalInfo]) -> Option<WordIndex>
    ensures { IfSome result (λ index. Indexes index (formal_names formals.now)) }
{
    if formals.len() <= FEW {
        return None;
    }
    match formal_index(alloc, formals) {
        Ok(index) => Some(index),
        Err(_) => None,
    }
}

/// Replaces the index of a subprogram by that of its formals.
fn index_subprogram(
    alloc: Global,
    indexes: &mut Vec<Option<WordIndex>>,
    f: usize,
    formals: &[FormalInfo],
)
    ensures { (declared : List Entry) → formals.now ≡ own_formals declared f
        → FindAllFormals indexes.old.items declared → FindAllFormals indexes.new.items declared }
{
    let index = index_of_many(alloc, formals);
    put_index(indexes, f, index);
}

/// For each subprogram, the index of the names of its formals, by the number of its declaration,
/// where it has many and there is memory for it. The list has room only up to the last subprogram
/// with an index.
pub fn formal_indexes(alloc: Global, entries: &[Entry]) -> Vec<Option<WordIndex>>
    ensures { FindAllFormals result.items entries.now }
{
    let mut made = Vec::new(alloc);
    let mut f = 0;
    'declarations: while f < entries.len() {
        index_subprogram(alloc, &mut made, f, formals_of(&entries[f]));
        f += 1;
    }
    made
}
