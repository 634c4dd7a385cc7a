//! Indexes of the names of components, for the records that have many.
ghost use Rattle.std.specs.Prelude.{◌≡◌, IfOk, IfSome};
ghost use Rattle.type_definitions.specs.Types.{Table, components_of};
ghost use Rattle.expression_types.specs.Occurrences.{component_names, Indexes};
ghost use Rattle.expression_types.specs.ComponentNames.{FindAllComponents, SameBut, own_components};

use crate::index_lists::put_index;
use crate::views::components_of;
use crate::word_index::{FEW, WordIndex};
use std::alloc::{AllocError, Global};
use type_definitions::{Component, Info, Shape};

/// The index of the names of components.
fn component_index(alloc: Global, components: &[Component]) -> Result<WordIndex, AllocError>
    ensures { IfOk result (λ made. Indexes made (component_names components.now)) }
{
    let mut made = WordIndex::new(alloc);
    let mut i = 0;
    'components: while i < components.len() {
        made.add(alloc, &components[i].name, i)?;
        i += 1;
    }
    Ok(made)
}

/// The index of the names of components, where there are many and there is memory for it.
fn index_of_many(alloc: Global, components: &[Component]) -> Option<WordIndex>
    ensures { IfSome result (λ index. Indexes index (component_names components.now)) }
{
    if components.len() <= FEW {
        return None;
    }
    match component_index(alloc, components) {
        Ok(index) => Some(index),
        Err(_) => None,
    }
}

/// Replaces the index of a type by that of its definition. The list has room only up to the last
/// type with an index.
pub fn index_type(alloc: Global, indexes: &mut Vec<Option<WordIndex>>, t: usize, shape: &Shape)
    ensures { (before after : Table) → SameBut t before after → components_of shape.now ≡ own_components after t
        → FindAllComponents indexes.old.items before → FindAllComponents indexes.new.items after }
{
    let index = index_of_many(alloc, components_of(shape));
    put_index(indexes, t, index);
}

/// For each type, the index of the names of its components, where it is a record that has many and
/// there is memory for it.
pub fn component_indexes(alloc: Global, table: &[Info]) -> Vec<Option<WordIndex>>
    ensures { FindAllComponents result.items table.now }
{
    let mut made = Vec::new(alloc);
    let mut t = 0;
    'types: while t < table.len() {
        index_type(alloc, &mut made, t, &table[t].shape);
        t += 1;
    }
    made
}
