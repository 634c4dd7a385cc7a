//! Lists of indexes by number, with room only up to the last index.
ghost use Rattle.std.specs.Prelude.{◌≡◌, set};
ghost use Rattle.expression_types.specs.IndexLists.{HasNoNew, OnlyHas};

use crate::word_index::WordIndex;

/// Adds numbers without an index up to one, as far as there is memory.
fn make_room(indexes: &mut Vec<Option<WordIndex>>, number: usize)
    ensures { HasNoNew indexes.old.items indexes.new.items }
{
    'numbers: while indexes.len() <= number {
        if indexes.push(None).is_err() {
            return;
        }
    }
}

/// Replaces the index of a number, where there is room for it.
fn put(indexes: &mut Vec<Option<WordIndex>>, number: usize, index: Option<WordIndex>)
    ensures { indexes.new.items ≡ set indexes.old.items number index }
{
    if number < indexes.len() {
        indexes[number] = index;
    }
}

/// Replaces the index of a number. Where there is no memory for that, it has none.
pub fn put_index(indexes: &mut Vec<Option<WordIndex>>, number: usize, index: Option<WordIndex>)
    ensures { OnlyHas number index indexes.old.items indexes.new.items }
{
    if index.is_some() {
        make_room(indexes, number);
    }
    put(indexes, number, index);
}
