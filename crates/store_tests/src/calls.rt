//! Calls in a row over any heap that begins without cells.
ghost use Rattle.slot_heap.specs.Heaps.{no_heap};

use run_values::{Kind, Value};
use slot_heap::Store;
use std::alloc::AllocError;

/// A freed slot is used again by a cell of its size, whose words are its own.
pub(crate) fn uses_again<R: Store>(store: &mut R) -> Result<bool, AllocError>
    requires { R.Means store.old no_heap }
{
    let first = store.allocate(&[Kind::Int, Kind::Access], &[7, 0])?;
    store.free(first, 2);
    let second = store.allocate(&[Kind::Enum, Kind::Int], &[1, -8])?;
    let position = store.read(second, 0, Kind::Enum);
    let number = store.read(second, 1, Kind::Int);
    Ok(store.slots() == 1 && position == Value::Enum(1) && number == Value::Int(-8))
}

/// A word of a cell is another, and those beside it stay.
pub(crate) fn writes_one_word<R: Store>(store: &mut R) -> Result<bool, AllocError>
    requires { R.Means store.old no_heap }
{
    let cell = store.allocate(&[Kind::Int, Kind::Access], &[7, 0])?;
    store.write(cell, 1, Value::Cell(cell));
    let number = store.read(cell, 0, Kind::Int);
    let name = store.read(cell, 1, Kind::Access);
    Ok(number == Value::Int(7) && name == Value::Cell(cell))
}

/// A freed slot isn't used by a cell of another size.
pub(crate) fn keeps_sizes_apart<R: Store>(store: &mut R) -> Result<bool, AllocError>
    requires { R.Means store.old no_heap }
{
    let one = store.allocate(&[Kind::Enum], &[3])?;
    store.free(one, 1);
    let two = store.allocate(&[Kind::Int, Kind::Int], &[4, 5])?;
    let slots = store.slots();
    let number = store.read(two, 1, Kind::Int);
    Ok(slots == 2 && number == Value::Int(5))
}

/// Two freed slots have a new cell each.
pub(crate) fn uses_each_once<R: Store>(store: &mut R) -> Result<bool, AllocError>
    requires { R.Means store.old no_heap }
{
    let first = store.allocate(&[Kind::Int], &[1])?;
    let second = store.allocate(&[Kind::Int], &[2])?;
    store.free(first, 1);
    store.free(second, 1);
    let third = store.allocate(&[Kind::Int], &[3])?;
    let fourth = store.allocate(&[Kind::Int], &[4])?;
    let number = store.read(fourth, 0, Kind::Int);
    Ok(store.slots() == 2 && third != fourth && number == Value::Int(4))
}
