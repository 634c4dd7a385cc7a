//! One word, which is stored at a place.
ghost use Rattle.std.specs.Prelude.{◌≡◌, ◌<◌, length, IsTrue};
ghost use Rattle.code_rows.specs.Rows.{code_at, place_of, is_place_below};
ghost use Rattle.slot_memory.specs.Memory.{elsewhere};
ghost use Rattle.slot_points.specs.Changing.{Whole, Done};
ghost use Rattle.slot_points.specs.Steps.{stored_checked};

use code_rows::{Nodes, Place, Stop};
use run_values::Kind;
use slot_heap::Store;
use slot_memory::Memory;
use slot_words::{evaluate, spot};
use word_operators::within;

/// A scalar value within bounds is stored at a place, which is found after it.
#[inline(always)]
pub fn store<R: Store>(
    nodes: &Nodes,
    memory: &mut Memory<R>,
    place: Place,
    value: u32,
    low: i32,
    high: i32,
    kind: Kind,
) -> Result<(), Stop>
    requires place { IsTrue (is_place_below (length nodes.now) place) }
    requires value { value < length nodes.now }
    requires whole { Whole R.Means memory.old (stored_checked (place_of (code_at nodes.now) place) (code_at nodes.now value) low high kind) }
    ensures stored { Done R.Means memory.old (stored_checked (place_of (code_at nodes.now) place) (code_at nodes.now value) low high kind) result memory.new }
    ensures elsewhere { elsewhere memory.new ≡ elsewhere memory.old }
{
    let value = evaluate(nodes, memory, value)?;
    let word = within(value, low, high)?;
    let spot = spot(nodes, memory, place)?;
    memory.put_at(spot, kind, word);
    Ok(())
}
