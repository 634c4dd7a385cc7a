//! Input.
ghost use Rattle.std.specs.Prelude.{◌≡◌, ◌≤◌, length, IsTrue};
ghost use Rattle.code_rows.specs.Rows.{code_at, place_of, is_place_below};
ghost use Rattle.slot_memory.specs.Memory.{elsewhere};
ghost use Rattle.slot_memory.specs.Spots.{spot_of};
ghost use Rattle.slot_points.specs.Changing.{Whole, Done};
ghost use Rattle.slot_points.specs.Steps.{item_at, item_read};

use crate::between::is_between;
use code_rows::{Exception, Nodes, Place, Stop};
use run_values::{Item, Kind, next_item};
use slot_heap::Store;
use slot_memory::{Memory, Spot};
use slot_words::spot;

/// An item of the input within bounds is stored at a spot: where it ends is answered.
fn store_item<R: Store>(
    memory: &mut Memory<R>,
    spot: Spot,
    item: Item,
    low: i32,
    high: i32,
) -> Result<usize, Stop>
    requires { Whole R.Means memory.old (item_at low high item (spot_of spot)) }
    ensures stored { Done R.Means memory.old (item_at low high item (spot_of spot)) result memory.new }
    ensures elsewhere { elsewhere memory.new ≡ elsewhere memory.old }
{
    match item {
        Item::Missing => Err(Stop::Raises(Exception::EndError)),
        Item::Bad => Err(Stop::Raises(Exception::DataError)),
        Item::Number { value, end } => {
            let word = value as i64;
            if !is_between(word, low, high) {
                return Err(Stop::Raises(Exception::ConstraintError));
            }
            memory.put_at(spot, Kind::Int, word);
            Ok(end)
        }
    }
}

/// The next item of the input, within bounds, is stored at a place, which is found before it. Up to
/// where the input is read then is answered.
pub fn input<R: Store>(
    nodes: &Nodes,
    memory: &mut Memory<R>,
    place: Place,
    low: i32,
    high: i32,
) -> Result<usize, Stop>
    requires place { IsTrue (is_place_below (length nodes.now) place) }
    requires read { memory.old.read ≤ length memory.old.input }
    requires whole { Whole R.Means memory.old (item_read (place_of (code_at nodes.now) place) memory.old.input memory.old.read low high) }
    ensures stored { Done R.Means memory.old (item_read (place_of (code_at nodes.now) place) memory.old.input memory.old.read low high) result memory.new }
    ensures elsewhere { elsewhere memory.new ≡ elsewhere memory.old }
{
    let spot = spot(nodes, memory, place)?;
    let item = next_item(memory.input(), memory.read());
    store_item(memory, spot, item, low, high)
}
