//! Frames without values.
ghost use Rattle.std.specs.Prelude.{◌≡◌, ◌++◌, ◌∷◌, [], take, map, flat_map, pos as positive, OnOk, OnErr, IsErrOf, IsTrue};
ghost use Rattle.code_rows.specs.Points.{room_of, rooms_of, type_of, is_sub_there};
ghost use Rattle.run_codes.specs.Points.{room_words};

use code_rows::{Codes, Room, Stop, Sub};
use slot_hand::Hand;
use slot_heap::Store;
use slot_memory::Memory;
use type_layouts::Layouts;

/// Appends the words of a loop that doesn't run.
fn push_counter(hand: &mut Hand) -> Result<(), Stop>
    ensures pushed { OnOk result (hand.new ≡ hand.old ++ positive 1 ∷ positive 0 ∷ positive 1 ∷ []) }
    ensures memory { OnErr result (IsErrOf result Stop.Memory) }
{
    hand.push(1)?;
    hand.push(0)?;
    hand.push(1)
}

/// Appends the words of what stands in a frame, without a value.
fn push_words(table: &Layouts, hand: &mut Hand, room: Room) -> Result<(), Stop>
    ensures pushed { OnOk result (hand.new ≡ hand.old ++ room_words table.now (room_of room)) }
    ensures memory { OnErr result (IsErrOf result Stop.Memory) }
{
    match room {
        Room::Object { of } => hand.push_default(table, of),
        Room::Counter => push_counter(hand),
    }
}

/// The words of what stands in a frame, without a value, come after those of all frames.
fn push_room<R: Store>(
    table: &Layouts,
    memory: &mut Memory<R>,
    hand: &mut Hand,
    room: Room,
) -> Result<(), Stop>
    ensures pushed { OnOk result (memory.new ≡ record memory.old { stack = memory.old.stack ++ room_words table.now (room_of room) }) }
    ensures hand { OnOk result (hand.new ≡ hand.old) }
    ensures memory { OnErr result (IsErrOf result Stop.Memory) }
{
    let from = hand.len();
    push_words(table, hand, room)?;
    memory.push_frame(&hand.words()[from..])?;
    hand.cut(from);
    Ok(())
}

/// The words of all that stands in a frame, without values, come after those of all frames. The words
/// at hand stay.
pub fn push_rooms<R: Store>(
    table: &Layouts,
    memory: &mut Memory<R>,
    hand: &mut Hand,
    rooms: &[Room],
) -> Result<(), Stop>
    ensures pushed { OnOk result (memory.new ≡ record memory.old { stack = memory.old.stack ++ flat_map (room_words table.now) (map room_of rooms.now) }) }
    ensures hand { OnOk result (hand.new ≡ hand.old) }
    ensures memory { OnErr result (IsErrOf result Stop.Memory) }
{
    'rooms: for i in 0..rooms.len() {
        push_room(table, memory, hand, rooms[i])?;
    }
    Ok(())
}

/// What stands in the frame of a subprogram.
pub fn rooms(codes: &Codes, sub: Sub) -> &[Room]
    requires { IsTrue (is_sub_there codes.now sub) }
    ensures { result.now ≡ rooms_of codes.now sub }
{
    let first = sub.rooms.first as usize;
    &codes.rooms[first..first + sub.rooms.count as usize]
}

/// The first ones of what stands in a frame.
pub fn front(rooms: &[Room], count: usize) -> &[Room]
    ensures { result.now ≡ take count rooms.now }
{
    if count < rooms.len() {
        &rooms[..count]
    } else {
        rooms
    }
}

/// Appends the type of an object.
fn push_type(room: Room, types: &mut Vec<u32>) -> Result<(), Stop>
    ensures pushed { OnOk result (types.new.items ≡ types.old.items ++ type_of room) }
    ensures memory { OnErr result (IsErrOf result Stop.Memory) }
{
    if let Room::Object { of } = room {
        types.push(of)?;
    }
    Ok(())
}

/// Appends the types of objects.
pub fn push_types(rooms: &[Room], types: &mut Vec<u32>) -> Result<(), Stop>
    ensures pushed { OnOk result (types.new.items ≡ types.old.items ++ flat_map type_of rooms.now) }
    ensures memory { OnErr result (IsErrOf result Stop.Memory) }
{
    'rooms: for i in 0..rooms.len() {
        push_type(rooms[i], types)?;
    }
    Ok(())
}
