//! The main procedure begins.
ghost use Rattle.std.specs.Prelude.{◌≡◌, OnOk, OnErr, IsErrOf, IsTrue};
ghost use Rattle.code_rows.specs.Points.{program_of, sub_of, is_sub_there, IsWhole};
ghost use Rattle.run_codes.specs.Points as points;
ghost use Rattle.slot_entries.specs.Entries.{stacked_words};
ghost use Rattle.slot_leads.specs.Begins.{MainBegins};

use code_rows::{Codes, Range, Stop, Sub};
use slot_entries::{begin, push_rooms, rooms};
use slot_frames::Frames;
use slot_hand::Hand;
use slot_heap::Store;
use slot_memory::Memory;
use type_layouts::Layouts;

/// The subprogram with a number, or one without words.
pub fn sub_at(codes: &Codes, n: u32) -> Sub
    requires { IsWhole codes.now }
    ensures sub { sub_of codes.now result ≡ points.sub_at (program_of codes.now) n }
    ensures there { IsTrue (is_sub_there codes.now result) }
{
    if (n as usize) < codes.subs.len() {
        return codes.sub(n);
    }
    Sub {
        first: 0,
        words: 0,
        rooms: Range { first: 0, count: 0 },
        formals: 0,
    }
}

/// The frame of the main procedure begins above those that are there, and runs.
pub fn begin_main<R: Store>(
    codes: &Codes,
    table: &Layouts,
    memory: &mut Memory<R>,
    frames: &mut Frames,
    hand: &mut Hand,
    words: &mut u64,
) -> Result<(), Stop>
    requires whole { IsWhole codes.now }
    requires words { words.old ≡ stacked_words frames.old }
    ensures main { OnOk result (MainBegins table.now (program_of codes.now) memory.old frames.old memory.new frames.new) }
    ensures words { OnOk result (words.new ≡ stacked_words frames.new) }
    ensures memory { OnErr result (IsErrOf result Stop.Memory) }
{
    let Some(main) = codes.main else {
        return Err(Stop::Memory);
    };
    let sub = sub_at(codes, main);
    let base = memory.top();
    let returned = frames.returning();
    push_rooms(table, memory, hand, rooms(codes, sub))?;
    begin(memory, frames, words, sub, base, returned)
}
