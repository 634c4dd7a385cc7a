//! Where a run begins.
ghost use Rattle.std.specs.Prelude.{◌≡◌, ◌++◌, OnOk, IfOk, IsTrue};
ghost use Rattle.slot_heap.specs.Heaps.{no_heap};
ghost use Rattle.code_rows.specs.Points.{program_of, sub_of, is_sub_there, IsWhole};
ghost use Rattle.run_codes.specs.Points.{template};
ghost use Rattle.slot_entries.specs.Entries.{stacked_words};
ghost use Rattle.slot_leads.specs.Begins.{MainBegins};
ghost use Rattle.slot_leads.specs.Starts.{IsFirst, HasPackages};
ghost use Rattle.slot_parts.specs.Begins.{AreSilent, IsBegun};

use crate::parts::Parts;
use code_rows::{Codes, Stop, Sub};
use slot_entries::{push_rooms, rooms};
use slot_frames::{Frame, Frames};
use slot_hand::Hand;
use slot_heap::Store;
use slot_leads::{begin_main, sub_at};
use slot_memory::Memory;
use std::alloc::{AllocError, Global};
use type_layouts::Layouts;

/// The only frame is the one of a subprogram, which has no words yet.
fn first<'r, R: Store>(alloc: Global, store: &'r mut R, input: &'r [u8], sub: Sub) -> Parts<'r, R>
    ensures first { IsFirst store.old store.entry.ghost_name sub input.now result.memory result.frames result.words }
    ensures silent { AreSilent result }
{
    Parts {
        memory: Memory::new(alloc, store, input),
        frames: Frames::new(
            alloc,
            Frame {
                base: 0,
                next: sub.first,
                words: sub.words,
                waits: 0,
                returns: 0,
            },
        ),
        words: sub.words,
        hand: Hand::new(alloc),
        found: Vec::new(alloc),
        output: Vec::new(alloc),
        leaks: Vec::new(alloc),
    }
}

/// The words of the frame of a subprogram come after those that are there.
fn push_packages<R: Store>(
    codes: &Codes,
    table: &Layouts,
    parts: &mut Parts<R>,
    sub: Sub,
) -> Result<(), Stop>
    requires { IsTrue (is_sub_there codes.now sub) }
    ensures memory { OnOk result (parts.new.memory ≡ record parts.old.memory { stack = parts.old.memory.stack ++ template table.now (sub_of codes.now sub) }) }
    ensures frames { parts.new.frames ≡ parts.old.frames }
    ensures words { parts.new.words ≡ parts.old.words }
    ensures output { parts.new.output.items ≡ parts.old.output.items }
    ensures leaks { parts.new.leaks.items ≡ parts.old.leaks.items }
{
    push_rooms(table, &mut parts.memory, &mut parts.hand, rooms(codes, sub))
}

/// The only frame is the one of the package objects.
fn first_frame<'r, R: Store>(
    alloc: Global,
    codes: &Codes,
    table: &Layouts,
    store: &'r mut R,
    input: &'r [u8],
) -> Result<Parts<'r, R>, Stop>
    requires { IsWhole codes.now }
    ensures packages { IfOk result (λ p. HasPackages table.now (program_of codes.now) store.old store.entry.ghost_name input.now p.memory p.frames p.words) }
    ensures silent { IfOk result (λ p. AreSilent p) }
{
    let sub = sub_at(codes, 0);
    let mut parts = first(alloc, store, input, sub);
    push_packages(codes, table, &mut parts, sub)?;
    Ok(parts)
}

/// The frame of the main procedure begins above that of the package objects.
fn push_main<R: Store>(codes: &Codes, table: &Layouts, parts: &mut Parts<R>) -> Result<(), Stop>
    requires whole { IsWhole codes.now }
    requires words { parts.old.words ≡ stacked_words parts.old.frames }
    ensures main { OnOk result (MainBegins table.now (program_of codes.now) parts.old.memory parts.old.frames parts.new.memory parts.new.frames) }
    ensures words { OnOk result (parts.new.words ≡ stacked_words parts.new.frames) }
    ensures output { parts.new.output.items ≡ parts.old.output.items }
    ensures leaks { parts.new.leaks.items ≡ parts.old.leaks.items }
{
    begin_main(
        codes,
        table,
        &mut parts.memory,
        &mut parts.frames,
        &mut parts.hand,
        &mut parts.words,
    )
}

/// The parts of a run at its start: the package objects are declared first, or the main procedure
/// begins at once.
pub fn begin<'r, R: Store>(
    alloc: Global,
    codes: &Codes,
    table: &Layouts,
    store: &'r mut R,
    input: &'r [u8],
    declares: bool,
) -> Result<Parts<'r, R>, AllocError>
    requires whole { IsWhole codes.now }
    requires store { R.Means store.old no_heap }
    ensures { IfOk result (λ p. IsBegun R.Means table.now (program_of codes.now) store.entry.ghost_name input.now declares p) }
{
    let Ok(mut parts) = first_frame(alloc, codes, table, store, input) else {
        return Err(AllocError);
    };
    if declares {
        return Ok(parts);
    }
    match push_main(codes, table, &mut parts) {
        Ok(()) => Ok(parts),
        Err(_) => Err(AllocError),
    }
}
