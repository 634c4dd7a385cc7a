//! Where the run goes on after a point.
ghost use Rattle.std.specs.Prelude.{◌≡◌, ◌≤◌, ◌++◌, length, take, OnOk, IfErr};
ghost use Rattle.code_rows.specs.Points.{next_of, program_of, IsWhole};
ghost use Rattle.run_results.specs.Results.{leaks_of};
ghost use Rattle.slot_frames.specs.Frames.{word_at};
ghost use Rattle.slot_stages.specs.Leads.{without_taken, at_next, LeadsTo, BeginsMain};
ghost use Rattle.slot_entries.specs.Entries.{stacked_words};

use crate::begins::begin_main;
use code_rows::{Codes, NONE, Stop};
use run_results::Leak;
use slot_entries::drop_taken;
use slot_frames::Frames;
use slot_hand::Hand;
use slot_heap::Store;
use slot_memory::Memory;
use slot_turns::{Halt, no_memory};
use std::alloc::AllocError;
use type_layouts::Layouts;

/// The values that wait from a number on are gone, and the main procedure begins where no frame
/// waits.
#[inline(never)]
fn go_main<R: Store>(
    codes: &Codes,
    table: &Layouts,
    memory: &mut Memory<R>,
    frames: &mut Frames,
    hand: &mut Hand,
    words: &mut u64,
    k: usize,
) -> Result<(), Halt>
    requires whole { IsWhole codes.now }
    requires waits { word_at frames.old.waits k (length memory.old.waits) ≤ length memory.old.waits }
    requires words { words.old ≡ stacked_words frames.old }
    ensures main { OnOk result (BeginsMain table.now (program_of codes.now) k memory.old frames.old memory.new frames.new) }
    ensures words { OnOk result (words.new ≡ stacked_words frames.new) }
    ensures memory { IfErr result (λ h. h.stop ≡ Stop.Memory) }
{
    if frames.is_inner() {
        return Err(no_memory());
    }
    drop_taken(memory, frames, k);
    match begin_main(codes, table, memory, frames, hand, words) {
        Ok(()) => Ok(()),
        Err(_) => Err(no_memory()),
    }
}

/// The values that wait from a number on are gone. Mostly there are none.
#[inline(always)]
fn drop_any<R: Store>(memory: &mut Memory<R>, frames: &mut Frames, k: usize)
    requires { word_at frames.old.waits k (length memory.old.waits) ≤ length memory.old.waits }
    ensures memory { memory.new ≡ without_taken frames.old k memory.old }
    ensures frames { frames.new ≡ record frames.old { waits = take k frames.old.waits } }
{
    if k == frames.waiting() {
        memory.take_from(memory.waiting_words());
        return;
    }
    drop_taken(memory, frames, k);
}

/// The values that wait from a number on are gone, and the run goes on at a point.
#[inline(always)]
fn go_next<R: Store>(memory: &mut Memory<R>, frames: &mut Frames, k: usize, next: u32)
    requires { word_at frames.old.waits k (length memory.old.waits) ≤ length memory.old.waits }
    ensures memory { memory.new ≡ without_taken frames.old k memory.old }
    ensures frames { frames.new ≡ at_next frames.old k next }
{
    drop_any(memory, frames, k);
    frames.go(next);
}

/// The values that wait from a number on are gone, and the run goes on at a point. Where there is
/// none, the main procedure begins.
#[inline(always)]
pub fn go_on<R: Store>(
    codes: &Codes,
    table: &Layouts,
    memory: &mut Memory<R>,
    frames: &mut Frames,
    hand: &mut Hand,
    words: &mut u64,
    k: usize,
    next: u32,
) -> Result<(), Halt>
    requires whole { IsWhole codes.now }
    requires waits { word_at frames.old.waits k (length memory.old.waits) ≤ length memory.old.waits }
    requires words { words.old ≡ stacked_words frames.old }
    ensures led { OnOk result (LeadsTo table.now (program_of codes.now) k (next_of next) memory.old frames.old memory.new frames.new) }
    ensures words { OnOk result (words.new ≡ stacked_words frames.new) }
    ensures memory { IfErr result (λ h. h.stop ≡ Stop.Memory) }
{
    if next == NONE {
        return go_main(codes, table, memory, frames, hand, words, k);
    }
    go_next(memory, frames, k, next);
    Ok(())
}

/// The leaks that were found come after those that weren't told yet.
#[inline(always)]
pub fn tell_found(found: &[Leak], leaks: &mut Vec<Leak>) -> Result<(), AllocError>
    ensures { OnOk result (leaks_of leaks.new.items ≡ leaks_of leaks.old.items ++ leaks_of found.now) }
{
    if !found.is_empty() {
        leaks.extend_from_slice(found)?;
    }
    Ok(())
}
