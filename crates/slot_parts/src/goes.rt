//! Where a run goes on after a point.
ghost use Rattle.std.specs.Prelude.{◌≡◌, ◌≤◌, ◌++◌, length, OnOk, IfErr};
ghost use Rattle.code_rows.specs.Points.{next_of, program_of, IsWhole};
ghost use Rattle.code_rows.specs.declared.stop.Stop.TheVariants as stop;
ghost use Rattle.run_results.specs.Results.{leaks_of};
ghost use Rattle.slot_frames.specs.Frames.{word_at};
ghost use Rattle.slot_entries.specs.Entries.{stacked_words};
ghost use Rattle.slot_parts.specs.Goes.{IsLed};

use crate::parts::Parts;
use code_rows::Codes;
use slot_heap::Store;
use slot_leads::{go_on, tell_found};
use slot_turns::{Halt, no_memory};
use type_layouts::Layouts;

/// The values that wait from a number on are gone, and the run goes on at a point. Where there is
/// none, the main procedure begins.
#[inline(always)]
pub fn go<R: Store>(
    codes: &Codes,
    table: &Layouts,
    parts: &mut Parts<R>,
    k: usize,
    next: u32,
) -> Result<(), Halt>
    requires whole { IsWhole codes.now }
    requires waits { word_at parts.old.frames.waits k (length parts.old.memory.waits) ≤ length parts.old.memory.waits }
    requires words { parts.old.words ≡ stacked_words parts.old.frames }
    ensures led { OnOk result (IsLed table.now (program_of codes.now) k (next_of next) parts.old parts.new) }
    ensures memory { IfErr result (λ h. h.stop ≡ stop.Memory) }
{
    go_on(
        codes,
        table,
        &mut parts.memory,
        &mut parts.frames,
        &mut parts.hand,
        &mut parts.words,
        k,
        next,
    )
}

/// The leaks that were found come after those that weren't told yet.
#[inline(always)]
pub fn tell<R: Store>(parts: &mut Parts<R>) -> Result<(), Halt>
    ensures told { OnOk result (leaks_of parts.new.leaks.items ≡ leaks_of parts.old.leaks.items ++ leaks_of parts.old.found.items) }
    ensures rest { parts.new ≡ record parts.old { leaks = parts.new.leaks } }
    ensures memory { IfErr result (λ h. h.stop ≡ stop.Memory) }
{
    if tell_found(&parts.found, &mut parts.leaks).is_err() {
        return Err(no_memory());
    }
    Ok(())
}
