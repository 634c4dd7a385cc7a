//! Points that take no values.
ghost use Rattle.std.specs.Prelude.{◌≡◌, ◌≢◌, ◌≤◌, length, None, IsTrue};
ghost use Rattle.code_rows.specs.Points.{next_of, program_of, IsWhole};
ghost use Rattle.slot_frames.specs.Frames.{word_at};
ghost use Rattle.slot_entries.specs.Entries.{stacked_words};
ghost use Rattle.slot_steps.specs.slot_parts.Goes.{IsLed};
ghost use Rattle.slot_steps.specs.slot_parts.Stages.{IsAt};
ghost use Rattle.slot_running.specs.Points.{IsFree, IsPointTurn};

use code_rows::{Codes, NONE, Point, Stop};
use slot_goings::{Group, change_words, grouped};
use slot_heap::Store;
use slot_steps::Parts;
use slot_tells::go;
use type_layouts::Layouts;

/// What such a step comes to.
#[derive(Clone, Copy, Drop)]
pub(crate) enum Free {
    /// The run goes on.
    Goes,
    /// Nothing is changed: it takes no values, and there may be leak checks.
    Values,
    /// Nothing is changed: it is another point, or it raises.
    Stays,
    /// There is too little memory.
    Fails,
}

/// The group of a point that takes so many values. One that takes some is of no group here.
#[inline(always)]
fn free_group(point: &Point, takes: u32) -> Group
    requires { takes ≡ point.now.takes.count }
    ensures words { result ≡ Group.Words → IsFree Group.Words point.now }
    ensures values { result ≡ Group.Values → IsFree Group.Values point.now }
{
    if takes != 0 {
        return Group::Others;
    }
    grouped(point.does)
}

/// The run goes on at a point, or the main procedure begins, which it does once in a run.
#[inline(never)]
fn go_far<R: Store>(
    codes: &Codes,
    table: &Layouts,
    parts: &mut Parts<R>,
    k: usize,
    next: u32,
) -> bool
    requires whole { IsWhole codes.now }
    requires waits { word_at parts.old.frames.waits k (length parts.old.memory.waits) ≤ length parts.old.memory.waits }
    requires words { parts.old.words ≡ stacked_words parts.old.frames }
    ensures { IsTrue result → IsLed table.now (program_of codes.now) k (next_of next) parts.old parts.new }
{
    match go(codes, table, parts, k, next) {
        Ok(()) => true,
        Err(_) => false,
    }
}

/// The run goes on after a point that took no values.
#[inline(always)]
#[tactic(auto, using(crate::proofs::Idle::none_taken, crate::proofs::Idle::all_wait))]
fn go_free<R: Store>(
    codes: &Codes,
    table: &Layouts,
    parts: &mut Parts<R>,
    k: usize,
    next: u32,
) -> bool
    requires whole { IsWhole codes.now }
    requires waits { word_at parts.old.frames.waits k (length parts.old.memory.waits) ≤ length parts.old.memory.waits }
    requires words { parts.old.words ≡ stacked_words parts.old.frames }
    requires none { k ≡ length parts.old.frames.waits }
    requires taken { parts.old.memory.taken ≡ word_at parts.old.frames.waits k (length parts.old.memory.waits) }
    ensures { IsTrue result → IsLed table.now (program_of codes.now) k (next_of next) parts.old parts.new }
{
    if next == NONE {
        return go_far(codes, table, parts, k, next);
    }
    parts.frames.go(next);
    true
}

/// The step of a point that takes no values and stores one word at most, if it doesn't raise.
#[inline(always)]
fn words_point<R: Store>(
    codes: &Codes,
    table: &Layouts,
    parts: &mut Parts<R>,
    point: &Point,
    k: usize,
) -> Free
    requires at { IsAt R.Means codes.now table.now point.now k parts.old }
    requires free { IsFree Group.Words point.now }
    ensures goes { result ≡ Free.Goes → IsPointTurn R.Means codes.now table.now point.now None parts.old parts.new }
    ensures words { result ≢ Free.Values }
    ensures stays { result ≡ Free.Stays → parts.new ≡ parts.old }
{
    match change_words(&codes.rows, &mut parts.memory, &point.does) {
        Ok(next) => {
            if go_free(codes, table, parts, k, next) {
                Free::Goes
            } else {
                Free::Fails
            }
        }
        Err(Stop::Raises(_)) => Free::Stays,
        Err(_) => Free::Fails,
    }
}

/// The step of a point that takes so many values, if it takes none, stores one word at most, and
/// doesn't raise.
#[inline(always)]
pub(crate) fn free_point<R: Store>(
    codes: &Codes,
    table: &Layouts,
    parts: &mut Parts<R>,
    point: &Point,
    takes: u32,
    k: usize,
) -> Free
    requires at { IsAt R.Means codes.now table.now point.now k parts.old }
    requires takes { takes ≡ point.now.takes.count }
    ensures goes { result ≡ Free.Goes → IsPointTurn R.Means codes.now table.now point.now None parts.old parts.new }
    ensures values { result ≡ Free.Values → IsFree Group.Values point.now × (parts.new ≡ parts.old) }
    ensures stays { result ≡ Free.Stays → parts.new ≡ parts.old }
{
    match free_group(point, takes) {
        Group::Words => words_point(codes, table, parts, point, k),
        Group::Values => Free::Values,
        Group::Others => Free::Stays,
    }
}
