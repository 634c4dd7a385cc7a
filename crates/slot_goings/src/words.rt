//! Points that store one word at most.
ghost use Rattle.std.specs.Prelude.{◌≡◌, IsTrue};
ghost use Rattle.code_rows.specs.Points.{is_does_there};
ghost use Rattle.slot_memory.specs.Memory.{elsewhere};
ghost use Rattle.slot_points.specs.Changing.{Whole, Done};
ghost use Rattle.slot_goings.specs.Changes.{words_changed};

use code_rows::{Does, Place, Range, Rows, Stop};
use run_values::Kind;
use slot_heap::Store;
use slot_memory::Memory;
use slot_points::{choose, next_turn, put, put_pointer, start_loop, store, test};

/// A scalar value within bounds is put at an offset in the frame.
#[inline(always)]
#[tactic(auto, using(crate::proofs::Changed::words_rules))]
fn put_scalar<R: Store>(
    rows: &Rows,
    memory: &mut Memory<R>,
    at: u32,
    value: u32,
    low: i32,
    high: i32,
    next: u32,
) -> Result<u32, Stop>
    requires there { IsTrue (is_does_there rows.now (Does.Put at value low high next)) }
    requires whole { Whole R.Means memory.old (words_changed rows.now (Does.Put at value low high next)) }
    ensures changed { Done R.Means memory.old (words_changed rows.now (Does.Put at value low high next)) result memory.new }
    ensures elsewhere { elsewhere memory.new ≡ elsewhere memory.old }
{
    match put(&rows.nodes, memory, at, value, low, high) {
        Ok(()) => Ok(next),
        Err(stop) => Err(stop),
    }
}

/// An access value that is looked at is put at an offset in the frame.
#[inline(always)]
#[tactic(auto, using(crate::proofs::Changed::words_rules))]
fn put_access<R: Store>(
    rows: &Rows,
    memory: &mut Memory<R>,
    at: u32,
    value: u32,
    next: u32,
) -> Result<u32, Stop>
    requires there { IsTrue (is_does_there rows.now (Does.PutPointer at value next)) }
    requires whole { Whole R.Means memory.old (words_changed rows.now (Does.PutPointer at value next)) }
    ensures changed { Done R.Means memory.old (words_changed rows.now (Does.PutPointer at value next)) result memory.new }
    ensures elsewhere { elsewhere memory.new ≡ elsewhere memory.old }
{
    match put_pointer(&rows.nodes, memory, at, value) {
        Ok(()) => Ok(next),
        Err(stop) => Err(stop),
    }
}

/// A scalar value within bounds is stored at a place.
#[inline(always)]
#[tactic(auto, using(crate::proofs::Changed::words_rules))]
fn store_scalar<R: Store>(
    rows: &Rows,
    memory: &mut Memory<R>,
    place: Place,
    value: u32,
    low: i32,
    high: i32,
    kind: Kind,
    next: u32,
) -> Result<u32, Stop>
    requires there { IsTrue (is_does_there rows.now (Does.Store place value low high kind next)) }
    requires whole { Whole R.Means memory.old (words_changed rows.now (Does.Store place value low high kind next)) }
    ensures changed { Done R.Means memory.old (words_changed rows.now (Does.Store place value low high kind next)) result memory.new }
    ensures elsewhere { elsewhere memory.new ≡ elsewhere memory.old }
{
    match store(&rows.nodes, memory, place, value, low, high, kind) {
        Ok(()) => Ok(next),
        Err(stop) => Err(stop),
    }
}

/// A condition leads to one of two points.
#[inline(always)]
#[tactic(auto, using(crate::proofs::Changed::words_rules))]
fn test_condition<R: Store>(
    rows: &Rows,
    memory: &Memory<R>,
    condition: u32,
    holds: u32,
    fails: u32,
) -> Result<u32, Stop>
    requires there { IsTrue (is_does_there rows.now (Does.Test condition holds fails)) }
    requires whole { Whole R.Means memory.now (words_changed rows.now (Does.Test condition holds fails)) }
    ensures changed { Done R.Means memory.now (words_changed rows.now (Does.Test condition holds fails)) result memory.now }
{
    test(&rows.nodes, memory, condition, holds, fails)
}

/// A value leads to the first choice that has it.
#[inline(always)]
#[tactic(auto, using(crate::proofs::Changed::words_rules))]
fn choose_choice<R: Store>(
    rows: &Rows,
    memory: &Memory<R>,
    selector: u32,
    choices: Range,
) -> Result<u32, Stop>
    requires there { IsTrue (is_does_there rows.now (Does.Choose selector choices)) }
    requires whole { Whole R.Means memory.now (words_changed rows.now (Does.Choose selector choices)) }
    ensures changed { Done R.Means memory.now (words_changed rows.now (Does.Choose selector choices)) result memory.now }
{
    choose(rows, memory, selector, choices)
}

/// A `for` loop starts.
#[inline(always)]
#[tactic(auto, using(crate::proofs::Changed::words_rules))]
fn start<R: Store>(
    rows: &Rows,
    memory: &mut Memory<R>,
    at: u32,
    counter: u32,
    low: u32,
    high: u32,
    bounds: (i32, i32),
    next: u32,
) -> Result<u32, Stop>
    requires there { IsTrue (is_does_there rows.now (Does.Start at counter low high bounds.0 bounds.1 next)) }
    requires whole { Whole R.Means memory.old (words_changed rows.now (Does.Start at counter low high bounds.0 bounds.1 next)) }
    ensures changed { Done R.Means memory.old (words_changed rows.now (Does.Start at counter low high bounds.0 bounds.1 next)) result memory.new }
    ensures elsewhere { elsewhere memory.new ≡ elsewhere memory.old }
{
    match start_loop(&rows.nodes, memory, at, counter, low, high, bounds) {
        Ok(()) => Ok(next),
        Err(stop) => Err(stop),
    }
}

/// The next turn of a `for` loop, or its end.
#[inline(always)]
#[tactic(auto, using(crate::proofs::Changed::words_rules))]
fn turn_loop<R: Store>(
    rows: &Rows,
    memory: &mut Memory<R>,
    at: u32,
    counter: u32,
    reversed: bool,
    without: i32,
    turn: u32,
    leave: u32,
) -> Result<u32, Stop>
    requires { Whole R.Means memory.old (words_changed rows.now (Does.Next at counter reversed without turn leave)) }
    ensures changed { Done R.Means memory.old (words_changed rows.now (Does.Next at counter reversed without turn leave)) result memory.new }
    ensures elsewhere { elsewhere memory.new ≡ elsewhere memory.old }
{
    let more = next_turn(memory, at, counter, reversed, without);
    Ok(if more { turn } else { leave })
}

/// A point that stores one word at most: where it leads.
#[inline(always)]
#[tactic(auto, using(crate::proofs::Changed::words_rules, crate::proofs::Changed::no_change, crate::proofs::Changed::go_on))]
pub fn change_words<R: Store>(rows: &Rows, memory: &mut Memory<R>, does: &Does) -> Result<u32, Stop>
    requires there { IsTrue (is_does_there rows.now does.now) }
    requires whole { Whole R.Means memory.old (words_changed rows.now does.now) }
    ensures changed { Done R.Means memory.old (words_changed rows.now does.now) result memory.new }
    ensures elsewhere { elsewhere memory.new ≡ elsewhere memory.old }
{
    match *does {
        Does::Go { next } => Ok(next),
        Does::Put {
            at,
            value,
            low,
            high,
            next,
        } => put_scalar(rows, memory, at, value, low, high, next),
        Does::PutPointer { at, value, next } => put_access(rows, memory, at, value, next),
        Does::Store {
            place,
            value,
            low,
            high,
            kind,
            next,
        } => store_scalar(rows, memory, place, value, low, high, kind, next),
        Does::Test {
            condition,
            holds,
            fails,
        } => test_condition(rows, memory, condition, holds, fails),
        Does::Choose { selector, choices } => choose_choice(rows, memory, selector, choices),
        Does::Start {
            at,
            counter,
            low,
            high,
            first,
            last,
            next,
        } => start(rows, memory, at, counter, low, high, (first, last), next),
        Does::Next {
            at,
            counter,
            reversed,
            without,
            turn,
            leave,
        } => turn_loop(rows, memory, at, counter, reversed, without, turn, leave),
        _ => Err(Stop::Memory),
    }
}
