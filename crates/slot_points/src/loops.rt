//! `for` loops.
ghost use Rattle.std.specs.Prelude.{◌≡◌, ◌<◌, length, false, Ok};
ghost use Rattle.code_rows.specs.Rows.{code_at};
ghost use Rattle.run_codes.specs.Flat.{is_broken};
ghost use Rattle.run_codes.specs.Points as points;
ghost use Rattle.handled_steps.specs.Steps.{put_words};
ghost use Rattle.slot_memory.specs.Memory.{Knows, Changes, elsewhere};
ghost use Rattle.slot_points.specs.Changing.{Whole, Done};
ghost use Rattle.slot_points.specs.Steps.{is_refused, with_loop, begun_with, started, turned_to, turned};

use crate::between::is_between;
use code_rows::{Exception, Nodes, Stop};
use slot_heap::Store;
use slot_memory::Memory;
use slot_words::word;

/// Puts words at an offset in the frame.
fn put_words<R: Store>(memory: &mut Memory<R>, at: u32, words: &[i64])
    requires { Knows R.Means memory.old (λ s. is_broken (put_words s at words.now) ≡ false) }
    ensures put { Changes R.Means memory.old (λ s. put_words s at words.now) memory.new }
    ensures elsewhere { elsewhere memory.new ≡ elsewhere memory.old }
{
    let spot = memory.local_spot(at, 0);
    memory.store_words(spot, &[], words);
}

/// Puts the words of a parameter and of its loop.
fn put_loop<R: Store>(memory: &mut Memory<R>, at: u32, counter: u32, value: i64, words: &[i64])
    requires { Whole R.Means memory.old (with_loop at counter value words.now) }
    ensures put { Done R.Means memory.old (with_loop at counter value words.now) (Ok result) memory.new }
    ensures elsewhere { elsewhere memory.new ≡ elsewhere memory.old }
{
    put_words(memory, at, &[value]);
    put_words(memory, counter, words);
}

/// Whether the bounds of a loop have values between them, and one is beyond those of the parameter.
fn is_refused(first: i32, last: i32, low: i64, high: i64) -> bool
    ensures { result ≡ is_refused first last low high }
{
    if low > high {
        false
    } else if is_between(low, first, last) {
        !is_between(high, first, last)
    } else {
        true
    }
}

/// A loop starts with these bounds.
fn begin<R: Store>(
    memory: &mut Memory<R>,
    at: u32,
    counter: u32,
    bounds: (i32, i32),
    low: i64,
    high: i64,
) -> Result<(), Stop>
    requires { Whole R.Means memory.old (begun_with at counter bounds.0 bounds.1 low high) }
    ensures put { Done R.Means memory.old (begun_with at counter bounds.0 bounds.1 low high) result memory.new }
    ensures elsewhere { elsewhere memory.new ≡ elsewhere memory.old }
{
    if is_refused(bounds.0, bounds.1, low, high) {
        return Err(Stop::Raises(Exception::ConstraintError));
    }
    put_loop(memory, at, counter, low, &[low, high, 1]);
    Ok(())
}

/// A loop starts: its parameter has the low bound, and its first turn is to come.
pub fn start_loop<R: Store>(
    nodes: &Nodes,
    memory: &mut Memory<R>,
    at: u32,
    counter: u32,
    low: u32,
    high: u32,
    bounds: (i32, i32),
) -> Result<(), Stop>
    requires low { low < length nodes.now }
    requires high { high < length nodes.now }
    requires whole { Whole R.Means memory.old (started at counter (code_at nodes.now low) (code_at nodes.now high) bounds.0 bounds.1) }
    ensures put { Done R.Means memory.old (started at counter (code_at nodes.now low) (code_at nodes.now high) bounds.0 bounds.1) result memory.new }
    ensures elsewhere { elsewhere memory.new ≡ elsewhere memory.old }
{
    let low = word(nodes, memory, low)?;
    let high = word(nodes, memory, high)?;
    begin(memory, at, counter, bounds, low, high)
}

/// The first value of a parameter, the next one, or none.
fn next_value(low: i64, high: i64, first: i64, reversed: bool, value: i64) -> Option<i64>
    ensures { result ≡ points.next_value reversed low high first value }
{
    if first != 0 {
        if low > high {
            None
        } else if reversed {
            Some(high)
        } else {
            Some(low)
        }
    } else if reversed {
        if low < value { Some(value - 1) } else { None }
    } else if value < high {
        Some(value + 1)
    } else {
        None
    }
}

/// Puts the words of the next turn, where there is one, and else those of a loop that doesn't run.
fn put_turn<R: Store>(
    memory: &mut Memory<R>,
    at: u32,
    counter: u32,
    without: i32,
    low: i64,
    high: i64,
    value: Option<i64>,
) -> bool
    requires { Whole R.Means memory.old (turned_to at counter without low high value) }
    ensures put { Done R.Means memory.old (turned_to at counter without low high value) (Ok result) memory.new }
    ensures elsewhere { elsewhere memory.new ≡ elsewhere memory.old }
{
    match value {
        Some(value) => {
            put_loop(memory, at, counter, value, &[low, high, 0]);
            true
        }
        None => {
            put_loop(memory, at, counter, without as i64, &[1, 0, 1]);
            false
        }
    }
}

/// The next turn of a loop: whether there is one. A loop that ends leaves its parameter without a
/// value.
#[inline(always)]
pub fn next_turn<R: Store>(
    memory: &mut Memory<R>,
    at: u32,
    counter: u32,
    reversed: bool,
    without: i32,
) -> bool
    requires { Whole R.Means memory.old (turned at counter reversed without) }
    ensures put { Done R.Means memory.old (turned at counter reversed without) (Ok result) memory.new }
    ensures elsewhere { elsewhere memory.new ≡ elsewhere memory.old }
{
    let value = memory.local(at);
    let low = memory.local_at(counter, 0);
    let high = memory.local_at(counter, 1);
    let first = memory.local_at(counter, 2);
    let next = next_value(low, high, first, reversed, value);
    put_turn(memory, at, counter, without, low, high, next)
}
