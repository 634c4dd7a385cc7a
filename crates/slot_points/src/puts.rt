//! One word, which is put at an offset in the frame.
ghost use Rattle.std.specs.Prelude.{◌≡◌, ◌<◌, [], ◌∷◌, length, false, Ok};
ghost use Rattle.code_rows.specs.Rows.{code_at};
ghost use Rattle.run_codes.specs.Flat.{is_broken};
ghost use Rattle.handled_steps.specs.Steps.{put_words};
ghost use Rattle.slot_memory.specs.Memory.{Knows, Changes};
ghost use Rattle.slot_points.specs.Changing.{Whole, Done};
ghost use Rattle.slot_points.specs.Steps.{put_checked, put_pointer, ended_pointer};

use code_rows::{Nodes, Stop};
use slot_heap::Store;
use slot_memory::Memory;
use slot_words::{evaluate, operand};
use word_operators::within;

/// Puts a word at an offset in the frame.
#[inline(always)]
pub(crate) fn put_word<R: Store>(memory: &mut Memory<R>, at: u32, word: i64)
    requires { Knows R.Means memory.old (λ s. is_broken (put_words s at (word ∷ [])) ≡ false) }
    ensures put { Changes R.Means memory.old (λ s. put_words s at (word ∷ [])) memory.new }
    ensures only { memory.new ≡ record memory.old { stack = memory.new.stack } }
{
    memory.put(at, word);
}

/// A scalar value within bounds is put at an offset in the frame.
#[inline(always)]
pub fn put<R: Store>(
    nodes: &Nodes,
    memory: &mut Memory<R>,
    at: u32,
    value: u32,
    low: i32,
    high: i32,
) -> Result<(), Stop>
    requires there { value < length nodes.now }
    requires whole { Whole R.Means memory.old (put_checked at (code_at nodes.now value) low high) }
    ensures put { Done R.Means memory.old (put_checked at (code_at nodes.now value) low high) result memory.new }
    ensures only { memory.new ≡ record memory.old { stack = memory.new.stack } }
{
    let value = evaluate(nodes, memory, value)?;
    let word = within(value, low, high)?;
    put_word(memory, at, word);
    Ok(())
}

/// An access value that is looked at is put at an offset in the frame.
#[inline(always)]
pub fn put_pointer<R: Store>(
    nodes: &Nodes,
    memory: &mut Memory<R>,
    at: u32,
    value: u32,
) -> Result<(), Stop>
    requires there { value < length nodes.now }
    requires whole { Whole R.Means memory.old (put_pointer at (code_at nodes.now value)) }
    ensures put { Done R.Means memory.old (put_pointer at (code_at nodes.now value)) result memory.new }
    ensures only { memory.new ≡ record memory.old { stack = memory.new.stack } }
{
    let word = operand(nodes, memory, value)?;
    put_word(memory, at, word);
    Ok(())
}

/// The scope of an object of a named access type ends: it is null then. What it was is answered, for
/// its leak check.
pub fn end_pointer<R: Store>(memory: &mut Memory<R>, at: u32) -> i64
    requires { Whole R.Means memory.old (ended_pointer at) }
    ensures put { Done R.Means memory.old (ended_pointer at) (Ok result) memory.new }
    ensures only { memory.new ≡ record memory.old { stack = memory.new.stack } }
{
    let word = memory.local(at);
    put_word(memory, at, 0);
    word
}
