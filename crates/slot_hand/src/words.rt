//! Words and leaks that are appended to others.
ghost use Rattle.std.specs.Prelude.{◌≡◌, ◌++◌, ◌∷◌, pos as positive, get_or, replicate, OnOk, OnErr, IsErrOf};
ghost use Rattle.run_codes.specs.Flat.{repeated};
ghost use Rattle.handled_runs.specs.Leaks.{leak, leaks_in};
ghost use Rattle.run_results.specs.Results.{leaks_of};
ghost use Rattle.slot_memory.specs.Memory.{Always};

use code_rows::Stop;
use run_results::Leak;
use slot_heap::Store;
use slot_memory::Memory;
use spark_base::Pos;

/// Appends a word so many times. More than a list can have count as too little memory.
fn push_times(word: i64, count: u32, words: &mut Vec<i64>) -> Result<(), Stop>
    ensures pushed { OnOk result (words.new.items ≡ words.old.items ++ replicate count word) }
    ensures memory { OnErr result (IsErrOf result Stop.Memory) }
{
    match words.len().checked_add(count as usize) {
        Some(all) => {
            words.resize(all, word)?;
            Ok(())
        }
        None => Err(Stop::Memory),
    }
}

/// Appends the same words so many times.
pub(crate) fn push_repeated(block: &[i64], count: u32, words: &mut Vec<i64>) -> Result<(), Stop>
    ensures pushed { OnOk result (words.new.items ≡ words.old.items ++ repeated count block.now) }
    ensures memory { OnErr result (IsErrOf result Stop.Memory) }
{
    // the elements of an array of scalars are one each
    if block.len() == 1 {
        return push_times(block[0], count, words);
    }
    'times: for _time in 0..count {
        words.extend_from_slice(block)?;
    }
    Ok(())
}

/// The word with this number, or 0.
fn word_or_zero(words: &[i64], i: usize) -> i64
    ensures { result ≡ get_or words.now i (positive 0) }
{
    match words.get(i) {
        Some(word) => *word,
        None => 0,
    }
}

/// Appends the failed leak check of an access value that isn't null.
#[inline(never)]
fn push_lost<R: Store>(
    memory: &Memory<R>,
    word: i64,
    pos: Pos,
    leaks: &mut Vec<Leak>,
) -> Result<(), Stop>
    ensures pushed { OnOk result (Always R.Means memory.now (λ s. leaks_of leaks.new.items ≡ leaks_of leaks.old.items ++ leak s.numbers pos word)) }
    ensures memory { OnErr result (IsErrOf result Stop.Memory) }
    ensures unchanged { OnErr result (leaks.new.items ≡ leaks.old.items) }
{
    if let Some(number) = memory.number_of(word) {
        leaks.push(Leak { number, pos })?;
    }
    Ok(())
}

/// Appends the failed leak check of an access value, where it fails: a cell that the value still owns
/// is lost (`docs/RUN.md`, "Steps").
#[inline(always)]
pub fn push_leak<R: Store>(
    memory: &Memory<R>,
    word: i64,
    pos: Pos,
    leaks: &mut Vec<Leak>,
) -> Result<(), Stop>
    ensures pushed { OnOk result (Always R.Means memory.now (λ s. leaks_of leaks.new.items ≡ leaks_of leaks.old.items ++ leak s.numbers pos word)) }
    ensures memory { OnErr result (IsErrOf result Stop.Memory) }
    ensures unchanged { OnErr result (leaks.new.items ≡ leaks.old.items) }
{
    if word == 0 {
        return Ok(());
    }
    push_lost(memory, word, pos, leaks)
}

/// Appends the failed leak checks of the access values at some numbers.
pub(crate) fn push_leaks<R: Store>(
    memory: &Memory<R>,
    words: &[i64],
    offsets: &[u32],
    pos: Pos,
    leaks: &mut Vec<Leak>,
) -> Result<(), Stop>
    ensures pushed { OnOk result (Always R.Means memory.now (λ s. leaks_of leaks.new.items ≡ leaks_of leaks.old.items ++ leaks_in s.numbers pos words.now offsets.now)) }
    ensures memory { OnErr result (IsErrOf result Stop.Memory) }
{
    'offsets: for i in 0..offsets.len() {
        let word = word_or_zero(words, offsets[i] as usize);
        push_leak(memory, word, pos, leaks)?;
    }
    Ok(())
}
