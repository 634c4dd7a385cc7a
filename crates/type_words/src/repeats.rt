//! Items that come again.
ghost use Rattle.std.specs.Prelude.{◌≡◌, ◌<◌, ◌≤◌, ◌++◌, length, drop, get_or, replicate, OnOk};
ghost use Rattle.type_words.specs.Parts.{copies};

use std::alloc::AllocError;

/// Appends an item so many times. More than a list can have count as too little memory.
fn push_times<T: Copy>(items: &mut Vec<T>, item: T, times: u64) -> Result<(), AllocError>
    ensures { OnOk result (items.new.items ≡ items.old.items ++ replicate times item) }
{
    match items.len().checked_add(times as usize) {
        Some(all) => items.resize(all, item),
        None => Err(AllocError),
    }
}

/// Appends the items from an index on so many times more.
#[tactic(auto, using(crate::proofs::Copies::begins, crate::proofs::Copies::copies_end))]
pub(crate) fn repeat<T: Copy>(
    items: &mut Vec<T>,
    first: usize,
    times: u64,
) -> Result<(), AllocError>
    requires { first ≤ length items.old.items }
    ensures { OnOk result (items.new.items ≡ items.old.items ++ copies times (drop first items.old.items)) }
{
    let end = items.len();
    // the items of an array of scalars are one each
    if end - first == 1 {
        return push_times(items, items[first], times);
    }
    'times: for _time in 0..times {
        items.extend_from_within(first..end)?;
    }
    Ok(())
}

/// Appends a word so many times, several in one copy. More than a list can have count as too little
/// memory.
fn push_word(words: &mut Vec<i64>, word: i64, times: u64) -> Result<(), AllocError>
    ensures { OnOk result (words.new.items ≡ words.old.items ++ replicate times word) }
{
    words.reserve(times as usize)?;
    let several = [word; 64];
    let mut left = times;
    'left: while left > 64 {
        words.extend_from_slice(&several)?;
        left -= 64;
    }
    words.extend_from_slice(&several[..left as usize])?;
    Ok(())
}

/// The word at an index.
fn word_at(words: &[i64], at: usize) -> i64
    requires { at < length words.now }
    ensures { result ≡ get_or words.now at result }
{
    words[at]
}

/// Appends the words from an index on so many times more.
pub(crate) fn repeat_words(words: &mut Vec<i64>, first: usize, times: u64) -> Result<(), AllocError>
    requires { first ≤ length words.old.items }
    ensures { OnOk result (words.new.items ≡ words.old.items ++ copies times (drop first words.old.items)) }
{
    // the words of an array of scalars are one each
    if words.len() - first == 1 {
        let word = word_at(words, first);
        return push_word(words, word, times);
    }
    repeat(words, first, times)
}
