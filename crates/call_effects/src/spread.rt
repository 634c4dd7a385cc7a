//! How an object spreads to callers.
ghost use Rattle.std.specs.Prelude.{◌≡◌, ℕ, ◌+◌, ◌<◌, ◌≤◌, Bool, true, false, [], ◌∷◌, length, vec_len, OnOk};
ghost use Rattle.spark_base.specs.Lists.{Has};
ghost use Rattle.flow_paths.specs.Effects.{is_in, Ascends};
ghost use Rattle.call_effects.specs.Rows.{row};
ghost use Rattle.call_effects.specs.Spreads.{SearchedFor, AreUpTo, ReachedBy, AreFound, AreBelow, AreStarted, Spreading, lacking};

use spark_base::Listed;
use std::alloc::{AllocError, Global};

/// Whether a list that ascends, and has no object after this one, has it.
fn ends_with(list: &[u32], g: u32) -> bool
    requires order { Ascends list.now }
    requires upto { (x : ℕ) → Has list.now x → x ≤ g }
    ensures some { result ≡ true → Has list.now g }
    ensures none { result ≡ false → Has list.now g → ⊥ }
{
    match list.last() {
        Some(last) => *last == g,
        None => false,
    }
}

/// Puts an object at the end of the list of a subprogram, and the subprogram into the work, unless
/// it has it.
fn reach(
    lists: &mut Vec<Listed<u32>>,
    work: &mut Vec<usize>,
    p: usize,
    g: u32,
) -> Result<(), AllocError>
    requires within { p < vec_len lists.old }
    requires upto { AreUpTo g lists.old.items }
    ensures { OnOk result (ReachedBy g p lists.old.items work.old.items lists.new.items work.new.items) }
{
    if ends_with(lists[p].as_slice(), g) {
        return Ok(());
    }
    lists[p].push(g)?;
    work.push(p)?;
    Ok(())
}

/// The object comes to the subprograms that use it in their own text.
fn start(
    users: &[usize],
    lists: &mut Vec<Listed<u32>>,
    work: &mut Vec<usize>,
    g: u32,
) -> Result<(), AllocError>
    requires within { (a : ℕ) → Has users.now a → a < vec_len lists.old }
    requires upto { AreUpTo g lists.old.items }
    requires fresh { (a : ℕ) → Has (row lists.old.items a) g → ⊥ }
    requires empty { work.old.items ≡ [] }
    ensures spreading { OnOk result (Spreading g lists.old.items lists.new.items work.new.items) }
    ensures started { OnOk result (AreStarted g users.now lists.new.items work.new.items) }
{
    'users: for p in users {
        reach(lists, work, *p, g)?;
    }
    Ok(())
}

/// A step for a subprogram that was taken from the work: the object comes to its callers.
fn turn(
    callers: &[Listed<usize>],
    lists: &mut Vec<Listed<u32>>,
    work: &mut Vec<usize>,
    q: usize,
    g: u32,
) -> Result<(), AllocError>
    requires place { q < length callers.now }
    requires within { AreBelow (vec_len lists.old) callers.now }
    requires upto { AreUpTo g lists.old.items }
    requires works { AreFound g lists.old.items (q ∷ work.old.items) }
    ensures spreading { OnOk result (Spreading g lists.old.items lists.new.items work.new.items) }
    ensures searched { OnOk result ((uses : ℕ → Bool) → SearchedFor callers.now uses g lists.old.items (q ∷ work.old.items) → SearchedFor callers.now uses g lists.new.items work.new.items) }
    ensures room { OnOk result (lacking g lists.new.items + vec_len work.new ≡ lacking g lists.old.items + vec_len work.old) }
{
    let row = callers[q].as_slice();
    'callers: for p in row {
        reach(lists, work, *p, g)?;
    }
    Ok(())
}

/// Puts an object at the end of the list of each subprogram that uses it in its own text or calls
/// one that uses it.
pub(crate) fn spread(
    alloc: Global,
    callers: &[Listed<usize>],
    users: &[usize],
    lists: &mut Vec<Listed<u32>>,
    g: u32,
) -> Result<(), AllocError>
    requires places { length callers.now ≡ vec_len lists.old }
    requires within { AreBelow (vec_len lists.old) callers.now }
    requires first { (a : ℕ) → Has users.now a → a < vec_len lists.old }
    requires upto { AreUpTo g lists.old.items }
    requires fresh { (a : ℕ) → Has (row lists.old.items a) g → ⊥ }
    ensures spreading { OnOk result (Spreading g lists.old.items lists.new.items []) }
    ensures searched { OnOk result (SearchedFor callers.now (λ a. is_in a users.now) g lists.new.items []) }
{
    let mut work = Vec::new(alloc);
    start(users, lists, &mut work, g)?;
    'turns: while let Some(q) = work.pop() {
        turn(callers, lists, &mut work, q, g)?;
    }
    Ok(())
}
