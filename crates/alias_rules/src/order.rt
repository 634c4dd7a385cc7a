//! Whether what subprograms read and write is in ascending order.
ghost use Rattle.std.specs.Prelude.{ℕ, IsTrue, [], get_or};
ghost use Rattle.flow_paths.specs.Effects.{Ascends};
ghost use Rattle.alias_rules.specs.Order.{AreOrdered};

use flow_paths::Effects;
use spark_base::Listed;

/// Whether each number of a list is below the next.
fn ascends(list: &[u32]) -> bool
    ensures { IsTrue result → Ascends list.now }
{
    'list: for i in 1..list.len() {
        if list[i] <= list[i - 1] {
            return false;
        }
    }
    true
}

/// Whether each of some lists is in ascending order.
fn all_ascend(lists: &[Listed<u32>]) -> bool
    ensures { IsTrue result → (p : ℕ) → Ascends (get_or lists.now p []) }
{
    'lists: for list in lists {
        if !ascends(list.as_slice()) {
            return false;
        }
    }
    true
}

/// Whether what each subprogram reads and writes is in ascending order, so that it can be looked up
/// by halves.
pub(crate) fn are_ordered(effects: &Effects) -> bool
    ensures { AreOrdered result effects.now }
{
    all_ascend(effects.read.as_slice()) && all_ascend(effects.written.as_slice())
}
