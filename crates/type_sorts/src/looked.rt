//! Types that are looked at one after the other, each after its parts.
ghost use Rattle.std.specs.Prelude.{◌≡◌, ◌<◌, ℕ, length, IfOk, IsTrue};
ghost use Rattle.type_settled.specs.Orders.{is_done};
ghost use Rattle.type_sorts.specs.Sorted.{AreSorted, LooksAt};

use std::alloc::{AllocError, Global};
use type_definitions::Info;
use type_settled::{Visits, is_ready};

/// The types that are looked at so far.
#[derive(Drop)]
struct Looked {
    /// Whether a type is looked at.
    done: Vec<bool>,
    /// How many are: none is nested deeper.
    depth: usize,
}

/// No type is looked at.
fn begin(alloc: Global, table: &[Info]) -> Result<Looked, AllocError>
    ensures { IfOk result (λ looked. LooksAt table.now looked.done.items looked.depth) }
{
    Ok(Looked {
        done: vec![in alloc; false; table.len()]?,
        depth: 0,
    })
}

impl Looked {
    /// Looks at a type, where its parts are done and it isn't.
    fn settle(&mut self, table: &[Info], t: usize)
        requires within { t < length table.now }
        requires looks { LooksAt table.now self.old.done.items self.old.depth }
        ensures { LooksAt table.now self.new.done.items self.new.depth }
    {
        let info = &table[t];
        if self.done[t] || self.depth >= table.len() || !is_ready(&self.done, info) {
            return;
        }
        self.done[t] = true;
        self.depth += 1;
    }

    /// Looks at the last types as long as their parts were visited.
    fn close(&mut self, visits: &mut Visits, table: &[Info])
        requires { LooksAt table.now self.old.done.items self.old.depth }
        ensures { LooksAt table.now self.new.done.items self.new.depth }
    {
        'types: while let Some(t) = visits.leave() {
            if t < table.len() {
                self.settle(table, t);
            }
        }
    }

    /// Looks at a type and, before it, at what it is made of.
    fn visit(&mut self, visits: &mut Visits, table: &[Info], t: usize) -> Result<(), AllocError>
        requires { LooksAt table.now self.old.done.items self.old.depth }
        ensures { LooksAt table.now self.new.done.items self.new.depth }
    {
        visits.enter(t)?;
        'opened: for _turn in 0..table.len() {
            self.close(visits, table);
            if !visits.open(&self.done, table)? {
                return Ok(());
            }
        }
        self.close(visits, table);
        Ok(())
    }

    /// Whether all types are looked at.
    #[tactic(auto, using(type_settled::proofs::Orders::all_done))]
    fn is_whole(&self) -> bool
        ensures { IsTrue result → (t : ℕ) → IsTrue (is_done self.now.done.items t) }
    {
        'types: for done in self.done.as_slice() {
            if !*done {
                return false;
            }
        }
        true
    }
}

/// Whether the words of each type of a table have the sorts that its definition tells. Where a type
/// has itself in it, they don't.
pub fn are_sorted(alloc: Global, table: &[Info]) -> Result<bool, AllocError>
    ensures { IfOk result (λ sorted. IsTrue sorted → AreSorted table.now) }
{
    let mut looked = begin(alloc, table)?;
    let mut visits = Visits::new(alloc, table)?;
    'types: for t in 0..table.len() {
        looked.visit(&mut visits, table, t)?;
    }
    Ok(looked.is_whole())
}
