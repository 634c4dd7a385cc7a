//! What a run asks of its steps.
ghost use Rattle.std.specs.Prelude.{◌≡◌, ◌<◌, ◌≤◌, [], ℕ, IfOk, OnOk};
ghost use Rattle.run_results.specs.Results.{leaks_of};
ghost use Rattle.slot_runs.specs.Turns.{Setting, Untold, Inside, Still};
ghost use Rattle.slot_runs.specs.Goings.{IsGoing, LeadsOn};

use run_results::{Ending, Leak};
use std::alloc::AllocError;

/// What a step comes to.
#[derive(Clone, Copy, Drop)]
pub enum Turn {
    /// The run goes on.
    On,
    /// It ends.
    Ends(Ending),
}

/// A run between two steps.
pub trait Stepping {
    /// What is run, and its input.
    ghost setting: { Self → Setting };

    /// The output and the leaks that weren't taken yet.
    ghost untold: { Self → Untold };

    /// The reference by which its store was lent.
    ghost lent: { Self → ℕ };

    /// It stands for a state with these parts, and without steps. Which handles the heap gives its
    /// cells isn't said, so there may be more than one.
    ghost Stands: { Self → Inside → Type 0 };

    /// Makes at most so many steps, but at least one: how many, and what the last one came to. Each of
    /// them is one of the outcomes that may come.
    fn steps(&mut self, limit: u64) -> Result<(u64, Turn), AllocError>
        requires some { 0 < limit }
        requires going { IsGoing (setting self.old) limit (untold self.old) (Stands self.old) }
        ensures setting { setting self.new ≡ setting self.old }
        ensures lent { OnOk result (lent self.new ≡ lent self.old) }
        ensures some { IfOk result (λ made. 0 < made.0) }
        ensures few { IfOk result (λ made. made.0 ≤ limit) }
        ensures led { IfOk result (λ made. LeadsOn (setting self.old) limit (untold self.old) (Stands self.old) made.0 made.1 (untold self.new) (Stands self.new)) };

    /// The output that wasn't taken yet.
    fn output(&self) -> &[u8]
        ensures { result.now ≡ (untold self.now).output };

    /// It is taken.
    fn clear_output(&mut self)
        ensures setting { setting self.new ≡ setting self.old }
        ensures lent { lent self.new ≡ lent self.old }
        ensures stands { Still (Stands self.old) (Stands self.new) }
        ensures untold { untold self.new ≡ record (untold self.old) { output = [] } };

    /// The leaks that weren't taken yet.
    fn leaks(&self) -> &[Leak]
        ensures { leaks_of result.now ≡ (untold self.now).leaks };

    /// They are taken.
    fn clear_leaks(&mut self)
        ensures setting { setting self.new ≡ setting self.old }
        ensures lent { lent self.new ≡ lent self.old }
        ensures stands { Still (Stands self.old) (Stands self.new) }
        ensures untold { untold self.new ≡ record (untold self.old) { leaks = [] } };

    /// How many cells were made.
    fn made(&self) -> u64
        ensures { (x : Inside) → Stands self.now x → result ≡ x.memory.made };

    /// How many cells were freed.
    fn freed(&self) -> u64
        ensures { (x : Inside) → Stands self.now x → result ≡ x.memory.freed };
}
