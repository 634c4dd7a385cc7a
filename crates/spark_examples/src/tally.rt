//! How many were run, and how many of them failed.

/// How many examples or rows were run, and how many of them failed.
#[derive(Clone, Copy)]
pub(crate) struct Tally {
    pub(crate) count: usize,
    pub(crate) failed: usize,
}

impl Tally {
    /// Nothing was run yet.
    pub(crate) fn new() -> Tally {
        Tally {
            count: 0,
            failed: 0,
        }
    }

    /// Counts these too.
    pub(crate) fn add(&mut self, more: Tally) {
        self.count = self.count.saturating_add(more.count);
        self.failed = self.failed.saturating_add(more.failed);
    }
}
