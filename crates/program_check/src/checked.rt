//! What is found of a program.

use path_check::Verdict;

/// The verdict on a program, and whether it has a main procedure.
#[derive(Drop)]
pub struct Checked {
    /// The verdict.
    pub verdict: Verdict,
    /// Whether there is a main procedure.
    pub has_main: bool,
}
