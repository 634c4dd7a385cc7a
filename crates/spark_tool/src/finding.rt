//! What is found of the sources of a command, and what it does then.

use crate::answer::Answer;
use path_check::AcceptedProgram;

/// What is found of the sources.
#[derive(Drop)]
pub(crate) enum Finding {
    /// Each command ends with this answer.
    Ends(Answer),
    /// Whether the program has a main procedure, and the lines of its reports.
    Rejects(bool, Vec<u8>),
    /// Nothing is reported of this program.
    Passes(AcceptedProgram),
}

/// What a command does.
#[derive(Drop)]
pub(crate) enum Outcome {
    /// It writes this answer.
    Answers(Answer),
    /// It runs this program, in at most so many steps, and tells the counts where they are asked for.
    Runs(AcceptedProgram, u64, bool),
    /// It runs this program, which is made for this number, to test what was built.
    Tests(AcceptedProgram, u32),
}
