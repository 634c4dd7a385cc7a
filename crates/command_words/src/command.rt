//! Commands, and why words give none.

use std::alloc::AllocError;

/// What the words of a command line ask for (`docs/TOOL.md`, "Words").
#[derive(Drop)]
pub enum Command {
    /// `check FILE..`: the names of the files.
    Check(Vec<String>),
    /// `run FILE..`, with `--steps=N` and `--stats` or without.
    Run {
        /// The names of the files.
        files: Vec<String>,
        /// How many steps the program may take: 4,294,967,296 where no option says it.
        steps: u64,
        /// Whether the counts of the run are asked for, by `--stats`.
        stats: bool,
    },
    /// `leaks FILE..`: the names of the files.
    Leaks(Vec<String>),
    /// `make N`.
    Make(u32),
    /// `selftest N`.
    Selftest(u32),
}

/// Why words give no command.
#[derive(Clone, Copy, PartialEq, Eq)]
pub enum WordFault {
    /// The words are those of no command.
    Usage,
    /// There is no memory for the names.
    Memory,
}

impl From<AllocError> for WordFault {
    ghost use Rattle.std.specs.Prelude.{◌≡◌};
    ghost use Rattle.command_words.specs.declared.command.WordFault.TheVariants.{Memory};

    ghost from_gives = { λ _ fault. fault ≡ Memory };

    fn from(_: AllocError) -> Self {
        WordFault::Memory
    }
}
