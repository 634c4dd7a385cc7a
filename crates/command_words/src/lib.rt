//! What the words of a command line ask for.
//!
//! `read_words` takes the words after the program's name and gives the `Command`. Of the words after
//! the first, those that begin with a hyphen are options and the others are operands, in any order.
//! Each other list of words is a usage fault. `specs/Words.antt` defines which words give which
//! command; `docs/TOOL.md`, "Words", says it in words. Time and memory are linear in the words.
#![tactic(auto)]

mod command;
mod number;
mod operand;
mod read;

pub use command::{Command, WordFault};
pub use read::read_words;
