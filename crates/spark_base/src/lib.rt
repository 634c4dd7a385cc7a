//! What every layer of `spark` shares: positions in the sources, lists and boxes that are plain
//! data to a contract, the outside world and the limits.
//!
//! `Pos` is a position, and `position_text` prints it. `Listed` and `Boxed` are a `Vec` and a `Box`
//! that contracts see as what they hold. `Source`, `Sink` and `FileStore` are what the tool asks of
//! the outside; `MemSource`, `MemSink`, `PlainSink` and `MemFiles` are the outside in memory, whose
//! bytes a contract knows. `specs/Outside.antt` states what a call on the outside does;
//! `docs/TOOL.md`, "The outside", says it in words. A call fails only where the count of faults of
//! its object rose in that call. No call but `MemSink`'s and `PlainSink`'s `write` takes memory in
//! proportion to what it is given.
#![tactic(auto)]

mod boxed;
mod limits;
mod listed;
mod memory;
mod memory_files;
mod outside;
mod position;

pub use boxed::Boxed;
pub use limits::{
    ACCESS_PARTS, FACTS, FILES, FRAME_WORDS, HEAP_WORDS, INPUT_BYTES, NESTING, OPERATORS, POINTS,
    SELECTORS, SOURCE_BYTES, STEPS, TOKENS, TYPE_WORDS,
};
pub use listed::Listed;
pub use memory::{MemSink, MemSource, PlainSink};
pub use memory_files::MemFiles;
pub use outside::{Failed, FileStore, OpenFault, Sink, SinkFault, Source};
pub use position::{Pos, position_text};
