//! Frames, values that wait and what is copied back, in rows.

use slot_memory::Spot;

/// A frame: where its words begin, its next point, the words that count for it, and where the values
/// that wait in it and what its call copies back begin.
#[derive(Clone, Copy, Drop)]
pub struct Frame {
    pub base: usize,
    pub next: u32,
    pub words: u64,
    pub waits: usize,
    pub returns: usize,
}

/// A value that waits: its type, and where its words begin among those that wait.
#[derive(Clone, Copy, Drop)]
pub struct Wait {
    pub of: u32,
    pub first: usize,
}

/// What is copied back when a call ends: a formal of a type at an offset of its frame, to a place of a
/// type.
#[derive(Clone, Copy)]
pub struct Return {
    pub at: u32,
    pub from: u32,
    pub to: Spot,
    pub of: u32,
}
