//! Places and words that names and expressions are lowered to.

use crate::sorts::Sort;

/// What the offsets of a place are counted from.
#[derive(Clone, Copy)]
pub enum Base {
    Frame,
    Packages,
    /// The cell that an access value designates, which a node gives.
    Cell { pointer: u32 },
}

/// A place of a type: an offset, and a node for what is added to it; and how many values are taken
/// before what follows.
#[derive(Clone, Copy)]
pub struct Found {
    pub base: Base,
    pub at: u32,
    pub index: Option<u32>,
    pub of: u32,
    pub taken: usize,
}

/// A node, the sort of its word, and how many values are taken before what follows.
#[derive(Clone, Copy)]
pub struct Typed {
    pub node: u32,
    pub sort: Sort,
    pub taken: usize,
}

/// A value, and how many values are taken before what follows.
#[derive(Clone, Copy)]
pub struct Filled {
    pub fill: u32,
    pub taken: usize,
}
