//! Acts before they are made: each with the node of its name.

use place_names::Mode;
use spark_base::Pos;

/// What is done to a name.
#[derive(Clone, Copy)]
pub(crate) enum Doing {
    /// It is used as a value of this type: moved if that is owning, and else read.
    Use {
        of: u32,
    },
    Look,
    Write,
    Borrow {
        holder: u32,
    },
    Observe {
        holder: u32,
    },
    Reborrow {
        borrower: u32,
    },
    Actual {
        mode: Mode,
        owning: bool,
        access: bool,
    },
    Free,
    Give {
        borrows: bool,
    },
}

/// A name in the rows: the position of its first token, its object, its steps and its type.
#[derive(Clone, Copy)]
pub(crate) struct NameNode {
    pub pos: Pos,
    pub object: u32,
    pub steps: usize,
    pub of: u32,
}

/// An act on a name: where it stands, the object and the steps of the name, and what is done.
#[derive(Clone, Copy)]
pub(crate) struct Planned {
    pub pos: Pos,
    pub object: u32,
    pub steps: usize,
    pub doing: Doing,
}
