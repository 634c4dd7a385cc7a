//! Where words stand.
ghost use Rattle.std.specs.Prelude.{◌≡◌};

use run_values::Handle;

/// From an index of the stack on, or in a cell from an offset on.
#[derive(Clone, Copy)]
pub enum Spot {
    Stack { index: usize },
    Cell { cell: Handle, at: u32 },
}

/// An access value that is moved, at an offset from a spot.
#[derive(Clone, Copy)]
pub(crate) struct Move {
    pub spot: Spot,
    pub offset: u32,
}

impl Spot {
    /// The same spot once more.
    pub fn same(&self) -> Spot
        ensures { result ≡ self.now }
    {
        match self {
            Spot::Stack { index } => Spot::Stack { index: *index },
            Spot::Cell { cell, at } => Spot::Cell {
                cell: *cell,
                at: *at,
            },
        }
    }
}
