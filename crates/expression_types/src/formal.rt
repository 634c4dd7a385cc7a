//! What a formal demands.

use place_names::Mode;

/// What a formal demands of its actual.
#[derive(Clone, Copy)]
pub struct Formal {
    /// Its mode.
    pub mode: Mode,
    /// Its type.
    pub of: u32,
    /// Whether it is the first one of a traversal function.
    pub traversed: bool,
}
