//! How actuals are passed.

use place_names::Mode;

/// How an actual is passed.
#[derive(Clone, Copy)]
pub enum Passing {
    /// Its value is.
    ByValue,
    /// It is what a traversal goes through.
    Traversed,
    /// Its place is, by the mode of the formal; `owning` says whether the type of the formal is
    /// owning, and `access` whether it is a named access type in the call of a procedure.
    Place {
        mode: Mode,
        owning: bool,
        access: bool,
    },
}
