//! What the points of a subprogram do to places.

use crate::parts::Parts;
use crate::place_name::PlaceName;
use spark_base::{Listed, Pos};

/// The mode of a formal parameter (Ada 2012, 6.1).
#[derive(Clone, Copy, Debug, PartialEq, Eq)]
pub enum Mode {
    /// `in`
    In,
    /// `out`
    Out,
    /// `in out`
    InOut,
}

/// What a point of a subprogram does to a place that it names (`docs/RULES.md`, "Acts").
#[derive(Drop)]
pub enum Act {
    /// A name is used as a value of a type that isn't owning.
    Read {
        name: PlaceName,
    },
    /// A name is compared with `null`.
    Look {
        name: PlaceName,
    },
    /// A name is the target of an assignment.
    Write {
        name: PlaceName,
    },
    /// A name is an owning expression; `parts` are the access parts of its type.
    Move {
        name: PlaceName,
        parts: Parts,
    },
    /// A name is the initial value of the borrower `holder`.
    Borrow {
        holder: u32,
        name: PlaceName,
    },
    /// A name is a source of the observer `holder`; `from_observer` says whether the root of the
    /// name is an observer too.
    Observe {
        holder: u32,
        name: PlaceName,
        from_observer: bool,
    },
    /// A borrower is the target of an assignment, whose source is a name.
    Reborrow {
        borrower: u32,
        source: PlaceName,
    },
    /// The scope of an object ends; `borrower` says whether it is a borrower.
    EndScope {
        object: u32,
        borrower: bool,
    },
    /// A call ends; `roots` are the formals and package objects among the roots of the facts.
    Return {
        roots: Listed<u32>,
    },
    /// A name is an actual; `owning` says whether the formal's type is owning, `access` whether it
    /// is a named access type in a procedure call.
    Actual {
        name: PlaceName,
        mode: Mode,
        owning: bool,
        access: bool,
    },
    /// A call's callee uses a package object; `written` says whether it writes it.
    Global {
        object: u32,
        written: bool,
    },
    /// A name is the actual of an instance of Unchecked_Deallocation.
    Free {
        name: PlaceName,
    },
    /// A name is the source of a traversal function's return; `borrows` says whether the result
    /// borrows.
    Give {
        name: PlaceName,
        borrows: bool,
    },
}

/// An act, and the position of the first token of its name.
#[derive(Drop)]
pub struct Placed {
    /// Where it stands.
    pub pos: Pos,
    /// What is done.
    pub act: Act,
}
