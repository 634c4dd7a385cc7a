//! Why a program is refused when its control flow is laid out.

use typed_tree::Pos;

/// A limit that a program is beyond (`docs/TOOL.md`, "Limits").
#[derive(Clone, Copy)]
pub enum LayFault {
    /// A name of an act, of a fact or of a leak check has more than 16 selectors: M1, at the first
    /// token of the name.
    NameTooDeep { pos: Pos },
    /// A subprogram has more than 16,384 points: G1, at its identifier.
    TooManyPoints { pos: Pos },
    /// The acts of a subprogram add more than 512 facts: G2, at its identifier.
    TooManyFacts { pos: Pos },
}
