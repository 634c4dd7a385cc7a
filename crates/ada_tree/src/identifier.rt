//! Identifiers, and names that are made of identifiers alone.

use crate::word::Word;
use spark_base::{Listed, Pos};

/// An identifier, as it is written (Ada 2012, 2.3).
#[derive(Drop)]
pub struct Identifier {
    /// Its first byte.
    pub pos: Pos,
    /// Its bytes.
    pub text: Word,
}

/// `,` id
#[derive(Drop)]
pub enum NextIdentifier {
    /// `,` id (Ada 2012, 3.3.1)
    FurtherIdentifier {
        /// `,`
        pos: Pos,
        /// The identifier.
        name: Identifier,
    },
}

/// dotted = id {`.` id} (Ada 2012, 4.1.3). A mark is one: mark = dotted (Ada 2012, 3.2.2).
#[derive(Drop)]
pub struct Dotted {
    /// The position of the first identifier.
    pub pos: Pos,
    /// The first identifier.
    pub first: Identifier,
    /// The identifiers after it.
    pub rest: Listed<NextPart>,
}

/// `.` id
#[derive(Drop)]
pub enum NextPart {
    /// `.` id (Ada 2012, 4.1.3)
    FurtherPart {
        /// `.`
        pos: Pos,
        /// The identifier.
        name: Identifier,
    },
}

/// `,` dotted
#[derive(Drop)]
pub enum NextDotted {
    /// `,` dotted (Ada 2012, 8.4 and 10.1.2)
    FurtherDotted {
        /// `,`
        pos: Pos,
        /// The dotted name.
        name: Dotted,
    },
}
