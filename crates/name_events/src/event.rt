//! What a text does with names: a list of events, in the order of the tokens.

use crate::declaration::DeclarationForm;
use ada_tree::Word;
use spark_base::{Listed, Pos};

/// In which clause a dotted name stands.
#[derive(Clone, Copy)]
pub enum Clause {
    /// `with` (Ada 2012, 10.1.2)
    With,
    /// `use` (Ada 2012, 8.4)
    Use,
    /// `use` `type` (Ada 2012, 8.4)
    UseType,
    /// In none of these.
    Elsewhere,
}

/// An identifier in lower case, by which identifiers are compared (Ada 2012, 2.3(5)).
#[derive(Drop)]
pub struct FoldedIdentifier {
    /// Its first byte.
    pub pos: Pos,
    /// Its bytes in lower case.
    pub name: Word,
}

/// A name in lower case, as far as its identifiers may be occurrences: the first one, and those
/// that follow it after dots.
#[derive(Drop)]
pub struct FoldedName {
    /// The first identifier.
    pub first: FoldedIdentifier,
    /// The identifiers after it.
    pub rest: Listed<FoldedIdentifier>,
}

/// One thing that a text does with names.
#[derive(Drop)]
pub enum Event {
    /// A unit begins.
    UnitBegins {
        /// The name of the package whose body the unit is, if it is the body of a package.
        body_of: Option<Word>,
    },
    /// The context of the unit has a `with` of this dotted name. These events stand before all
    /// others of the unit.
    UnitHasWith {
        /// The name.
        name: FoldedName,
    },
    /// A name is used.
    Mentions {
        /// The clause in which it stands.
        clause: Clause,
        /// The name.
        name: FoldedName,
    },
    /// The `;` of a `use` clause.
    UseClauseEnds,
    /// An identifier is declared.
    Declares {
        /// As what.
        form: DeclarationForm,
        /// The identifier.
        identifier: FoldedIdentifier,
    },
    /// The declarations of the innermost open region that haven't ended end here.
    DeclarationsEnd,
    /// Those of the region around it end here.
    OuterDeclarationsEnd,
    /// A region begins.
    RegionOpens,
    /// `package` `body` id: the region of the package goes on.
    PackageBodyOpens {
        /// The name of the package.
        identifier: FoldedIdentifier,
    },
    /// `private`: the private part of the package begins.
    PrivatePartBegins,
    /// The innermost open region closes.
    RegionCloses,
    /// `record`: the components of a type begin.
    RecordBegins,
    /// A component is declared.
    DeclaresComponent {
        /// Its identifier.
        identifier: FoldedIdentifier,
    },
    /// `end` id
    EndsWithName {
        /// The identifier after `end`.
        identifier: FoldedIdentifier,
        /// The name of what ends.
        expected: Word,
    },
}
