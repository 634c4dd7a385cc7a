//! Items: the declarations that stand in each declarative part.

use crate::expression::{Arg, Expr, NextArg};
use crate::identifier::{Dotted, Identifier, NextDotted, NextIdentifier};
use crate::range::Range;
use spark_base::{Boxed, Listed, Pos};

/// item, a declaration (Ada 2012, 3.11).
#[derive(Drop)]
pub enum Item {
    /// `type` id `;` (Ada 2012, 3.10.1)
    IncompleteType {
        /// `type`
        pos: Pos,
        /// The name of the type.
        name: Identifier,
        /// `;`
        semicolon: Pos,
    },
    /// `type` id `is` `private` `;` (Ada 2012, 7.3)
    PrivateType {
        /// `type`
        pos: Pos,
        /// The name of the type.
        name: Identifier,
        /// `is`
        is: Pos,
        /// `private`
        private: Pos,
        /// `;`
        semicolon: Pos,
    },
    /// `type` id `is` `(` id {`,` id} `)` `;` (Ada 2012, 3.5.1)
    EnumerationType {
        /// `type`
        pos: Pos,
        /// The name of the type.
        name: Identifier,
        /// `is`
        is: Pos,
        /// `(`
        left_paren: Pos,
        /// The first literal.
        first: Identifier,
        /// The literals after it.
        rest: Listed<NextIdentifier>,
        /// `)`
        right_paren: Pos,
        /// `;`
        semicolon: Pos,
    },
    /// `type` id `is` `record` comp {comp} `end` `record` `;` (Ada 2012, 3.8)
    RecordType {
        /// `type`
        pos: Pos,
        /// The name of the type.
        name: Identifier,
        /// `is`
        is: Pos,
        /// `record`
        record_word: Pos,
        /// The first declaration of components.
        first: Component,
        /// The declarations after it.
        rest: Listed<Component>,
        /// `end`
        end: Pos,
        /// `record`
        end_record: Pos,
        /// `;`
        semicolon: Pos,
    },
    /// `type` id `is` `array` `(` range `)` `of` mark `;` (Ada 2012, 3.6)
    ArrayType {
        /// `type`
        pos: Pos,
        /// The name of the type.
        name: Identifier,
        /// `is`
        is: Pos,
        /// `array`
        array: Pos,
        /// `(`
        left_paren: Pos,
        /// The index range.
        range: Range,
        /// `)`
        right_paren: Pos,
        /// `of`
        of: Pos,
        /// The element's mark.
        element: Dotted,
        /// `;`
        semicolon: Pos,
    },
    /// `type` id `is` `access` mark `;` (Ada 2012, 3.10)
    AccessType {
        /// `type`
        pos: Pos,
        /// The name of the type.
        name: Identifier,
        /// `is`
        is: Pos,
        /// `access`
        access: Pos,
        /// The designated mark.
        designated: Dotted,
        /// `;`
        semicolon: Pos,
    },
    /// `subtype` id `is` mark `;` (Ada 2012, 3.2.2)
    Subtype {
        /// `subtype`
        pos: Pos,
        /// The name of the subtype.
        name: Identifier,
        /// `is`
        is: Pos,
        /// The mark.
        mark: Dotted,
        /// `;`
        semicolon: Pos,
    },
    /// `subtype` id `is` mark `range` expr `..` expr `;` (Ada 2012, 3.2.2)
    ConstrainedSubtype {
        /// `subtype`
        pos: Pos,
        /// The name of the subtype.
        name: Identifier,
        /// `is`
        is: Pos,
        /// The mark.
        mark: Dotted,
        /// `range`
        range: Pos,
        /// The low bound.
        low: Boxed<Expr>,
        /// `..`
        dots: Pos,
        /// The high bound.
        high: Boxed<Expr>,
        /// `;`
        semicolon: Pos,
    },
    /// id {`,` id} `:` [`constant`] (mark | anon) `;` (Ada 2012, 3.3.1)
    Objects {
        /// The position of the first identifier.
        pos: Pos,
        /// The first identifier.
        first: Identifier,
        /// The identifiers after it.
        rest: Listed<NextIdentifier>,
        /// `:`
        colon: Pos,
        /// `constant`
        constant: Option<Pos>,
        /// What the objects are of.
        indication: Indication,
        /// `;`
        semicolon: Pos,
    },
    /// id {`,` id} `:` [`constant`] (mark | anon) `:=` expr `;` (Ada 2012, 3.3.1)
    InitializedObjects {
        /// The position of the first identifier.
        pos: Pos,
        /// The first identifier.
        first: Identifier,
        /// The identifiers after it.
        rest: Listed<NextIdentifier>,
        /// `:`
        colon: Pos,
        /// `constant`
        constant: Option<Pos>,
        /// What the objects are of.
        indication: Indication,
        /// `:=`
        becomes: Pos,
        /// The initial value.
        value: Boxed<Expr>,
        /// `;`
        semicolon: Pos,
    },
    /// id {`,` id} `:` `constant` `:=` expr `;` (Ada 2012, 3.3.2)
    Numbers {
        /// The position of the first identifier.
        pos: Pos,
        /// The first identifier.
        first: Identifier,
        /// The identifiers after it.
        rest: Listed<NextIdentifier>,
        /// `:`
        colon: Pos,
        /// `constant`
        constant: Pos,
        /// `:=`
        becomes: Pos,
        /// The value.
        value: Boxed<Expr>,
        /// `;`
        semicolon: Pos,
    },
    /// `procedure` id `is` `new` dotted `(` arg {`,` arg} `)` `;` (Ada 2012, 12.3)
    Instance {
        /// `procedure`
        pos: Pos,
        /// The name of the instance.
        name: Identifier,
        /// `is`
        is: Pos,
        /// `new`
        new: Pos,
        /// The generic procedure.
        generic: Dotted,
        /// `(`
        left_paren: Pos,
        /// The first actual.
        first: Boxed<Arg>,
        /// The actuals after it.
        rest: Listed<NextArg>,
        /// `)`
        right_paren: Pos,
        /// `;`
        semicolon: Pos,
    },
    /// usecl (Ada 2012, 8.4)
    Use {
        /// The position of the clause.
        pos: Pos,
        /// The clause.
        clause: UseClause,
    },
    /// pragma (Ada 2012, 2.8)
    Pragma {
        /// The position of the pragma.
        pos: Pos,
        /// The pragma.
        clause: PragmaClause,
    },
}

/// comp, a declaration of components (Ada 2012, 3.8).
#[derive(Drop)]
pub enum Component {
    /// id {`,` id} `:` mark `;`
    Fields {
        /// The position of the first identifier.
        pos: Pos,
        /// The first identifier.
        first: Identifier,
        /// The identifiers after it.
        rest: Listed<NextIdentifier>,
        /// `:`
        colon: Pos,
        /// The mark.
        mark: Dotted,
        /// `;`
        semicolon: Pos,
    },
}

/// mark | anon, where anon = `access` [`constant`] mark: what an object or a function's result is
/// of (Ada 2012, 3.2.2 and 3.10).
#[derive(Drop)]
pub enum Indication {
    /// mark
    Mark {
        /// The position of the mark.
        pos: Pos,
        /// The mark.
        mark: Dotted,
    },
    /// `access` [`constant`] mark
    Anonymous {
        /// `access`
        pos: Pos,
        /// `constant`
        constant: Option<Pos>,
        /// The designated mark.
        designated: Dotted,
    },
}

/// usecl = `use` [`type`] dotted {`,` dotted} `;` (Ada 2012, 8.4)
#[derive(Drop)]
pub struct UseClause {
    /// `use`
    pub pos: Pos,
    /// `type`
    pub type_word: Option<Pos>,
    /// The first name.
    pub first: Dotted,
    /// The names after it.
    pub rest: Listed<NextDotted>,
    /// `;`
    pub semicolon: Pos,
}

/// `(` On `)`
#[derive(Drop)]
pub struct PragmaOn {
    /// `(`
    pub pos: Pos,
    /// On
    pub on: Identifier,
    /// `)`
    pub right_paren: Pos,
}

/// pragma = `pragma` SPARK_Mode [`(` On `)`] `;` (Ada 2012, 2.8)
#[derive(Drop)]
pub struct PragmaClause {
    /// `pragma`
    pub pos: Pos,
    /// SPARK_Mode
    pub name: Identifier,
    /// The argument.
    pub argument: Option<PragmaOn>,
    /// `;`
    pub semicolon: Pos,
}
