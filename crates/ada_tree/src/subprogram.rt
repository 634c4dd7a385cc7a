//! The front of a subprogram, and the declarations of a package.

use crate::declaration::{Indication, Item};
use crate::identifier::{Dotted, Identifier, NextIdentifier};
use spark_base::{Boxed, Listed, Pos};

/// `=>` On
#[derive(Drop)]
pub struct ModeOn {
    /// `=>`
    pub pos: Pos,
    /// On
    pub on: Identifier,
}

/// `with` SPARK_Mode [`=>` On]: what mode = [`with` SPARK_Mode [`=>` On]] is where it isn't empty
/// (Ada 2012, 13.1.1)
#[derive(Drop)]
pub struct SparkMode {
    /// `with`
    pub pos: Pos,
    /// SPARK_Mode
    pub name: Identifier,
    /// The value.
    pub value: Option<ModeOn>,
}

/// subspec (Ada 2012, 6.1).
#[derive(Drop)]
pub enum Subspec {
    /// `procedure` id [formals]
    Procedure {
        /// `procedure`
        pos: Pos,
        /// The name of the procedure.
        name: Identifier,
        /// The formals.
        formals: Option<Boxed<Formals>>,
    },
    /// `function` id [formals] `return` (mark | anon)
    Function {
        /// `function`
        pos: Pos,
        /// The name of the function.
        name: Identifier,
        /// The formals.
        formals: Option<Boxed<Formals>>,
        /// `return`
        return_word: Pos,
        /// What the result is of.
        result: Indication,
    },
}

/// formals = `(` formal {`;` formal} `)` (Ada 2012, 6.1)
#[derive(Drop)]
pub struct Formals {
    /// `(`
    pub pos: Pos,
    /// The first declaration of formals.
    pub first: Boxed<Formal>,
    /// The declarations after it.
    pub rest: Listed<NextFormal>,
    /// `)`
    pub right_paren: Pos,
}

/// A further declaration of formals.
#[derive(Drop)]
pub enum NextFormal {
    /// `;` formal
    Semicolon {
        /// `;`
        pos: Pos,
        /// The declaration.
        formal: Boxed<Formal>,
    },
}

/// formal (Ada 2012, 6.1).
#[derive(Drop)]
pub enum Formal {
    /// id {`,` id} `:` [`in`] [`out`] mark
    Moded {
        /// The position of the first identifier.
        pos: Pos,
        /// The first identifier.
        first: Identifier,
        /// The identifiers after it.
        rest: Listed<NextIdentifier>,
        /// `:`
        colon: Pos,
        /// `in`
        in_word: Option<Pos>,
        /// `out`
        out_word: Option<Pos>,
        /// The mark.
        mark: Dotted,
    },
    /// id {`,` id} `:` `access` [`constant`] mark (Ada 2012, 3.10 and 6.1)
    Anonymous {
        /// The position of the first identifier.
        pos: Pos,
        /// The first identifier.
        first: Identifier,
        /// The identifiers after it.
        rest: Listed<NextIdentifier>,
        /// `:`
        colon: Pos,
        /// `access`
        access: Pos,
        /// `constant`
        constant: Option<Pos>,
        /// The designated mark.
        designated: Dotted,
    },
}

/// decl (Ada 2012, 3.1).
#[derive(Drop)]
pub enum Decl {
    /// item
    OfItem {
        /// The position of the item.
        pos: Pos,
        /// The item.
        item: Boxed<Item>,
    },
    /// subspec mode `;` (Ada 2012, 6.1)
    Subprogram {
        /// The position of the specification.
        pos: Pos,
        /// The specification.
        spec: Boxed<Subspec>,
        /// The mode.
        mode: Option<SparkMode>,
        /// `;`
        semicolon: Pos,
    },
}
