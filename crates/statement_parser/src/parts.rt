//! Parts of items and statements that are read by functions of their own.

use ada_tree::{Arg, Dotted, Identifier, NextArg, NextIdentifier, Stmts};
use spark_base::{Boxed, Listed, Pos};

/// `)` `of` mark `;`
#[derive(Drop)]
pub struct Element {
    /// `)`
    pub right_paren: Pos,
    /// `of`
    pub of: Pos,
    /// The mark of the elements.
    pub mark: Dotted,
    /// `;`
    pub semicolon: Pos,
}

/// id {`,` id} `)` `;`
#[derive(Drop)]
pub struct Literals {
    /// The first literal.
    pub first: Identifier,
    /// The literals after it.
    pub rest: Listed<NextIdentifier>,
    /// `)`
    pub right_paren: Pos,
    /// `;`
    pub semicolon: Pos,
}

/// arg {`,` arg} `)` `;`
#[derive(Drop)]
pub struct Actuals {
    /// The first actual.
    pub first: Boxed<Arg>,
    /// The actuals after it.
    pub rest: Listed<NextArg>,
    /// `)`
    pub right_paren: Pos,
    /// `;`
    pub semicolon: Pos,
}

/// `end`, the word that opened the construct, `;`
#[derive(Drop)]
pub struct Ending {
    /// `end`
    pub end: Pos,
    /// The word.
    pub word: Pos,
    /// `;`
    pub semicolon: Pos,
}

/// `loop` stmts `end` `loop` `;`
#[derive(Drop)]
pub struct LoopBody {
    /// `loop`
    pub loop_word: Pos,
    /// The statements.
    pub stmts: Boxed<Stmts>,
    /// `end` `loop` `;`
    pub ending: Ending,
}
