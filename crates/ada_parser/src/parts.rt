//! Parts of units that are read by functions of their own.

use ada_tree::{BodyPart, Decl, Identifier, Item, PrivatePart, Stmts};
use spark_base::{Boxed, Listed, Pos};

/// `end` [id] `;`
#[derive(Drop)]
pub struct Closing {
    /// `end`
    pub end: Pos,
    /// The identifier.
    pub name: Option<Identifier>,
    /// `;`
    pub semicolon: Pos,
}

/// {item} `begin` stmts `end` [id] `;`
#[derive(Drop)]
pub struct Body {
    /// The items.
    pub items: Listed<Item>,
    /// `begin`
    pub begin: Pos,
    /// The statements.
    pub stmts: Boxed<Stmts>,
    /// `end` [id] `;`
    pub closing: Closing,
}

/// {decl} [`private` {decl}] `end` [id] `;`
#[derive(Drop)]
pub struct Decls {
    /// The visible declarations.
    pub visible: Listed<Decl>,
    /// The private part.
    pub private: Option<PrivatePart>,
    /// `end` [id] `;`
    pub closing: Closing,
}

/// {decl | subbody} `end` [id] `;`
#[derive(Drop)]
pub struct BodyParts {
    /// The declarations and bodies.
    pub parts: Listed<BodyPart>,
    /// `end` [id] `;`
    pub closing: Closing,
}
