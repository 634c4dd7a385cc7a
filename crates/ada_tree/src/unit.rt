//! Units: packages, their bodies and bodies of subprograms, with their contexts.

use crate::declaration::{Item, PragmaClause, UseClause};
use crate::identifier::{Dotted, Identifier, NextDotted};
use crate::statement::Stmts;
use crate::subprogram::{Decl, SparkMode, Subspec};
use spark_base::{Boxed, Listed, Pos};

/// unit (Ada 2012, 10.1.1).
#[derive(Drop)]
pub enum SourceUnit {
    /// {context} package
    OfPackage {
        /// The position of the first clause, and of the package where there is none.
        pos: Pos,
        /// The context.
        context: Listed<Context>,
        /// The package.
        package: Boxed<Package>,
    },
    /// {context} packbody
    OfBody {
        /// The position of the first clause, and of the body where there is none.
        pos: Pos,
        /// The context.
        context: Listed<Context>,
        /// The body.
        body: Boxed<PackageBody>,
    },
    /// {context} subbody
    OfSubprogram {
        /// The position of the first clause, and of the subprogram where there is none.
        pos: Pos,
        /// The context.
        context: Listed<Context>,
        /// The subprogram.
        body: Boxed<SubprogramBody>,
    },
}

/// context (Ada 2012, 10.1.2).
#[derive(Drop)]
pub enum Context {
    /// `with` dotted {`,` dotted} `;`
    With {
        /// `with`
        pos: Pos,
        /// The first name.
        first: Dotted,
        /// The names after it.
        rest: Listed<NextDotted>,
        /// `;`
        semicolon: Pos,
    },
    /// usecl (Ada 2012, 8.4)
    Use {
        /// The position of the clause.
        pos: Pos,
        /// The clause.
        clause: UseClause,
    },
    /// pragma (Ada 2012, 2.8)
    Pragma {
        /// The position of the pragma.
        pos: Pos,
        /// The pragma.
        clause: PragmaClause,
    },
}

/// package = `package` id mode `is` {decl} [`private` {decl}] `end` [id] `;` (Ada 2012, 7.1)
#[derive(Drop)]
pub struct Package {
    /// `package`
    pub pos: Pos,
    /// The name of the package.
    pub name: Identifier,
    /// The mode.
    pub mode: Option<SparkMode>,
    /// `is`
    pub is: Pos,
    /// The visible part.
    pub visible: Listed<Decl>,
    /// The private part.
    pub private: Option<PrivatePart>,
    /// `end`
    pub end: Pos,
    /// The name after `end`.
    pub closing: Option<Identifier>,
    /// `;`
    pub semicolon: Pos,
}

/// `private` {decl} (Ada 2012, 7.1)
#[derive(Drop)]
pub struct PrivatePart {
    /// `private`
    pub pos: Pos,
    /// The declarations.
    pub decls: Listed<Decl>,
}

/// packbody = `package` `body` id mode `is` {decl | subbody} `end` [id] `;` (Ada 2012, 7.2)
#[derive(Drop)]
pub struct PackageBody {
    /// `package`
    pub pos: Pos,
    /// `body`
    pub body: Pos,
    /// The name of the package.
    pub name: Identifier,
    /// The mode.
    pub mode: Option<SparkMode>,
    /// `is`
    pub is: Pos,
    /// The declarations and bodies.
    pub parts: Listed<BodyPart>,
    /// `end`
    pub end: Pos,
    /// The name after `end`.
    pub closing: Option<Identifier>,
    /// `;`
    pub semicolon: Pos,
}

/// decl | subbody (Ada 2012, 3.11)
#[derive(Drop)]
pub enum BodyPart {
    /// decl
    Declared {
        /// The position of the declaration.
        pos: Pos,
        /// The declaration.
        decl: Boxed<Decl>,
    },
    /// subbody (Ada 2012, 6.3)
    Completed {
        /// The position of the body.
        pos: Pos,
        /// The body.
        body: Boxed<SubprogramBody>,
    },
}

/// subbody = subspec mode `is` {item} `begin` stmts `end` [id] `;` (Ada 2012, 6.3)
#[derive(Drop)]
pub struct SubprogramBody {
    /// The position of the specification.
    pub pos: Pos,
    /// The specification.
    pub spec: Boxed<Subspec>,
    /// The mode.
    pub mode: Option<SparkMode>,
    /// `is`
    pub is: Pos,
    /// The declarative part.
    pub items: Listed<Item>,
    /// `begin`
    pub begin: Pos,
    /// The statements.
    pub stmts: Boxed<Stmts>,
    /// `end`
    pub end: Pos,
    /// The name after `end`.
    pub closing: Option<Identifier>,
    /// `;`
    pub semicolon: Pos,
}
