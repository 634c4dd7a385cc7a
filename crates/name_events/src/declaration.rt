//! Declarations and their regions, and what an identifier denotes.

use spark_base::Pos;

/// What an identifier is declared as.
#[derive(Clone, Copy)]
pub enum DeclarationForm {
    /// A package (Ada 2012, 7.1).
    Package,
    /// Ada.Unchecked_Deallocation (Ada 2012, 13.11.2).
    Generic,
    /// `type` id `;` (Ada 2012, 3.10.1)
    IncompleteType,
    /// `type` id `is` `private` `;` (Ada 2012, 7.3)
    PrivateType,
    /// A type with its definition (Ada 2012, 3.2.1).
    FullType,
    /// A subtype (Ada 2012, 3.2.2).
    Subtype,
    /// A literal of an enumeration (Ada 2012, 3.5.1).
    Literal,
    /// A variable, a constant or a named number (Ada 2012, 3.3).
    Object,
    /// A formal of a subprogram (Ada 2012, 6.1).
    Formal,
    /// The parameter of a `for` loop (Ada 2012, 5.5).
    LoopParameter,
    /// A procedure or function without its body (Ada 2012, 6.1).
    SubprogramDeclaration,
    /// A procedure with its body (Ada 2012, 6.3).
    ProcedureBody,
    /// A function with its body (Ada 2012, 6.3).
    FunctionBody,
    /// An instance of a generic procedure (Ada 2012, 12.3).
    Instance,
}

/// Where in a region something stands. A region that is no package has a visible part alone.
#[derive(Clone, Copy)]
pub enum RegionPart {
    /// The visible part of a package (Ada 2012, 7.1).
    Visible,
    /// The private part of a package (Ada 2012, 7.1).
    Private,
    /// The body of a package (Ada 2012, 7.2).
    Body,
}

/// A declaration, without its name.
#[derive(Clone, Copy)]
pub struct Declaration {
    /// Its number: how many identifiers were declared before it.
    pub number: usize,
    /// The position of its identifier.
    pub pos: Pos,
    /// What is declared.
    pub form: DeclarationForm,
    /// The number of the region in which it stands.
    pub region: usize,
    /// The part of that region.
    pub part: RegionPart,
    /// The number of its own region, where it is a package.
    pub own_region: usize,
}

/// A region that is open.
#[derive(Clone, Copy)]
pub struct OpenRegion {
    /// Its number.
    pub region: usize,
    /// Its part that is open.
    pub part: RegionPart,
}

/// A rule of names that is broken, with its code (`docs/LANGUAGE.md`, "Names").
#[derive(Clone, Copy)]
pub enum NameRule {
    /// N1
    Unknown,
    /// N2
    Twice,
    /// N3
    NotVisible,
    /// N4
    TooEarly,
    /// N5
    NoBody,
    /// N6
    WrongEnd,
}

/// What an identifier denotes.
#[derive(Clone, Copy)]
pub enum Meaning {
    /// A declaration.
    Denotes(Declaration),
    /// Nothing, since this rule is broken.
    Breaks(NameRule),
}

/// What a declaration declares, as later stages see it.
#[derive(Clone, Copy)]
pub enum DeclKind {
    /// A declaration of the language itself.
    Predefined,
    /// A package.
    Package,
    /// A type or subtype.
    TypeName,
    /// A literal of an enumeration.
    Literal,
    /// A variable, a constant or a named number.
    Object,
    /// A formal of a subprogram.
    Formal,
    /// The parameter of a `for` loop.
    Parameter,
    /// A procedure or function.
    Subprogram,
    /// An instance of a generic procedure.
    Instance,
}

/// A declaration as later stages see it.
#[derive(Clone, Copy)]
pub struct DeclInfo {
    /// The position of its identifier; of a predefined one the beginning of the first file.
    pub pos: Pos,
    /// What it declares.
    pub kind: DeclKind,
    /// The number of its region, from 0: the predefined one, then each in the order of its first
    /// token.
    pub region: u32,
}

/// An identifier that uses, makes or completes a declaration.
#[derive(Clone, Copy)]
pub struct Identified {
    /// Its first byte.
    pub pos: Pos,
    /// The number of the declaration.
    pub number: u32,
}
