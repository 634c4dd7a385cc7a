//! Types and declarations, as typing knows them. A type is named by the number of its declaration,
//! and an anonymous access type by that of the object, formal or function that it belongs to.

use resolved_tree::{Listed, Mode, Pos, Word};

/// A component of a record (Ada 2012, 3.8).
#[derive(Drop)]
pub struct Component {
    /// Its identifier as declared.
    pub name: Word,
    /// Its type.
    pub of: u32,
}

/// The definition of a type.
#[derive(Drop)]
pub enum Shape {
    /// Integer or a subtype of it, with its bounds (Ada 2012, 3.5.4).
    Whole {
        low: i32,
        high: i32,
    },
    /// An enumeration or a subtype of it, with the positions of its bounds (Ada 2012, 3.5.1).
    /// A subtype lists no literals: they are those of its base.
    Listed {
        literals: Listed<Word>,
        low: u32,
        high: u32,
    },
    /// An access type (Ada 2012, 3.10).
    Access {
        designated: u32,
        constant: bool,
        named: bool,
    },
    /// A record, with its components in order (Ada 2012, 3.8).
    Fields {
        components: Listed<Component>,
    },
    /// An array, with the bounds of its index (Ada 2012, 3.6).
    Elements {
        low: i32,
        high: i32,
        element: u32,
    },
    /// A subtype without a constraint: what it is a subtype of (Ada 2012, 3.2.2).
    Same {
        of: u32,
    },
}

/// What is known of a type.
#[derive(Drop)]
pub struct Info {
    /// Its definition: that of its full view.
    pub shape: Shape,
    /// The type that it is a subtype of, or itself (Ada 2012, 3.2.2).
    pub base: u32,
    /// The type in its mark, where it is a subtype.
    pub parent: Option<u32>,
    /// The package in whose private part and body alone it is seen, where it is private (Ada 2012,
    /// 7.3).
    pub seen_in: Option<u32>,
    /// Where it was declared incomplete: the end of its full type, or its identifier where none
    /// has come (Ada 2012, 3.10.1).
    pub completed: Option<Pos>,
    /// Whether the bounds in its definition are known, where it has some: those of an array or of a
    /// scalar subtype that are static and of the type that is demanded.
    pub bounded: bool,
}

/// A static value (Ada 2012, 4.9): its type and its number or position. That of an expression which
/// breaks K1 isn't sound: nothing is concluded from it.
#[derive(Clone, Copy)]
pub struct Static {
    pub base: u32,
    pub value: i32,
    pub sound: bool,
}

/// What is known of the initial value of a list of constants or named numbers (Ada 2012, 4.9).
#[derive(Clone, Copy)]
pub struct InitialValue {
    /// Whether it is static.
    pub is_static: bool,
    /// Its value then, where it has one.
    pub value: Option<Static>,
}

/// What an object is.
#[derive(Clone, Copy)]
pub enum Kind {
    Variable,
    /// A constant or a named number.
    Constant,
    Formal,
    /// The parameter of a `for` loop.
    Parameter,
}

/// An object.
#[derive(Clone, Copy)]
pub struct ObjectInfo {
    /// Its type.
    pub of: u32,
    /// What it is.
    pub kind: Kind,
    /// Whether it is declared in a package.
    pub in_package: bool,
    /// Whether it is a static constant or a named number (Ada 2012, 4.9).
    pub is_static: bool,
    /// Its value then, where it has one.
    pub value: Option<Static>,
}

/// A formal (Ada 2012, 6.1).
#[derive(Drop)]
pub struct FormalInfo {
    /// Its identifier as declared.
    pub name: Word,
    /// Its mode.
    pub mode: Mode,
    /// Its type: none that is known where its mark denotes none.
    pub of: u32,
    /// Whether its mark denotes a type.
    pub typed: bool,
    /// Whether it is the first one of a traversal function.
    pub traversed: bool,
}

/// The profile of a subprogram (Ada 2012, 6.1).
#[derive(Drop)]
pub struct Profile {
    /// Its formals in order.
    pub formals: Listed<FormalInfo>,
    /// The type of its result, where it is a function.
    pub result: Option<u32>,
}

/// The subprograms of the predefined packages.
#[derive(Clone, Copy)]
pub enum Predefined {
    Put,
    PutLine,
    NewLine,
    EndOfFile,
    Get,
    /// Ada.Unchecked_Deallocation
    Deallocation,
}

/// What a declaration is.
#[derive(Drop)]
pub enum Entry {
    /// Not known yet.
    Nothing,
    Package,
    /// A type or a subtype.
    Type,
    Object { object: ObjectInfo },
    /// A literal: its type and its position.
    Literal { of: u32, position: u32 },
    Subprogram { profile: Profile },
    /// An instance of Unchecked_Deallocation: its access type.
    Instance { name: u32 },
    Predefined { which: Predefined },
}

/// All that is known of the declarations, each by its number.
#[derive(Drop)]
pub struct Known {
    /// What they are.
    pub entries: Listed<Entry>,
    /// The types among them.
    pub table: Listed<Info>,
}

/// A type that a declaration makes.
#[derive(Clone, Copy)]
pub struct Made {
    /// Its number.
    pub number: u32,
    /// The position of its identifier.
    pub pos: Pos,
    /// Whether it is no subtype.
    pub full: bool,
    /// Whether its declaration breaks no sentence.
    pub sound: bool,
}
