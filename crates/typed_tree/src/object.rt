//! Objects, as a typed program numbers them.

use type_definitions::{Mode, Word};

/// What an object is.
#[derive(Clone, Copy)]
pub enum ObjectKind {
    /// The state of Ada.Text_IO.
    TextIo,
    Variable,
    /// A constant or a named number.
    Constant,
    Formal,
    /// The parameter of a `for` loop.
    Parameter,
    /// What holds a value between two points. No source declares one.
    Temporary,
}

/// An object.
#[derive(Drop)]
pub struct Object {
    /// Its identifier as declared.
    pub name: Word,
    /// The identifier of its package as declared, where it is declared in one.
    pub package: Option<Word>,
    /// Its type.
    pub of: u32,
    pub kind: ObjectKind,
    /// The mode of a formal. What is none has the mode `in`.
    pub mode: Mode,
    /// The number of the scope that it is declared in.
    pub scope: u32,
}
