//! Nodes of typed expressions. A part of a node is named by its number.

use type_definitions::{Operator, Pos, UnaryOperator, Word};

/// A short circuit (Ada 2012, 4.5.1).
#[derive(Clone, Copy, PartialEq, Eq)]
pub enum ShortCircuit {
    /// `and then`
    AndThen,
    /// `or else`
    OrElse,
}

/// A node of a typed expression, of the steps of a name, or of a list of these.
#[derive(Drop)]
pub enum TypedNode {
    /// A value of Integer.
    Number {
        value: i32,
    },
    /// A value of an enumeration: the position of a literal.
    Literal {
        position: u32,
    },
    /// `null`
    Null,
    /// The characters of a string.
    Text {
        text: Word,
    },
    /// A name: the position of its first token, the number of its object, the steps from there, and
    /// its type.
    Name {
        pos: Pos,
        object: u32,
        steps: usize,
        of: u32,
    },
    /// The component with this number, from 0, and the steps after it.
    Component {
        number: u32,
        rest: usize,
    },
    /// What an access value designates, and the steps after it.
    Designated {
        rest: usize,
    },
    /// An element: its index, the bounds of its array, and the steps after it.
    Element {
        index: usize,
        low: i32,
        high: i32,
        rest: usize,
    },
    /// A call of a function: the position of its first token, the number of the subprogram, and the
    /// list of the actuals in the order of the formals.
    Call {
        pos: Pos,
        sub: u32,
        actuals: usize,
    },
    /// End_Of_File
    EndOfFile,
    /// An expression in parentheses, which is no name.
    Parens {
        inner: usize,
    },
    /// The image of a value of this type.
    Image {
        of: u32,
        value: usize,
    },
    /// An operator with one operand.
    Unary {
        operator: UnaryOperator,
        operand: usize,
    },
    /// An operator with two operands that is no short circuit.
    Binary {
        operator: Operator,
        left: usize,
        right: usize,
    },
    /// A short circuit: each operand with the position of its first token.
    Short {
        operator: ShortCircuit,
        left_pos: Pos,
        left: usize,
        right_pos: Pos,
        right: usize,
    },
    /// A name compared with `null`: by `=`, or by `/=`.
    IsNull {
        equal: bool,
        name: usize,
    },
    /// An aggregate of this type: the list of its components or elements in order.
    Aggregate {
        of: u32,
        parts: usize,
    },
    /// An array of this type whose elements all have the one value.
    Alike {
        of: u32,
        value: usize,
    },
    /// An allocator: the type of the object that it makes, and a list of no value or one.
    New {
        of: u32,
        value: usize,
    },
    /// The end of a list, or of the steps of a name.
    NoMore,
    /// The first of a list, and those after it.
    More {
        first: usize,
        rest: usize,
    },
}
