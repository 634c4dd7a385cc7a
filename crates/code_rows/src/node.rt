//! Expressions that only read, as they are run. A part of a node is named by its number.

use resolved_tree::{Operator, UnaryOperator};
use run_values::Kind;
use typed_tree::ShortCircuit;

/// A node of an expression that gives one word and changes nothing.
#[derive(Clone, Copy)]
pub enum Node {
    /// A value of Integer, the position of a literal, or 0 for `null`.
    Number {
        value: i32,
    },
    /// The word at an offset in the frame.
    Local {
        at: u32,
    },
    /// The same, with an offset that a node gives added.
    LocalAt {
        at: u32,
        index: u32,
    },
    /// The word at an offset among the package objects.
    Global {
        at: u32,
    },
    /// The same, with an offset that a node gives added.
    GlobalAt {
        at: u32,
        index: u32,
    },
    /// The word of a kind at an offset in the cell that an access value designates.
    Via {
        pointer: u32,
        at: u32,
        kind: Kind,
    },
    /// The same, where the access value stands in the frame.
    ViaLocal {
        local: u32,
        at: u32,
        kind: Kind,
    },
    /// The same, with an offset that a node gives added.
    ViaAt {
        pointer: u32,
        at: u32,
        index: u32,
        kind: Kind,
    },
    /// An index between bounds, as an offset: the words of the elements before it.
    Scaled {
        index: u32,
        low: i32,
        high: i32,
        size: u32,
    },
    /// The sum of two offsets.
    Plus {
        left: u32,
        right: u32,
    },
    /// An operator with one operand.
    Unary {
        operator: UnaryOperator,
        operand: u32,
    },
    /// An operator with two operands that is no short circuit.
    Binary {
        operator: Operator,
        left: u32,
        right: u32,
    },
    /// The same with a number on the right.
    WithNumber {
        operator: Operator,
        left: u32,
        right: i32,
    },
    /// A short circuit.
    Short {
        operator: ShortCircuit,
        left: u32,
        right: u32,
    },
    /// An access value compared with `null`: by `=`, or by `/=`.
    IsNull {
        equal: bool,
        pointer: u32,
    },
    /// The word at an offset among those of the values that the point takes.
    Waiting {
        at: u32,
    },
    /// End_Of_File
    EndOfFile,
}
