//! Points, as they are run. Each of their parts is named by its number, or by a range of numbers.

use crate::place::Place;
use crate::range::Range;
use run_values::Kind;
use spark_base::Pos;

/// The number of a point where none follows: the package objects are declared, and the main
/// procedure begins.
pub const NONE: u32 = u32::MAX;

/// How an actual is passed.
#[derive(Clone, Copy)]
pub enum Actual {
    /// A scalar value, within the bounds of its formal.
    Word { value: u32, low: i32, high: i32 },
    /// Any value, also one that is looked at.
    Value { value: u32 },
    /// A place of a type by `in out`: its value has to fit the type of the formal.
    From { place: Place, of: u32, formal: u32 },
    /// A place of a type by `out`, and where its leak checks stand.
    To { place: Place, of: u32, pos: Pos },
}

/// A piece of a string.
#[derive(Clone, Copy)]
pub enum Text {
    /// Bytes.
    Bytes { bytes: Range },
    /// The image of a value of Integer.
    Number { value: u32 },
    /// The image of a value of an enumeration.
    Literal { value: u32, of: u32 },
}

/// An interval of choices, and where it leads.
#[derive(Clone, Copy)]
pub struct Choice {
    pub low: i32,
    pub high: i32,
    pub next: u32,
}

/// What stands in a frame.
#[derive(Clone, Copy)]
pub enum Room {
    /// An object of a type.
    Object { of: u32 },
    /// The bounds of a `for` loop, and whether its first turn is still to come.
    Counter,
}

/// What a point does, and which point follows.
#[derive(Clone, Copy)]
pub enum Does {
    /// Nothing.
    Go {
        next: u32,
    },
    /// A scalar value is put at an offset in the frame.
    Put {
        at: u32,
        value: u32,
        low: i32,
        high: i32,
        next: u32,
    },
    /// An access value that is looked at is put at an offset in the frame.
    PutPointer {
        at: u32,
        value: u32,
        next: u32,
    },
    /// A scalar value is stored at a place.
    Store {
        place: Place,
        value: u32,
        low: i32,
        high: i32,
        kind: Kind,
        next: u32,
    },
    /// A value of a type is stored at a place, after its leak checks where they have a position.
    Assign {
        place: Place,
        value: u32,
        of: u32,
        pos: Option<Pos>,
        next: u32,
    },
    /// A call of a subprogram.
    Call {
        sub: u32,
        actuals: Range,
        next: u32,
    },
    /// Pieces of a string are written, and maybe the end of a line.
    Output {
        texts: Range,
        line: bool,
        next: u32,
    },
    /// The next item of the input, within bounds, is stored at a place.
    Input {
        place: Place,
        low: i32,
        high: i32,
        next: u32,
    },
    /// The cell of a type that a place designates is freed after its leak checks.
    Release {
        place: Place,
        of: u32,
        pos: Pos,
        next: u32,
    },
    /// A condition.
    Test {
        condition: u32,
        holds: u32,
        fails: u32,
    },
    /// A value leads to the first choice that has it.
    Choose {
        selector: u32,
        choices: Range,
    },
    /// The start of a `for` loop: its parameter, its counter, the bounds of the loop, and those of
    /// the parameter.
    Start {
        at: u32,
        counter: u32,
        low: u32,
        high: u32,
        first: i32,
        last: i32,
        next: u32,
    },
    /// The next turn of a `for` loop, or its end, which leaves its parameter without a value.
    Next {
        at: u32,
        counter: u32,
        reversed: bool,
        without: i32,
        turn: u32,
        leave: u32,
    },
    /// The left operand of a short circuit, whose value waits.
    EvaluateLeft {
        operand: u32,
        or_else: bool,
        next: u32,
        decided: u32,
    },
    /// The right operand, whose value waits in place of the left one's.
    EvaluateRight {
        operand: u32,
        next: u32,
    },
    /// The result of a type waits in the frame of the caller.
    Hold {
        value: u32,
        of: u32,
        next: u32,
    },
    /// The scope of an object of a named access type ends.
    EndPointer {
        at: u32,
        next: u32,
    },
    /// The scope of an object of another type ends.
    EndScope {
        at: u32,
        of: u32,
        next: u32,
    },
    /// The end of a call.
    Finish,
    /// The end of a function, which raises Program_Error.
    Fall,
}

/// A point: what it does, the types of the values that it takes, and where it stands in the source.
#[derive(Clone, Copy)]
pub struct Point {
    pub does: Does,
    pub takes: Range,
    pub pos: Pos,
}

/// A subprogram: its first point, the words that count for it, what stands in its frame, and how many
/// of that are formals, which come first.
#[derive(Clone, Copy)]
pub struct Sub {
    pub first: u32,
    pub words: u64,
    pub rooms: Range,
    pub formals: u32,
}
