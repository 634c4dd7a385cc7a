//! Instructions: what the step of a point does.

use typed_tree::{Listed, ShortCircuit};

/// The instruction of a point. Names and expressions are those of the typed program, by number of
/// the node.
#[derive(Drop)]
pub enum Instr {
    /// `null;`
    Skip,
    /// The declaration of an object: its number, and a list of no initial value or one.
    Declare {
        object: u32,
        value: usize,
    },
    /// target `:=` source. The source is evaluated first.
    Assign {
        target: usize,
        source: usize,
    },
    /// A call: the number of the subprogram, the actuals in the order of the formals, and for a
    /// function the temporary that takes the result.
    Call {
        sub: u32,
        actuals: usize,
        result: Option<u32>,
    },
    /// Put, Put_Line and New_Line: a list of no string expression or one, and whether a line ends.
    Output {
        text: usize,
        line: bool,
    },
    /// Get: the name that takes the value.
    Input {
        target: usize,
    },
    /// A call of an instance of Unchecked_Deallocation: the name that is freed.
    Release {
        name: usize,
    },
    /// The condition of an `if`, an `elsif` or a `while`.
    Test {
        condition: usize,
    },
    /// `case`: its expression, and of each alternative the list of choices.
    Choose {
        selector: usize,
        choices: Listed<usize>,
    },
    /// The start of a `for` loop, where the bounds are evaluated.
    Start {
        parameter: u32,
        reverse: bool,
        low: usize,
        high: usize,
    },
    /// The next iteration of a `for` loop, or its end. The bounds are not evaluated again.
    Next {
        parameter: u32,
        reverse: bool,
        low: usize,
        high: usize,
    },
    /// An operand of a short circuit, whose value a temporary takes; of a left operand it is told
    /// which short circuit that is.
    Evaluate {
        temporary: u32,
        operand: usize,
        left_of: Option<ShortCircuit>,
    },
    /// `exit`, with a list of no condition or one.
    LeaveLoop {
        condition: usize,
    },
    /// `return`, with a list of no value or one.
    Hold {
        value: usize,
    },
    /// The end of the scope of an object.
    EndScope {
        object: u32,
    },
    /// The end of a call.
    Finish,
    /// The end of a function, which raises Program_Error.
    Fall,
}
