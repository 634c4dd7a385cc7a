//! The operators that a production gives a choice of (Ada 2012, 4.5).

/// `+` | `-` before the first term of a sum (Ada 2012, 4.5.4)
#[derive(Clone, Copy, Debug, PartialEq, Eq)]
pub enum Sign {
    /// `+`
    Plus,
    /// `-`
    Minus,
}

/// `=` | `/=` | `<` | `<=` | `>` | `>=` (Ada 2012, 4.5.2)
#[derive(Clone, Copy, Debug, PartialEq, Eq)]
pub enum RelationalOperator {
    /// `=`
    Equal,
    /// `/=`
    NotEqual,
    /// `<`
    Less,
    /// `<=`
    LessEqual,
    /// `>`
    Greater,
    /// `>=`
    GreaterEqual,
}

/// `+` | `-` | `&` between terms (Ada 2012, 4.5.3)
#[derive(Clone, Copy, Debug, PartialEq, Eq)]
pub enum AddingOperator {
    /// `+`
    Add,
    /// `-`
    Subtract,
    /// `&`
    Concatenate,
}

/// `*` | `/` | `mod` | `rem` (Ada 2012, 4.5.5)
#[derive(Clone, Copy, Debug, PartialEq, Eq)]
pub enum MultiplyingOperator {
    /// `*`
    Multiply,
    /// `/`
    Divide,
    /// `mod`
    Modulo,
    /// `rem`
    Remainder,
}
