//! What typing says of names and expressions: small values that code and definitions share.

use resolved_tree::Pos;

/// A broken sentence: where, and its number among K1 to K8 or Y1 to Y3.
#[derive(Clone, Copy)]
pub struct Fault {
    pub pos: Pos,
    pub code: u32,
}

/// The values that a choice covers, from a low one to a high one, and where it stands.
#[derive(Clone, Copy)]
pub struct Cover {
    pub at: Pos,
    pub low: i32,
    pub high: i32,
}

/// The definition of a type as it is seen at some point, without what it lists.
#[derive(Clone, Copy)]
pub enum View {
    /// A private type, from outside of its package.
    Hidden,
    Whole {
        low: i32,
        high: i32,
    },
    Listed {
        low: u32,
        high: u32,
    },
    Access {
        designated: u32,
        constant: bool,
        named: bool,
    },
    Fields,
    Elements {
        low: i32,
        high: i32,
        element: u32,
    },
}

/// Where a selector, an index, a dereference or an attribute leads.
#[derive(Clone, Copy)]
pub enum Next {
    /// To a part of this type.
    Goes { of: u32 },
    /// To a number.
    Gives { value: i64 },
    /// Nowhere: it doesn't fit what stands before it.
    Stops,
}

/// What a name is as a value.
#[derive(Clone, Copy)]
pub enum Reading {
    /// Nothing: it breaks K1.
    Off,
    /// A place of this type.
    Place { of: u32 },
    /// A literal, or an attribute that is a number: its type and its value.
    Value { of: u32, value: i64 },
    /// A call of this function.
    Call { function: u32 },
    /// `Image` of a scalar type.
    Image { of: u32 },
    /// End_Of_File
    EndOfFile,
}

/// What type an expression has by itself.
#[derive(Clone, Copy)]
pub enum Own {
    /// Not known: it is a name that breaks K1.
    Unknown,
    /// That of its place: `null`, an aggregate, an allocator.
    Demanding,
    /// It is a string expression.
    Text,
    Of { of: u32 },
}

/// Where an expression stands, for what may stand there of owning types.
#[derive(Clone, Copy)]
pub enum Where {
    /// Where a value is stored or returned.
    Stored,
    /// As an `in` actual.
    Actual,
    /// After `others =>`.
    AfterOthers,
    /// In parentheses.
    InParens,
    Elsewhere,
}

/// What the arguments of a list are for.
#[derive(Clone, Copy)]
pub enum Role {
    /// The components or elements of this type.
    Parts { of: u32 },
    /// The actuals of this subprogram.
    Actuals { of: u32 },
    /// The value of an allocator with a mark of this type.
    Allocated { of: u32 },
    /// Expressions that are all of this type.
    Every { of: u32 },
}

/// What the arguments after a name are.
#[derive(Clone, Copy)]
pub enum Way {
    /// Indexes, along a place that is of this type so far.
    Along { of: u32 },
    /// Those of one call.
    Giving { role: Role },
}
