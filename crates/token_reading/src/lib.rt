//! Reads single tokens from a cursor, and tells what the functions of a parser owe that are made of
//! such readings.
//!
//! A `Cursor` stands before the tokens of a file that haven't been read, and counts the operators
//! of the outermost expression: a token `Apart` from all expressions ends the count. It is told how
//! many constructs are open where one more is opened.
//! A function that reads promises `Reads reader` of `specs/Reading.antt`: it gives what that pure
//! reader of lists gives. There are the readers of one token and the ways to make larger ones.
//! `specs/Weights.antt` has the spelling of a tree, in which each token carries its weight for the
//! limits, and so the count; `proofs/Law.antt` says what a reader owes of the spelling of its
//! trees, `proofs/` proves it once for each of these ways, and `proofs/Theorem.antt` turns the law
//! of the reader of a whole file into the facts of `specs/Sources.antt`: the one tree of a file, or
//! its faulty token. A fault leaves the cursor at the faulty token. Each call takes constant time,
//! but for the copy of a text.
#![tactic(auto)]

mod cursor;
mod fault;
mod kind;
mod side;
mod token;

pub use cursor::Cursor;
pub use fault::ReadFault;
pub use kind::Kind;
pub use side::Side;
