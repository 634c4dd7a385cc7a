//! The trees of the whole grammar, and what a tree is spelled by.
//!
//! A `SourceUnit` is the tree of one unit. Its parts are `Decl`, `Item`, `Stmt`, `Expr`, `Name` and
//! theirs: one type for each production, one variant for each of its alternatives. Each keeps its
//! parts in order, after the position of its first token: which optional words stood, the position
//! of each token, and the text of each identifier and string. `Trees` owns those of a file.
//! `specs/Spelling.antt` states what a tree is spelled by; `docs/LANGUAGE.md`, "Grammar", has the
//! productions. Laws of the spelling stand in `ada_grammar`.
//! Nothing is refused here. A tree takes memory in proportion to its tokens.
#![tactic(auto)]

mod declaration;
mod expression;
mod identifier;
mod kind;
mod lone;
mod operator;
mod position;
mod range;
mod statement;
mod subprogram;
mod trees;
mod unit;
mod word;

pub use declaration::{Component, Indication, Item, PragmaClause, PragmaOn, UseClause};
pub use expression::{
    Aggregate, Arg, Expr, Factor, Name, NextArg, NextFactor, NextTerm, Operand, Primary, Rel,
    ShortOperand, Suffix, Sum, Term,
};
pub use identifier::{Dotted, Identifier, NextDotted, NextIdentifier, NextPart};
pub use kind::is_left_out;
pub use operator::{AddingOperator, MultiplyingOperator, RelationalOperator, Sign};
pub use range::{Choice, NextChoice, Range};
pub use statement::{Elsif, Stmt, Stmts, When};
pub use subprogram::{Decl, Formal, Formals, ModeOn, NextFormal, SparkMode, Subspec};
pub use trees::Trees;
pub use unit::{BodyPart, Context, Package, PackageBody, PrivatePart, SourceUnit, SubprogramBody};
pub use word::Word;
