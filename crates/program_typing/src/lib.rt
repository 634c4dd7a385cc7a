//! What the layout of a program asks of its types, objects and subprograms.
//!
//! A `ProgramTyping` borrows a table of types, the objects of a typed program and the signatures of
//! its subprograms. Each method answers a question that `flow_paths` defines
//! (`specs/Objects.antt`; `docs/FLOW.md`, "Acts"): what an object is, how an actual is passed, what
//! an access type designates. The answers are those of the definitions for each number; past the
//! objects stands Ada.Text_IO, and past the subprograms one without formals and result. Nothing is
//! refused. Each answer takes constant time, but for the list of all passings of a call.
#![tactic(auto)]

mod calls;
mod objects;
mod passing;
mod signature;
mod typing;
mod views;

pub use passing::Passing;
pub use signature::Signature;
pub use typing::ProgramTyping;
pub use views::{
    designated_of, is_anonymous, is_borrowing, is_named_access, is_observing, is_variable_access,
};
