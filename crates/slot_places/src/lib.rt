//! What the points of a program do to values of any type and to cells, over the memory of a run whose
//! heap uses its slots again.
//!
//! `assign` makes a value and stores it at a place, after the leak checks of what stood there;
//! `release` frees the cell of a place after its leak checks; `end_scope` makes the leak checks of an
//! object whose scope ends. Failed leak checks are appended to a list (`specs/Steps.antt`).
#![tactic(auto)]

mod assigns;
mod pointers;
mod releases;
mod scopes;

pub use assigns::assign;
pub use releases::release;
pub use scopes::end_scope;
