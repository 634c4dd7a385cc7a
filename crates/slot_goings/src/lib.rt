//! Points after which the run goes on in the same frame, and which write and read nothing outside:
//! what they change over a memory whose heap uses its slots again, and where they lead.
//!
//! `change_words` does what stores one word at most: declarations and assignments of scalars, tests,
//! choices and `for` loops. `change_values` does what may have leak checks: assignments of values of
//! any type, releases, and the ends of scopes. `specs/Changes.antt` says what they change by the
//! definitions of `slot_points` and `slot_places`.
#![tactic(auto)]

mod groups;
mod values;
mod words;

pub use groups::{Group, grouped};
pub use values::change_values;
pub use words::change_words;
