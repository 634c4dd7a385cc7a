//! What stands in the words of a type, by its definition in the table.
//!
//! Appended are the kinds of its words, the words of an object without a value, and at which of
//! them its access parts stand, as `run_codes` (`specs/Flat.antt`) and `machine` (`specs/Words.antt`)
//! define them. What a type is made of is looked at anew each time: nothing is kept of types that
//! a run doesn't come to. Of the elements of an array the first alone is looked at, and its kinds and
//! words are copied. The only error is out of memory.
#![tactic(auto)]

mod defaults;
mod kinds;
mod offsets;
mod pointers;
mod repeats;
mod spans;

pub use defaults::push_defaults;
pub use kinds::push_kinds;
pub use offsets::push_access_offsets;
pub use pointers::is_pointer;
