//! Values of any type, as they are made: over the memory of a run whose heap uses its slots again,
//! with words at hand.
//!
//! `fill` makes a value of `code_rows` as `handled_runs` has it (`specs/Values.antt`): its words are
//! appended to those at hand, cells are made, and what is moved is noted. What is answered is one of
//! the outcomes that may come. The values of a list are made one after the other in a loop; those that
//! aren't made of other values need no call there.
#![tactic(auto)]

mod fills;

pub use fills::fill;
