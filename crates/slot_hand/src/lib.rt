//! Words at hand, and what spots of types hold, over the memory of a run whose heap uses its slots
//! again.
//!
//! `Hand` appends what spots of types hold, stores words there, notes what is moved out of them, makes
//! cells of words, and finds leaks. Which handle a new cell gets and whether there is memory for it,
//! the heap decides; so what is answered is one of the outcomes that may come (`specs/Outcomes.antt`).
//! Besides for cells and moves, memory is taken only where the words at hand become more than ever
//! before.
#![tactic(auto)]

mod hand;
mod spots;
mod words;

pub use hand::Hand;
pub use words::push_leak;
