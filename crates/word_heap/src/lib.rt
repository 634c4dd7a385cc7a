//! The heap of `slot_heap` over plain numbers, without their kinds.
//!
//! `WordStore` keeps null as 0, an access value as one more than its handle, a value of Integer as
//! itself, and one of an enumeration by its position (`specs/Codes.antt`). The kind that a read asks
//! for tells which value the number is. So a free run is used again by any type of its size.
#![tactic(auto)]

mod codes;
mod word_store;

pub use word_store::WordStore;
