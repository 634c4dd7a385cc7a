//! A heap whose freed slots are used again: what a run is to ask of it, and such a heap over values.
//!
//! `Store` tests nothing: a touch is within a live cell and of the kind that stands there, and callers
//! see to that. Contracts see the heaps that a store means (`specs/Heaps.antt`): live handles with
//! their words, and the slots that were made. A cell is made of plain words, which are of some kinds
//! (`specs/Words.antt`); `value_of` is the value that a word of a kind is kept for, `word_of` the word. `ReuseStore` keeps cells in runs of one list of words; a
//! handle is the index of the first word of its run. A free run designates the next one of its size
//! by its first word, so no call but `allocate` takes memory. All calls of `allocate` together take
//! time in proportion to their words, and each other call takes the same time always.
#![tactic(auto)]

mod reuse_store;
mod store;
mod values;

pub use reuse_store::ReuseStore;
pub use store::Store;
pub use values::{value_of, word_of};
