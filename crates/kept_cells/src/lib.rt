//! Cells as a heap keeps them that uses none again: definitions, and nothing else.
//!
//! A run is defined over the list of all cells that were ever allocated, each with its words and
//! whether it was freed (`specs/Cells.antt`). Heaps whose freed slots are used again are compared
//! with that list.
#![tactic(auto)]
