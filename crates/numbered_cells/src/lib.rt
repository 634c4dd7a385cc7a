//! Cells by numbers that are never used again, beside a heap whose handles are: definitions and laws,
//! and no code.
//!
//! `Follows` (`specs/Follows.antt`) says that a heap of `slot_heap` has just the cells of a list that
//! are there and not freed, with handles in place of numbers, and null where a name is gone. The laws
//! (`proofs/Numbering.antt`) keep it where a cell is made, written and freed in both, and say what a
//! touch of a cell that is there asks of the heap.
#![tactic(auto)]
