//! Runs over a heap that uses its slots again, beside those over one that uses none again: definitions
//! and laws, for readers.
//!
//! `run_codes` says what lowered expressions give over words that name cells by their numbers, which are
//! never used again, and where a number that was moved away stands with a minus. `specs/Slots.antt` says
//! the same over the heap of `slot_heap`: words have handles for numbers. What a point moves is noted
//! there, and null stands in its place from the point's last check on; `specs/Changes.antt` has this, and
//! what stores, and cells that are made and freed change. Where both stand beside each other
//! (`specs/Beside.antt`), nothing is gone, and words have the kinds that the code is of
//! (`specs/Looks.antt`), both give the same, but for these names, or over numbers a freed cell is touched
//! (`proofs/Words.antt`, `Places.antt`, `There.antt`); and each change leaves them beside each other
//! (`Stacks.antt`, `Cells.antt`, `Moves.antt`). In the course of a point (`specs/Marks.antt`) marks change
//! nothing of what is read (`proofs/Unmarked.antt`), and what is noted is what is marked
//! (`Marking.antt`, `Framed.antt`). So it is with values, which may move and make (`specs/Values.antt`,
//! `Alike.antt`, `proofs/Filled.antt`), and where a value goes to a place or a cell is released, with the
//! leak checks (`Leaks.antt`, `Assigned.antt`, `Released.antt` of both), and where formals are copied back
//! (`proofs/Backs.antt`). Nothing here runs.
#![tactic(auto)]
