//! The memory of a run over any heap that uses its slots again: the words of all frames, those of
//! values that wait, the cells, and the input.
//!
//! `Memory` reads and puts words: of the frame that runs, of the package objects, of the values that
//! the point takes, and of cells; one word (`memory`), or those of some kinds at a spot (`blocks`).
//! It makes and frees cells, and keeps frames, values that wait, and how far the input is read
//! (`frames`). What a point moves is noted, and null stands in its place once it is settled
//! (`moves`). Contracts see what the memory keeps (`specs/Memory.antt`), which stands for slots of
//! `handled_runs`: its heap is one that the store means. Each call gives what is defined there, and
//! asks that what it reads is there. Nothing else of a run touches the store. Memory is taken where
//! words are appended and where a cell is made; too little of it is answered with `Stop::Memory`.
#![tactic(auto)]

mod blocks;
mod cells;
mod frames;
mod heap;
mod memory;
mod moves;
mod spot;

pub use memory::Memory;
pub use spot::Spot;
