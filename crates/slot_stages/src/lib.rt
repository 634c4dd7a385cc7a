//! What is kept of a run between two steps, over a heap that uses its slots again, and the state that
//! it stands for: definitions and laws, and no code.
//!
//! `state_of` (`specs/Stages.antt`) makes a state of the memory with what no code keeps, the frames,
//! and what wasn't told yet. `proofs/` has what a step sees of it (`Sights.antt`), what is kept where
//! it goes on, where it waits and where a frame ends (`Goes.antt`), where the main procedure begins
//! and ends (`Mains.antt`), and what is kept before the first step (`Starts.antt`).
#![tactic(auto)]
