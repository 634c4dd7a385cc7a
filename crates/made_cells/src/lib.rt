//! The cells that a step has made so far, over a heap that uses its slots again: definitions and
//! laws, for readers.
//!
//! Until a step stores, its heap has the cells of before, and in front of them those that the step
//! made. Their numbers tell which ones these are (`specs/Since.antt`). So it is where a value or an
//! actual stops (`proofs/Values.antt`, `Actuals.antt`), and where all with greater numbers are freed,
//! the cells of before are left (`Freed.antt`). Nothing here runs.
#![tactic(auto)]
