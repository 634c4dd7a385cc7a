//! Frames that begin and end, over the memory of a run whose heap uses its slots again.
//!
//! What stands in the frame of a subprogram comes after the words of all frames, without values
//! (`frame_rooms`); the frame runs then, and the one that ran waits (`entering`). Where a call ends,
//! the frame that runs is gone, and the innermost one that waited runs (`leaving`). Nothing here
//! touches the cells.
#![tactic(auto)]

mod entering;
mod frame_rooms;
mod leaving;

pub use entering::{begin, drop_taken};
pub use frame_rooms::{front, push_rooms, push_types, rooms};
pub use leaving::leave;
