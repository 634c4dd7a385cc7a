//! What the points of a program do when they are run, over the memory of a run whose heap uses its
//! slots again.
//!
//! A word is put at an offset in the frame (`puts`) or stored at a place (`stores`), an item of the
//! input is (`inputs`), a `for` loop starts or turns (`loops`), and a condition or a choice leads to a
//! point (`branches`). Each does what `handled_steps` defines (`specs/Steps.antt`), and asks that what
//! it reads is there.
#![tactic(auto)]

mod between;
mod branches;
mod inputs;
mod loops;
mod puts;
mod stores;
mod texts;

pub use branches::{choose, decided, test};
pub use inputs::input;
pub use loops::{next_turn, start_loop};
pub use puts::{end_pointer, put, put_pointer};
pub use stores::store;
pub use texts::output;
