//! Lays out the subprograms of a typed program.
//!
//! `bare_points` gives the points of a subprogram without their acts and leak checks. `dress` puts
//! these in, and `lay_sub` makes of such points a subprogram with its facts, what the end of a call
//! looks at, the words of its frame and the types of its temporaries; `lay_package` does so for
//! what declares the package objects. `numbered_points` defines them (`specs/Subs.antt`;
//! `docs/FLOW.md`, "Points"). `declared_words` tells once for all code how many words the objects
//! have that it declares. A name with more than 16 selectors is refused, and so are more than 512
//! facts. Time: that of the acts, and each fact that an act adds is compared with those so far, of
//! which there are at most 512; all else is linear but for sorting.
#![tactic(auto)]

mod dressed;
mod fault;
mod subs;
mod words;

pub use dressed::dress;
pub use fault::SubFault;
pub use subs::{lay_package, lay_sub};
pub use words::declared_words;
