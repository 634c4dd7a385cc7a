//! The points of a subprogram, laid out by one pass over the rows of a typed program, still without
//! what they do to places.
//!
//! `preps` and `spans` tell of each node how many points it has and how many temporaries these
//! fill, in one pass over the rows, in which parts stand before what they are parts of. `Sizes`
//! holds both tables, and a `Layout` lays out by them: `sub_points` gives the points of a
//! subprogram, and `package_points` those that declare the package objects. A point has its
//! position, its instruction and its successors; its acts and leak checks are empty, since they go
//! by position and instruction alone. `specs/BareLaid.antt` states these points row by row, and
//! `proofs/Dressed.antt` shows that they are those of `numbered_points` with acts and leak checks
//! left out (`docs/FLOW.md`, "Points").
//!
//! Whose scopes end at points is told by a list of truth values by object number, and one for other
//! numbers. A subprogram with
//! more than 16,384 points is told before one is laid out. The only error is out of memory, and
//! more points or temporaries than numbers count are too much for it.
//!
//! Time and memory are linear in the rows and in the points, but for what each block and each loop
//! copies of the objects around it. Calls recurse as deep as statements and expressions nest, and
//! lists are gone along.
#![tactic(auto)]

mod layout;
mod nested;
mod own_objects;
mod plain;
mod prep;
mod prepared;
mod sizes;
mod span;
mod subs;
mod ways;

pub use layout::Layout;
pub use own_objects::{Ends, owned};
pub use prep::{Prep, preps};
pub use sizes::{Sizes, spans};
pub use span::Span;
pub use ways::Ways;
