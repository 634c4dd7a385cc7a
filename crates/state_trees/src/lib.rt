//! What may hold, and what may not hold, of the facts of a list, over the control paths that end at
//! one point.
//!
//! A `Tree` borrows the list and says two things of each fact: whether it may hold, as some of the
//! paths have it, and whether it may not, as some lack it. Contracts see it as a `FactState`, which
//! has the list and two lists of truth values (`specs/FactStates.antt`). `apply` is what an act
//! does to the facts of each path, `join` takes in the paths of another tree. `place_names` defines
//! how an act changes facts; `docs/RULES.md`, "Facts" and "Acts", says it in words.
//! `proofs/Effects.antt` has that the two lists of facts change as `effect` says, and
//! `proofs/FactByFact.antt` what a tree says fact by fact.
//! An act changes only facts that it touches, and only they forbid it: those that concern the
//! object it speaks of (`specs/Concerns.antt`, `proofs/Untouched.antt`). So `apply` looks at these
//! alone, and `touched` gives their numbers to the crates of rules. They come from an index, which
//! `start` makes for a longer list and all trees over it share. Where there is none, as for few
//! facts or out of memory, and at a return, which speaks of many objects, all facts are looked at.
//! `start` refuses a list with more facts than a `u32` has numbers for, as if out of memory. It
//! takes time linear in the facts, but for the look-ups of their objects; `apply` is linear in the
//! facts that are looked at, `may` and `always` take constant time, and each other call is linear
//! in all facts. At a move of a name with many parts, a fact of that name is first compared with
//! the part after the one found last, and only where it isn't that part with all of them.
#![tactic(auto)]

mod effect;
mod index;
mod marks;
mod numbers;
mod overlap;
mod tree;

pub use numbers::Numbers;
pub use tree::Tree;
