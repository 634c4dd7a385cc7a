//! Whether the words of each type of a table have the sorts that its definition tells.
//!
//! `are_sorted` looks at the definitions once, each after those that it is made of, in time linear
//! in the table. Its answer is `true` only where the sorts of each type are made of those of its
//! parts (`specs/Sorted.antt`), so that equal definitions have equal sorts; it is `false` where a
//! type has itself in it, which breaks a rule of typing. The only error is out of memory.
#![tactic(auto)]

mod looked;

pub use looked::are_sorted;
