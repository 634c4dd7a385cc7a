//! What each identifier of a text denotes, or the first rule of names that it breaks.
//!
//! `resolve` takes the units of the files, the trees of some texts. It lists what they do with
//! names (`name_events`), and goes over the list once: each name is looked up in what is known
//! before it, and after the list each declaration that asks for a completion must have one. Where a
//! rule is broken, which one it is takes what stands later. Then it goes over the list again, first
//! to learn all declarations, and once more to look each name up: what is known after the whole
//! text and not yet before a name stands later. The rules and what a name denotes are definitions
//! of `name_events`; `specs/Stands.antt` says how the tables here stand for the lists there. They
//! keep each word once, and know it by a symbol. Time and memory are linear in the sources but for
//! look-ups by hash, and for a name that no enclosing region has. For that each region with a
//! declaration of it in a visible part is asked whether it is one of a package in use, in each
//! enclosing region; or each package in use is looked at, where these are no more, or where two of
//! them have the name. The bodies of a package share what its context gives to them.
#![tactic(auto)]

mod contexts;
mod declarations;
mod entry_index;
mod form;
mod found;
mod infos;
mod knowledge;
mod learn;
mod number_lists;
mod numbers;
mod one_pass;
mod predefined;
mod refusal;
mod region_sets;
mod regions;
mod rules;
mod sighting;
mod source_files;
mod table;
mod used;
mod withs;
mod words;

pub use refusal::NameRefusal;
pub use source_files::{Resolved, resolve};
