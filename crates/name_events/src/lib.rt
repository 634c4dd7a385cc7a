//! Lists what a text does with names, and says what each identifier denotes.
//!
//! An `EventList` takes the trees of one file after the other and adds an `Event` for each thing
//! that they do with names, in the order of the tokens: an identifier is declared, a name is used,
//! a region opens or closes, declarations end. Positions of tokens play no part in it: the order of
//! the list tells what comes before and after. `specs/Outline.antt` states what each production
//! does. The definitions of the rules of names are over that list: what is known at each point
//! (`specs/Known.antt`, `specs/KnownBehind.antt`), what occurrences denote (`specs/Denotes.antt`),
//! the declaration of each identifier by its position (`specs/Identified.antt`), and the rules N1
//! to N6 (`specs/Faults.antt`); `docs/LANGUAGE.md`, "Names", says them in words (Ada 2012, 8.1 to
//! 8.4, 3.11.1, 10.1). The only error is out of memory, told once for all files by `finish`. Time
//! and memory are linear in the tokens.
#![tactic(auto)]

mod declaration;
mod event;
mod event_list;
mod expression;
mod item;
mod range;
mod statement;
mod subprogram;
mod unit;

pub use declaration::{
    DeclInfo, DeclKind, Declaration, DeclarationForm, Identified, Meaning, NameRule, OpenRegion,
    RegionPart,
};
pub use event::{Clause, Event, FoldedIdentifier, FoldedName};
pub use event_list::EventList;
