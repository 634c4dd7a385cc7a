//! Where acts are written.

use crate::call_rows::CallRows;
use program_typing::ProgramTyping;
use std::alloc::Global;

/// The typed rows of a program, and what is known of its types, objects and subprograms.
#[derive(Clone, Copy)]
pub struct ActWriter<'p> {
    /// Where memory comes from.
    pub alloc: Global,
    /// The trees, and which of them have calls.
    pub rows: &'p CallRows<'p>,
    /// The types, the objects and the subprograms.
    pub typing: ProgramTyping<'p>,
}
