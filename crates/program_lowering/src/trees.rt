//! The trees of a program.
ghost use Rattle.std.specs.Prelude.{◌≡◌};
ghost use Rattle.type_sorts.specs.Sorted.{AreSorted};

use flow_acts::CallRows;
use program_typing::ProgramTyping;
use std::alloc::Global;
use typed_tree::TypedRows;

/// The trees and the code of a program, and what is known of its types, objects and subprograms.
#[derive(Clone, Copy)]
pub(crate) struct Trees<'p> {
    /// Where memory comes from.
    pub(crate) alloc: Global,
    pub(crate) typing: ProgramTyping<'p>,
    pub(crate) rows: &'p CallRows<'p>,
    pub(crate) code: &'p TypedRows,
    ghost sorted: { AreSorted typing.table.now },
    ghost same_code: { code.now ≡ rows.now },
}
