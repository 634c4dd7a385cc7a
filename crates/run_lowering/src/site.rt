//! What the expressions of a point are lowered by.
ghost use Rattle.std.specs.Prelude.{map};
ghost use Rattle.program_typing.specs.Typings as typings;
ghost use Rattle.type_sorts.specs.Sorted.{AreSorted};
ghost use Rattle.run_lowering.specs.Offsets.{kept_in, AreOffsets, AreStarts};

use flow_acts::CallRows;
use program_typing::ProgramTyping;
use std::alloc::Global;

/// An object that has room in a frame, and whether it is the parameter of a loop.
#[derive(Clone, Copy)]
pub struct Kept {
    pub object: u32,
    pub loops: bool,
}

/// What the expressions of a point are lowered by.
pub struct Site<'p> {
    /// The types, the objects and the subprograms.
    pub typing: ProgramTyping<'p>,
    /// Where memory comes from.
    pub alloc: Global,
    /// The trees, and which of them have calls.
    pub rows: &'p CallRows<'p>,
    /// The objects of the frame, and those of packages, in the order of their offsets.
    pub own: &'p [Kept],
    pub package_objects: &'p [Kept],
    /// The offsets of the same objects, by the number of each.
    pub own_offsets: &'p [Option<u32>],
    pub package_offsets: &'p [Option<u32>],
    /// The types of the values that the point takes, and how many words stand before each.
    pub takes: &'p [u32],
    pub starts: &'p [u32],
    ghost laws: { AreSorted typing.table.now },
    ghost own_right: { AreOffsets (typings.typing typing) (map kept_in own.now) own_offsets.now },
    ghost package_right: { AreOffsets (typings.typing typing) (map kept_in package_objects.now) package_offsets.now },
    ghost starts_right: { AreStarts typing.table.now takes.now starts.now },
}
