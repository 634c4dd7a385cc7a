//! What a subprogram is lowered by.
ghost use Rattle.program_typing.specs.Typings.{typing};
ghost use Rattle.run_lowering.specs.Frames.{IsFrame};

use crate::trees::Trees;
use run_lowering::Frame;

/// What the points of a subprogram are lowered by: the trees; the objects of its frame, and those of
/// packages; the type of its result, the number of its first point, how many points it has, and
/// whether it declares the objects of packages.
#[derive(Clone, Copy)]
pub(crate) struct Body<'p> {
    pub(crate) trees: Trees<'p>,
    pub(crate) frame: &'p Frame,
    pub(crate) packages: &'p Frame,
    pub(crate) result: Option<u32>,
    pub(crate) first: u32,
    pub(crate) count: usize,
    pub(crate) is_first: bool,
    ghost own_right: { IsFrame (typing trees.typing) frame.now },
    ghost package_right: { IsFrame (typing trees.typing) packages.now },
}
