//! Places, as they are run.

/// Where words stand: in the frame, among the package objects, or in the cell that an access value
/// designates; at an offset, to which another one may be added that a node gives.
#[derive(Clone, Copy)]
pub enum Place {
    Local { at: u32 },
    LocalAt { at: u32, index: u32 },
    Global { at: u32 },
    GlobalAt { at: u32, index: u32 },
    Behind { pointer: u32, at: u32 },
    BehindAt { pointer: u32, at: u32, index: u32 },
}
