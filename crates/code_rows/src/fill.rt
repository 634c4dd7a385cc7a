//! Values of any type, as they are made: words are pushed, cells are made, and what is moved is
//! taken away.

use crate::place::Place;

/// A part of a value. A part of it is named by its number.
#[derive(Clone, Copy)]
pub enum Fill {
    /// No words.
    Nothing,
    /// One scalar word within bounds.
    Checked { value: u32, low: i32, high: i32 },
    /// An access value that is looked at.
    Pointer { value: u32 },
    /// An access value that is taken out of its place.
    MovedPointer { place: Place },
    /// What a place of a type holds.
    Copied { place: Place, of: u32 },
    /// What a place of a type holds, whose access parts are taken out.
    Moved { place: Place, of: u32 },
    /// Words of the values that the point takes.
    Waited { at: u32, words: u32 },
    /// A new cell of a type, with a value.
    New { value: u32, of: u32 },
    /// What an object of a type has without a value.
    Default { of: u32 },
    /// The same value so many times.
    Repeated { value: u32, count: u32 },
    /// One after the other.
    Both { first: u32, second: u32 },
}
