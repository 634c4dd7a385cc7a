//! What is looked up of objects and of values that wait.
ghost use Rattle.std.specs.Prelude.{◌≡◌, ◌<◌, IfSome, IsTrue, None, Some, get_or, length};
ghost use Rattle.run_codes.specs.Lowered.{is_nth, words_before_value, offset_of, package_offset};
ghost use Rattle.run_lowering.specs.Sites.{site};

use crate::site::Site;
use type_table::TypeTable;

/// The offset that is known of an object.
fn offset_in(offsets: &[Option<u32>], x: u32) -> Option<u32>
    ensures { result ≡ get_or offsets.now x None }
{
    match offsets.get(x as usize) {
        Some(at) => *at,
        None => None,
    }
}

impl<'p> Site<'p> {
    /// The types.
    pub(crate) fn table(&self) -> &'p TypeTable
        ensures { result.now ≡ self.now.typing.table.now }
    {
        self.typing.table
    }

    /// The offset of an object of the frame.
    pub fn own_offset(&self, x: u32) -> Option<u32>
        ensures { IfSome result (λ at. offset_of (site self.now) x ≡ Some at) }
    {
        offset_in(self.own_offsets, x)
    }

    /// The offset of a package object.
    pub fn package_offset(&self, x: u32) -> Option<u32>
        ensures { IfSome result (λ at. package_offset (site self.now) x ≡ Some at) }
    {
        offset_in(self.package_offsets, x)
    }

    /// Whether a value that the point takes has a type.
    pub(crate) fn is_nth(&self, k: usize, t: u32) -> bool
        ensures is { result ≡ is_nth (site self.now) k t }
        ensures there { IsTrue result → k < length self.now.takes.now }
    {
        match self.takes.get(k) {
            Some(of) => *of == t,
            None => false,
        }
    }

    /// How many words stand before a value that the point takes.
    pub(crate) fn start(&self, k: usize) -> Option<u32>
        ensures { IfSome result (λ at. at ≡ words_before_value (site self.now) k) }
    {
        match self.starts.get(k) {
            Some(at) => Some(*at),
            None => None,
        }
    }
}
