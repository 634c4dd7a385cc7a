//! Standard input, or any other reader, as a source.
ghost use Rattle.std.specs.Prelude.{◌≡◌};

use spark_base::{Failed, Source};
use std::io::Read;

/// A reader as a source that counts its errors. It tells the bytes that the reader tells; real
/// readers tell none.
#[derive(Drop)]
pub struct Reading<R> {
    inner: R,
    pub(crate) faults: u64,
}

impl<R> Reading<R> {
    /// A reader none of whose calls has failed yet.
    pub fn new(inner: R) -> Reading<R>
        ensures reader { result.inner ≡ inner }
        ensures faults { result.faults ≡ 0 }
    {
        Reading { inner, faults: 0 }
    }
}

impl<R: Read> Source for Reading<R> {
    ghost left = { λ source. R.remaining source.inner };

    ghost faults = { λ source. source.faults };

    fn read(&mut self, buf: &mut [u8]) -> Result<usize, Failed> {
        match self.inner.read(buf) {
            Ok(count) => Ok(count),
            Err(_) => {
                self.faults = self.faults.saturating_add(1);
                Err(Failed)
            }
        }
    }
}
