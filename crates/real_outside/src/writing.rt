//! Standard output and standard error, or any other writer, as a sink.
ghost use Rattle.std.specs.Prelude.{◌≡◌};

use spark_base::{Sink, SinkFault};
use std::io::Write;

/// A writer as a sink that counts its errors. It tells the bytes that the writer tells; real
/// writers tell none.
#[derive(Drop)]
pub struct Writing<W> {
    pub(crate) inner: W,
    pub(crate) faults: u64,
}

impl<W> Writing<W> {
    /// A writer none of whose calls has failed yet.
    pub fn new(inner: W) -> Writing<W>
        ensures writer { result.inner ≡ inner }
        ensures faults { result.faults ≡ 0 }
    {
        Writing { inner, faults: 0 }
    }
}

impl<W: Write> Sink for Writing<W> {
    ghost written = { λ sink. W.contents sink.inner };

    ghost faults = { λ sink. sink.faults };

    fn write(&mut self, piece: &[u8]) -> Result<(), SinkFault> {
        let mut rest = piece;
        'parts: while !rest.is_empty() {
            match self.inner.write(rest) {
                Ok(count) if count > 0 => rest = &rest[count..],
                // An error, or nothing taken of a piece that isn't empty.
                _ => {
                    self.faults = self.faults.saturating_add(1);
                    return Err(SinkFault::Failed);
                }
            }
        }
        Ok(())
    }
}
