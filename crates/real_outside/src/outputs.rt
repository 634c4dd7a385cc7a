//! The two outputs of the process under one type.
use std::io;
use std::io::Write;

/// Standard output or standard error, or any two writers in their place. It tells what the one that
/// it is tells.
#[derive(Drop)]
pub enum Output<O, E> {
    /// Standard output.
    Out(O),
    /// Standard error.
    Err(E),
}

impl<O: Write, E: Write> Write for Output<O, E> {
    ghost use Rattle.real_outside.specs.Outputs.{output_contents};

    ghost contents = { output_contents O.contents E.contents };

    fn write(&mut self, bytes: &[u8]) -> io::Result<usize> {
        match self {
            Output::Out(stream) => stream.write(bytes),
            Output::Err(stream) => stream.write(bytes),
        }
    }

    fn flush(&mut self) -> io::Result<()> {
        match self {
            Output::Out(stream) => stream.flush(),
            Output::Err(stream) => stream.flush(),
        }
    }
}
