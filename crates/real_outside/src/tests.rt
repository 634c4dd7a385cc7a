//! Each adapter once over the real thing, and a writer that takes parts.
use crate::files::RealFiles;
use crate::outputs::Output;
use crate::reading::Reading;
use crate::writing::Writing;
use spark_base::{Failed, FileStore, OpenFault, Sink, SinkFault, Source};
use std::io::{Stderr, Stdout, Write};
use std::test::Fail;
use std::{fs, io};

/// A writer that takes at most two bytes at a time, and none once it has eight.
#[derive(Drop)]
struct Narrow {
    taken: Vec<u8>,
}

impl Write for Narrow {
    fn write(&mut self, bytes: &[u8]) -> io::Result<usize> {
        let count = bytes
            .len()
            .min(2)
            .min(8usize.saturating_sub(self.taken.len()));
        self.taken.extend_from_slice(&bytes[..count])?;
        Ok(count)
    }

    fn flush(&mut self) -> io::Result<()> {
        Ok(())
    }
}

#[test]
fn a_real_file_is_read_to_its_end(rt: HostRuntime) -> Result<(), Fail> {
    let alloc = rt.alloc();
    fs::write(&rt, "one.adb", "with")?;
    let words = vec![in alloc;
        String::from_str(alloc, "check")?,
        String::from_str(alloc, "one.adb")?,
    ]?;
    let mut files = RealFiles::new(&rt, &words);
    let mut piece = [0u8; 3];
    assert!(rt; files.open_file("one.adb").is_ok());
    assert!(rt; files.next(&mut piece) == Ok(3));
    assert!(rt; piece.as_slice() == b"wit".as_slice());
    assert!(rt; files.next(&mut piece) == Ok(1));
    assert!(rt; piece[0] == b'h');
    assert!(rt; files.next(&mut piece) == Ok(0));
    assert!(rt; files.faults == 0);
    fs::remove_file(&rt, "one.adb")?;
    Ok(())
}

#[test]
fn a_missing_file_is_a_fault(rt: HostRuntime) -> Result<(), Fail> {
    let alloc = rt.alloc();
    let words = vec![in alloc;
        String::from_str(alloc, "check")?,
        String::from_str(alloc, "none.adb")?,
    ]?;
    let mut files = RealFiles::new(&rt, &words);
    assert!(rt; files.open_file("none.adb") == Err(OpenFault::Failed));
    assert!(rt; files.faults == 1);
    Ok(())
}

#[test]
fn a_reader_is_read_to_its_end(rt: HostRuntime) -> Result<(), Fail> {
    fs::write(&rt, "input", "12")?;
    let mut input = Reading::new(fs::open(&rt, "input")?);
    let mut piece = [0u8; 8];
    assert!(rt; input.read(&mut piece) == Ok(2));
    assert!(rt; input.read(&mut piece) == Ok(0));
    // A file that is open for writing alone can't be read.
    let mut closed = Reading::new(fs::create(&rt, "closed")?);
    assert!(rt; closed.read(&mut piece) == Err(Failed));
    assert!(rt; closed.faults == 1);
    fs::remove_file(&rt, "input")?;
    fs::remove_file(&rt, "closed")?;
    Ok(())
}

#[test]
fn a_piece_is_written_whole_in_parts(rt: HostRuntime) -> Result<(), Fail> {
    let taken = Vec::new(rt.alloc());
    let mut sink = Writing::new(Narrow { taken });
    assert!(rt; sink.write(b"seven b") == Ok(()));
    assert!(rt; sink.faults == 0);
    assert!(rt; sink.write(b"ytes") == Err(SinkFault::Failed));
    assert!(rt; sink.faults == 1);
    assert!(rt; sink.inner.taken.as_slice() == b"seven by".as_slice());
    let mut out: Writing<Output<Stdout, Stderr>> = Writing::new(Output::Out(rt.stdout()));
    let mut err: Writing<Output<Stdout, Stderr>> = Writing::new(Output::Err(rt.stderr()));
    assert!(rt; out.write(b"to the output\n") == Ok(()));
    assert!(rt; err.write(b"to the error output\n") == Ok(()));
    Ok(())
}
