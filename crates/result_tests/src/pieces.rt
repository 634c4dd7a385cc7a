//! Bytes that are written in pieces.
use run_results::{ExecFault, write_all, write_long};
use spark_base::MemSink;
use std::test::Fail;

#[test]
fn few_bytes_wait(rt: HostRuntime) -> Result<(), Fail> {
    let mut sink = MemSink::new(rt.alloc(), Vec::new(rt.alloc()));
    assert!(rt; write_long(b"ab", &mut sink) == Ok(false) && sink.bytes().is_empty());
    assert!(rt; write_all(b"", &mut sink) == Ok(()) && sink.bytes().is_empty());
    assert!(rt; write_all(b"ab", &mut sink) == Ok(()) && sink.bytes() == b"ab".as_slice());
    Ok(())
}

#[test]
fn many_bytes_are_written(rt: HostRuntime) -> Result<(), Fail> {
    let mut sink = MemSink::new(rt.alloc(), Vec::new(rt.alloc()));
    let mut bytes = Vec::new(rt.alloc());
    'bytes: for _byte in 0..65_535u32 {
        bytes.push(b'x')?;
    }
    assert!(rt; write_long(&bytes, &mut sink) == Ok(false));
    bytes.push(b'y')?;
    assert!(rt; write_long(&bytes, &mut sink) == Ok(true));
    assert!(rt; sink.bytes().len() == 65_536);
    Ok(())
}

#[test]
fn a_write_that_fails(rt: HostRuntime) -> Result<(), Fail> {
    let mut sink = MemSink::new(rt.alloc(), Vec::from_slice(rt.alloc(), &[0])?);
    assert!(rt; write_all(b"ab", &mut sink) == Err(ExecFault::WriteFault));
    Ok(())
}
