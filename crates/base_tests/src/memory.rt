//! A source and sinks in memory: their bytes, and the calls that are told to fail.
use spark_base::{Failed, MemSink, MemSource, PlainSink, Sink, Source};
use std::alloc::{AllocError, Global};
use std::test::Fail;

/// What is read of a source, in pieces of three bytes; a star stands for a call that failed.
fn drained(alloc: Global, text: &[u8], fails: &[u64]) -> Result<Vec<u8>, AllocError> {
    let bytes = Vec::from_slice(alloc, text)?;
    let mut source = MemSource::new(bytes, Vec::from_slice(alloc, fails)?);
    let mut found = Vec::new(alloc);
    let mut piece = [0u8; 3];
    for _turn in 0..16 {
        match source.read(&mut piece) {
            Ok(0) => return Ok(found),
            Ok(count) => found.extend_from_slice(&piece[..count])?,
            Err(Failed) => found.push(b'*')?,
        }
    }
    Ok(found)
}

#[test]
fn a_source_gives_its_bytes_and_fails_where_listed(rt: HostRuntime) -> Result<(), Fail> {
    let found = drained(rt.alloc(), b"abcdefgh", &[1, 2, 7])?;
    assert!(rt; found.as_slice() == b"abc**defgh".as_slice());
    Ok(())
}

const PIECES: [&[u8]; 3] = [b"one", b"two", b"three"];

/// How many of the pieces a sink refuses.
fn refused<K: Sink>(sink: &mut K) -> u32 {
    let mut count: u32 = 0;
    for piece in &PIECES {
        if sink.write(piece).is_err() {
            count = count.saturating_add(1);
        }
    }
    count
}

#[test]
fn sinks_keep_their_bytes(rt: HostRuntime) -> Result<(), Fail> {
    let mut sink = MemSink::new(rt.alloc(), Vec::from_slice(rt.alloc(), &[1])?);
    assert!(rt; refused(&mut sink) == 1 && sink.bytes() == b"onethree".as_slice());
    let mut plain = PlainSink::new(rt.alloc());
    assert!(rt; refused(&mut plain) == 0 && plain.bytes() == b"onetwothree".as_slice());
    Ok(())
}
