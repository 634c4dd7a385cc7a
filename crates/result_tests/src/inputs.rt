//! Inputs of runs.
use run_command::{RunFault, read_input};
use spark_base::MemSource;
use std::test::Fail;

#[test]
fn all_of_the_input(rt: HostRuntime) -> Result<(), Fail> {
    let alloc = rt.alloc();
    let bytes = Vec::from_slice(alloc, b"12 x\n".as_slice())?;
    let mut source = MemSource::new(bytes, Vec::new(alloc));
    let found = read_input(alloc, &mut source);
    assert!(rt; matches!(&found, Ok(Some(text)) if text.as_slice() == b"12 x\n".as_slice()));
    let mut empty = MemSource::new(Vec::new(alloc), Vec::new(alloc));
    let found = read_input(alloc, &mut empty);
    assert!(rt; matches!(&found, Ok(Some(text)) if text.is_empty()));
    Ok(())
}

#[test]
fn a_read_that_fails(rt: HostRuntime) -> Result<(), Fail> {
    let alloc = rt.alloc();
    let bytes = Vec::from_slice(alloc, b"12".as_slice())?;
    let mut source = MemSource::new(bytes, Vec::from_slice(alloc, &[1])?);
    assert!(rt; matches!(read_input(alloc, &mut source), Err(RunFault::Read)));
    Ok(())
}
