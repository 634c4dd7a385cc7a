//! Says how a response differs from what a head says.
use crate::head::Head;
use crate::response::Response;
use std::alloc::{AllocError, Global};

/// Both texts of an output, where they differ.
fn add_output(
    alloc: Global,
    lines: &mut String,
    output: &str,
    expected: &[u8],
    found: &[u8],
) -> Result<(), AllocError> {
    if expected != found {
        let expected = String::from_utf8_lossy(alloc, expected)?;
        let found = String::from_utf8_lossy(alloc, found)?;
        write!(
            lines,
            "{output} is expected as:\n{expected}and is:\n{found}"
        )?;
    }
    Ok(())
}

/// What differs, in lines; nothing where nothing does.
pub(crate) fn differences(
    alloc: Global,
    head: &Head,
    response: &Response,
) -> Result<String, AllocError> {
    let mut lines = String::new(alloc);
    if response.status != head.status {
        let expected = head.status;
        let found = response.status;
        write!(
            lines,
            "the status is expected as {expected} and is {found}\n"
        )?;
    }
    add_output(alloc, &mut lines, "out", &head.out, response.out.bytes())?;
    add_output(alloc, &mut lines, "err", &head.err, response.err.bytes())?;
    Ok(lines)
}
