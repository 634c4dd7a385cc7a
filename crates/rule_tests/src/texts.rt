//! The names of files.
use std::alloc::{AllocError, Global};

/// The names of files, in order.
pub(crate) fn files(alloc: Global) -> Result<Vec<String>, AllocError> {
    let mut files = Vec::new(alloc);
    for name in &FILES {
        files.push(String::from_str(alloc, name)?)?;
    }
    Ok(files)
}

const FILES: [&str; 2] = ["m.adb", "src/Other.ADB"];
