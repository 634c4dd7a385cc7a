//! Runs an example.
use crate::differences::differences;
use crate::head::{HeadFault, read_head};
use crate::response::response_to;
use std::alloc::AllocError;
use std::{fs, io};

/// What was found of an example.
#[derive(Drop)]
pub(crate) enum Verdict {
    /// All is as its head says.
    Kept,
    /// Something differs; the text says what, in lines.
    Failed(String),
}

/// The name of a file, without the folder.
fn bare_name(path: &str) -> &str {
    match path.rsplit_once('/') {
        Some((_folder, name)) => name,
        None => path,
    }
}

/// Runs an example.
pub(crate) fn judge(rt: &HostRuntime, path: &str) -> io::Result<Verdict> {
    let alloc = rt.alloc();
    let text = fs::read(rt, path)?;
    let head = match read_head(alloc, &text) {
        Ok(head) => head,
        Err(HeadFault::Memory) => return Err(io::Error::from(AllocError)),
        Err(HeadFault::BadEntry) => {
            return Ok(Verdict::Failed(String::from_str(
                alloc,
                "an entry of its head has no known form\n",
            )?));
        }
        Err(HeadFault::Missing) => {
            return Ok(Verdict::Failed(String::from_str(
                alloc,
                "its head has no command or no status\n",
            )?));
        }
    };
    let files = vec![in alloc; (String::from_str(alloc, bare_name(path))?, text)]?;
    let response = response_to(alloc, &head, files)?;
    if response.is_as_expected(&head) {
        Ok(Verdict::Kept)
    } else {
        Ok(Verdict::Failed(differences(alloc, &head, &response)?))
    }
}
