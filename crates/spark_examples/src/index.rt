//! Which examples and tables there are.
use std::io::ErrorKind;
use std::{fs, io};

/// The folders of examples, below the folder where the program runs. One that isn't there has no
/// examples.
const FOLDERS: [&str; 6] = ["accepted", "commands", "leaks", "refusals", "rules", "runs"];

/// Adds the paths of the files of a folder.
fn add_folder(rt: &HostRuntime, folder: &str, paths: &mut Vec<String>) -> io::Result<()> {
    let entries = match fs::read_dir(rt, folder) {
        Ok(entries) => entries,
        Err(error) if error.kind() == ErrorKind::NotFound => return Ok(()),
        Err(error) => return Err(error),
    };
    'entries: for entry in entries {
        let entry = entry?;
        let name = entry.file_name();
        paths.push(format!(in rt.alloc(); "{folder}/{name}")?)?;
    }
    Ok(())
}

/// The paths of all examples, as `rules/O1_read_after_move.adb`, sorted by their bytes.
pub(crate) fn example_paths(rt: &HostRuntime) -> io::Result<Vec<String>> {
    let mut paths = Vec::new(rt.alloc());
    'folders: for folder in FOLDERS {
        add_folder(rt, folder, &mut paths)?;
    }
    paths.sort()?;
    Ok(paths)
}

/// The paths of all tables, as `tables/names.txt`, sorted by their bytes.
pub(crate) fn table_paths(rt: &HostRuntime) -> io::Result<Vec<String>> {
    let mut paths = Vec::new(rt.alloc());
    add_folder(rt, "tables", &mut paths)?;
    paths.sort()?;
    Ok(paths)
}
