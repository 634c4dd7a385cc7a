//! Reads the rows of a table: sources that stand on a few lines, and how the tool responds to each.
//!
//! ```text
//! -- Between rows, empty lines and lines that begin with two hyphens say nothing.
//!
//! procedure Main is begin X := 1; end Main;
//! > f.adb:1:25: N1 unknown name
//! procedure Main is X : Integer; begin X := 1; end Main;
//! > typed
//!
//! == f.adb
//! package P is end P;
//! == g.adb
//! package P is end P;
//! > g.adb:1:9: N2 declared twice
//! ```
//!
//! A row is one file, `f.adb`, or any files, each after a line `== NAME`. Such a file may be empty
//! or begin with any line. All lines of a file are its bytes, with a line feed between two of them
//! and none after the last. The command is `check` with the files in order; a first line
//! `$ spark WORD WORD ..` gives another one.
//!
//! The last line of a row says what is expected: `> accepted`; `> typed`, where no rule of names
//! and of types is broken, so that the sources are accepted or get reports; or `> ` and the one
//! line of a refusal.
use crate::head::{Head, HeadFault, add_line, behind, words_of};
use crate::response::Response;
use std::alloc::{AllocError, Global};
use std::{mem, str};

/// A row of a table.
#[derive(Drop)]
pub(crate) struct Row {
    /// The number of its last line, from 1.
    pub(crate) line: usize,
    /// Its files.
    pub(crate) files: Vec<(String, Vec<u8>)>,
    /// What an example with the same command would have in its head. Of a typed row it is that it
    /// is accepted.
    pub(crate) head: Head,
    /// Whether its last line is `> typed`.
    pub(crate) typed: bool,
}

impl Row {
    /// Whether the tool responded as the row says.
    pub(crate) fn is_kept_by(&self, response: &Response) -> bool {
        (self.typed && response.status < 2) || response.is_as_expected(&self.head)
    }
}

/// What was found of a row so far.
#[derive(Drop)]
struct Draft {
    alloc: Global,
    words: Option<Vec<String>>,
    files: Vec<(String, Vec<u8>)>,
}

/// The words of `check` with these files.
fn check_of(alloc: Global, files: &[(String, Vec<u8>)]) -> Result<Vec<String>, AllocError> {
    let mut words = vec![in alloc; String::from_str(alloc, "check")?]?;
    'files: for (name, _text) in files {
        words.push(String::from_str(alloc, name.as_str())?)?;
    }
    Ok(words)
}

/// What a row's last line expects of a command.
fn expected(alloc: Global, words: Vec<String>, wanted: &[u8]) -> Result<Head, AllocError> {
    let mut status = 2u8;
    let mut out = Vec::new(alloc);
    let mut err = Vec::new(alloc);
    if wanted == b"accepted".as_slice() || wanted == b"typed".as_slice() {
        status = 0;
        add_line(&mut out, b"accepted")?;
    } else {
        add_line(&mut err, wanted)?;
    }
    let input = Vec::new(alloc);
    Ok(Head {
        words,
        status,
        input,
        out,
        err,
    })
}

impl Draft {
    /// Nothing was found yet.
    fn new(alloc: Global) -> Draft {
        Draft {
            alloc,
            words: None,
            files: Vec::new(alloc),
        }
    }

    /// Begins a file.
    fn add_file(&mut self, name: &[u8]) -> Result<(), HeadFault> {
        let Ok(name) = str::from_utf8(name) else {
            return Err(HeadFault::BadEntry);
        };
        let name = String::from_str(self.alloc, name)?;
        self.files.push((name, Vec::new(self.alloc)))?;
        Ok(())
    }

    /// Adds a line to the last file, if there is one.
    fn add_to_file(&mut self, line: &[u8]) -> Result<(), AllocError> {
        if let Some((_name, text)) = self.files.last_mut() {
            add_line(text, line)?;
        }
        Ok(())
    }

    /// Takes a line that isn't the last one of a row.
    fn take(&mut self, line: &[u8]) -> Result<(), HeadFault> {
        if let Some(name) = behind(line, b"== ") {
            self.add_file(name)?;
        } else if !self.files.is_empty() {
            self.add_to_file(line)?;
        } else if let Some(command) = behind(line, b"$ spark ") {
            self.words = Some(words_of(self.alloc, command)?);
        } else if !line.is_empty() && !line.starts_with(b"--") {
            self.add_file(b"f.adb")?;
            self.add_to_file(line)?;
        }
        Ok(())
    }

    /// The row that ends here.
    fn finish(self, line: usize, wanted: &[u8]) -> Result<Row, HeadFault> {
        let Draft {
            alloc,
            words,
            mut files,
        } = self;
        'files: for (_name, text) in &mut files {
            let _line_feed = text.pop();
        }
        let words = match words {
            Some(words) => words,
            None => check_of(alloc, &files)?,
        };
        let head = expected(alloc, words, wanted)?;
        Ok(Row {
            line,
            files,
            head,
            typed: wanted == b"typed".as_slice(),
        })
    }
}

/// Reads the rows of a table. `Missing` is a last row without its last line, and `BadEntry` a name
/// or a word that isn't UTF-8.
pub(crate) fn read_rows(alloc: Global, text: &[u8]) -> Result<Vec<Row>, HeadFault> {
    let mut rows = Vec::new(alloc);
    let mut draft = Draft::new(alloc);
    let mut number = 0usize;
    'lines: for line in text.split(|byte| *byte == b'\n') {
        number = number.saturating_add(1);
        if let Some(wanted) = behind(line, b"> ") {
            let row = mem::replace(&mut draft, Draft::new(alloc)).finish(number, wanted)?;
            rows.push(row)?;
        } else {
            draft.take(line)?;
        }
    }
    if draft.files.is_empty() {
        Ok(rows)
    } else {
        Err(HeadFault::Missing)
    }
}
