//! Where the lines of a text begin among its identifiers.
//!
//! Nothing is promised of the answers, which only make a search shorter: the caller looks at the
//! identifiers there before it relies on one. So no list does harm, whatever its order.
use name_events::Identified;
use spark_base::Pos;
use std::alloc::{AllocError, Global};

/// How many identifiers stand before each line. The lines of the files follow one another.
#[derive(Drop)]
pub struct LineStarts {
    starts: Vec<usize>,
    /// How many of `starts` are of the files before each one.
    files: Vec<usize>,
}

impl LineStarts {
    /// The lines of identifiers in the order of the text. Memory is linear in the lines.
    pub(crate) fn new(alloc: Global, all: &[Identified]) -> Result<LineStarts, AllocError> {
        let mut starts = Vec::new(alloc);
        let mut files = Vec::new(alloc);
        'identifiers: for (before, identified) in all.iter().enumerate() {
            let file = identified.pos.file as usize;
            'files: while files.len() <= file {
                files.push(starts.len())?;
            }
            let line = files[file].saturating_add(identified.pos.line as usize);
            'lines: while starts.len() <= line {
                starts.push(before)?;
            }
        }
        starts.push(all.len())?;
        Ok(LineStarts { starts, files })
    }

    /// How many identifiers stand before the line of a position, and before the next line.
    pub(crate) fn around(&self, pos: Pos) -> Option<(usize, usize)> {
        let lines = self.files.get(pos.file as usize)?;
        let line = lines.saturating_add(pos.line as usize);
        let from = self.starts.get(line)?;
        let to = self.starts.get(line.saturating_add(1))?;
        Some((*from, *to))
    }
}
