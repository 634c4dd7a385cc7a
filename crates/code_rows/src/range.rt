//! Ranges of rows.

/// So many rows, from one on.
#[derive(Clone, Copy)]
pub struct Range {
    pub first: u32,
    pub count: u32,
}
