//! Rows of numbers.
ghost use Rattle.std.specs.Prelude.{◌≡◌, ◌==◌, true, IfOk, OnOk};
ghost use Rattle.spark_base.specs.Lists.{Has};
ghost use Rattle.call_effects.specs.Rows.{AreEmpty, IsFiled};

use spark_base::Listed;
use std::alloc::{AllocError, Global};

/// So many empty rows.
pub(crate) fn empty_rows(alloc: Global, count: usize) -> Result<Vec<Listed<usize>>, AllocError>
    ensures { IfOk result (λ rows. AreEmpty count rows.items) }
{
    let mut rows = Vec::new(alloc);
    'rows: for _row in 0..count {
        rows.push(Listed::new(alloc))?;
    }
    Ok(rows)
}

/// So many empty lists of objects.
pub(crate) fn empty_lists(alloc: Global, count: usize) -> Result<Vec<Listed<u32>>, AllocError>
    ensures { IfOk result (λ rows. AreEmpty count rows.items) }
{
    let mut rows = Vec::new(alloc);
    'rows: for _row in 0..count {
        rows.push(Listed::new(alloc))?;
    }
    Ok(rows)
}

/// Whether a number is the last one of a row.
fn ends_in(row: &[usize], p: usize) -> bool
    ensures { result ≡ true → Has row.now p }
{
    match row.last() {
        Some(last) => *last == p,
        None => false,
    }
}

/// Puts a number into a row, where there is such a row and the number isn't its last one.
pub(crate) fn file(rows: &mut Vec<Listed<usize>>, at: usize, p: usize) -> Result<(), AllocError>
    ensures { OnOk result (IsFiled p (λ a. at == a) rows.old.items rows.new.items) }
{
    if at >= rows.len() || ends_in(rows[at].as_slice(), p) {
        return Ok(());
    }
    rows[at].push(p)?;
    Ok(())
}
