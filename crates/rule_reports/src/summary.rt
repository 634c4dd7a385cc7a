//! The line of a self test (`docs/TOOL.md`, "Lines").
ghost use Rattle.std.specs.Prelude.{◌≡◌, IfOk};
ghost use Rattle.rule_reports.specs.Lines as spec;

use std::alloc::{AllocError, Global};

/// What a self test tells: the number of the program that was made, and what its run gave.
#[derive(Clone, Copy, Drop)]
pub struct Summary {
    /// The number of the program.
    pub number: u32,
    /// How many bytes it wrote.
    pub bytes: u64,
    /// How many steps it took.
    pub steps: u64,
    /// How many cells it made.
    pub made: u64,
    /// How many of them it freed.
    pub freed: u64,
    /// How many of its leak checks failed.
    pub leaked: u64,
}

/// The number of the program and what it wrote.
fn output_part(alloc: Global, number: u32, bytes: u64) -> Result<Vec<u8>, AllocError>
    ensures { IfOk result (λ text. text.items ≡ spec.output_part number bytes) }
{
    Ok(format!(in alloc; "selftest {number}: output {bytes} bytes")?.into_bytes())
}

/// The steps and the cells of its run.
fn counts_part(
    alloc: Global,
    steps: u64,
    made: u64,
    freed: u64,
    leaked: u64,
) -> Result<Vec<u8>, AllocError>
    ensures { IfOk result (λ text. text.items ≡ spec.counts_part steps made freed leaked) }
{
    Ok(format!(in alloc;
        ", steps {steps}, made {made}, freed {freed}, leaked {leaked}\n"
    )?.into_bytes())
}

/// The line of a self test, `selftest N: output B bytes, steps S, made M, freed F, leaked K`.
pub fn summary_line(alloc: Global, summary: Summary) -> Result<Vec<u8>, AllocError>
    ensures { IfOk result (λ text. text.items ≡ spec.summary_line summary) }
{
    let counts = counts_part(
        alloc,
        summary.steps,
        summary.made,
        summary.freed,
        summary.leaked,
    )?;
    let mut line = output_part(alloc, summary.number, summary.bytes)?;
    line.extend_from_slice(&counts)?;
    Ok(line)
}
