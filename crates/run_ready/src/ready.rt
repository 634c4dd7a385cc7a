//! Programs that may be run, in rows.
ghost use Rattle.std.specs.Prelude.{◌≡◌, IfOk, IsTrue, Some};
ghost use Rattle.laid_program.specs.Programs as laid_programs;
ghost use Rattle.run_codes.specs.Programs.{lowered_program};
ghost use Rattle.code_rows.specs.Points.{program_of, IsWhole};
ghost use Rattle.run_points.specs.Turns.{HasTypes};
ghost use Rattle.run_points.specs.Frames.{HasFrames};
ghost use Rattle.run_ready.specs.Tests.{IsReady};

use crate::frames::are_fit;
use crate::types::is_fit;
use code_rows::Codes;
use laid_program::Laid;
use program_lowering::{LowerFault, lower};
use std::alloc::{AllocError, Global};

/// Whether the types and the subprograms of a program are as the laws on runs ask.
pub fn is_ready(alloc: Global, laid: &Laid) -> Result<bool, AllocError>
    ensures sound { IfOk result (λ ready. IsTrue ready → IsReady laid.now) }
    ensures complete { IfOk result (λ ready. IsReady laid.now → IsTrue ready) }
{
    let fit = is_fit(alloc, &laid.table)?;
    Ok(fit && are_fit(laid))
}

/// A program as it is run, of which all stands that the laws on runs ask. There is none where there
/// is too little memory, where the program isn't typed, where a subprogram without a body is called
/// or declarations have one position, and where it has more points or larger numbers than rows have
/// room for.
pub fn lower_ready(alloc: Global, laid: &Laid) -> Result<Codes, LowerFault>
    ensures program { IfOk result (λ codes. lowered_program (laid_programs.program_of laid.now) ≡ Some (program_of codes)) }
    ensures whole { IfOk result (λ codes. IsWhole codes) }
    ensures types { IfOk result (λ codes. HasTypes (laid_programs.program_of laid.now)) }
    ensures frames { IfOk result (λ codes. HasFrames (laid_programs.program_of laid.now)) }
{
    match is_ready(alloc, laid) {
        Ok(true) => lower(alloc, laid),
        _ => Err(LowerFault::Memory),
    }
}
