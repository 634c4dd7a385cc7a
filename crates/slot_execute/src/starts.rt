//! How a program starts.
ghost use Rattle.std.specs.Prelude.{◌≡◌};
ghost use Rattle.laid_program.specs.Programs.{program_of};
ghost use Rattle.code_rows.specs.Points.{program_of as rows_program, IsWhole};
ghost use Rattle.run_codes.specs.Points.{is_declaring};
ghost use Rattle.slot_executor.specs.Executes as executes;

use code_rows::Codes;
use laid_program::Laid;
use slot_leads::sub_at;

/// The most words of all frames.
const STACK_WORDS: u64 = 4_194_304;

/// Whether a package object is declared.
pub(crate) fn is_declaring(laid: &Laid) -> bool
    ensures { result ≡ is_declaring (program_of laid.now) }
{
    match laid.subs.as_slice().first() {
        Some(sub) => !sub.points.is_empty(),
        None => false,
    }
}

/// Whether the first frames fit into the stack.
pub(crate) fn fits(codes: &Codes, main: u32) -> bool
    requires { IsWhole codes.now }
    ensures { result ≡ executes.fits (rows_program codes.now) main }
{
    let main = sub_at(codes, main).words;
    let packages = sub_at(codes, 0).words;
    main <= STACK_WORDS && packages <= STACK_WORDS - main
}
