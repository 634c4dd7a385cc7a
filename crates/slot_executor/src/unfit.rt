//! Runs of programs whose first frames are too large.
ghost use Rattle.std.specs.Prelude.{◌≡◌, ◌≢◌, [], Err, IfOk, IfSome};
ghost use Rattle.machine.specs.States.{sub_of};
ghost use Rattle.machine.specs.Run.{run};
ghost use Rattle.laid_program.specs.Programs.{program_of};
ghost use Rattle.slot_heap.specs.Heaps.{no_heap};
ghost use Rattle.run_codes.specs.Points.{ran_of};
ghost use Rattle.run_results.specs.Results.{IsRun};
ghost use Rattle.slot_executor.specs.Executes.{IsUnfit, MayEnd, AreSame};

use code_rows::Exception;
use laid_program::Laid;
use run_results::{Ending, ExecFault, Ran};
use spark_base::Pos;

/// The position of a subprogram.
fn position(laid: &Laid, sub: u32) -> Option<Pos>
    ensures { IfSome result (λ pos. pos ≡ (sub_of (program_of laid.now) sub).pos) }
{
    match laid.subs.as_slice().get(sub as usize) {
        Some(sub) => Some(sub.pos),
        None => None,
    }
}

/// The run of a program whose first frames are too large: no step is made.
pub fn run_unfit(laid: &Laid, input: &[u8], steps: u64, main: u32) -> Result<Ran, ExecFault>
    requires unfit { IsUnfit laid.now main }
    requires same { AreSame (program_of laid.now) input.now }
    ensures ran { IfOk result (λ ran. IsRun (ran_of (run (program_of laid.now) input.now steps)) ran) }
    ensures output { (run (program_of laid.now) input.now steps).output ≡ [] }
    ensures leaks { (run (program_of laid.now) input.now steps).leaks ≡ [] }
    ensures ends { MayEnd (program_of laid.now) input.now steps no_heap }
    ensures memory { result ≢ Err ExecFault.WriteFault }
{
    let Some(pos) = position(laid, main) else {
        return Err(ExecFault::Memory);
    };
    Ok(Ran {
        ending: Ending::Raised {
            exception: Exception::StorageError,
            pos,
        },
        steps: 0,
        made: 0,
        freed: 0,
        leaked: 0,
    })
}
