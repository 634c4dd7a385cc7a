//! Steps of which nothing is told.
ghost use Rattle.std.specs.Prelude.{◌≡◌, ◌≤◌, ◌<◌, IfOk, OnOk};
ghost use Rattle.slot_runs.specs.Goings.{IsGoing, LeadsOn};

use crate::stepping::{Stepping, Turn};
use std::alloc::AllocError;

/// Output of so many bytes is told.
const LONG: usize = 65_536;

/// Whether a leak is to be told, or output.
fn is_to_tell<S: Stepping>(run: &S) -> bool {
    run.output().len() >= LONG || !run.leaks().is_empty()
}

/// Makes at most so many steps, until one ends the run or something is to be told: how many, and what
/// the last one came to. The loop calls nothing of the sinks, so that the steps are a part of it.
#[inline(never)]
pub(crate) fn go<S: Stepping>(run: &mut S, limit: u64) -> Result<(u64, Turn), AllocError>
    requires some { 0 < limit }
    requires going { IsGoing (S.setting run.old) limit (S.untold run.old) (S.Stands run.old) }
    ensures setting { S.setting run.new ≡ S.setting run.old }
    ensures lent { OnOk result (S.lent run.new ≡ S.lent run.old) }
    ensures some { IfOk result (λ made. 0 < made.0) }
    ensures few { IfOk result (λ made. made.0 ≤ limit) }
    ensures led { IfOk result (λ made. LeadsOn (S.setting run.old) limit (S.untold run.old) (S.Stands run.old) made.0 made.1 (S.untold run.new) (S.Stands run.new)) }
{
    let mut made = 0u64;
    'rounds: while made < limit {
        match run.steps(limit - made) {
            Ok((more, Turn::On)) => made += more,
            Ok((more, Turn::Ends(ending))) => return Ok((made + more, Turn::Ends(ending))),
            Err(fault) => return Err(fault),
        }
        if is_to_tell(run) {
            return Ok((made, Turn::On));
        }
    }
    Ok((made, Turn::On))
}
