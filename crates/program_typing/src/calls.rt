//! How the actuals of a call are passed.
ghost use Rattle.std.specs.Prelude.{◌≡◌, ◌==◌, ◌&&◌, IfOk, get_or, is_some, map, not};
ghost use Rattle.flow_paths.specs.Objects.{ByValue, first_traversed, passing, passing_by, passings, sub_at, traverses};
ghost use Rattle.program_typing.specs.Typings.{typing};
ghost use Rattle.program_typing.specs.Passings.{passing_of};
ghost use Rattle.program_typing.specs.Ways.{way};

use crate::passing::Passing;
use crate::typing::ProgramTyping;
use crate::views::is_named_access;
use place_names::Mode;
use spark_base::Listed;
use std::alloc::{AllocError, Global};

/// How an actual is passed, by the mode of its formal.
fn passing_by(mode: Mode, owning: bool, access: bool) -> Passing
    ensures { passing_of result ≡ passing_by mode owning access }
{
    match mode {
        Mode::In if !owning => Passing::ByValue,
        _ => Passing::Place {
            mode,
            owning,
            access,
        },
    }
}

/// Whether a subprogram that gives this is a procedure.
fn is_procedure(given: Option<u32>) -> bool
    ensures { result ≡ not (is_some given) }
{
    given.is_none()
}

impl<'p> ProgramTyping<'p> {
    /// How an actual is passed to this formal, in the call of a procedure or of a function.
    pub fn passing(&self, procedure: bool, formal: u32) -> Passing
        ensures { passing_of result ≡ passing (typing self.now) procedure formal }
    {
        let owning = self.table.is_owning(self.object_type(formal));
        let access = procedure && is_named_access(self.view(formal));
        passing_by(self.object_mode(formal), owning, access)
    }

    /// How the actuals of a subprogram are passed, in the order of the formals. The only error is
    /// out of memory.

    pub fn passings(&self, alloc: Global, sub: u32) -> Result<Vec<Passing>, AllocError>
        ensures { IfOk result (λ ways. map passing_of ways.items ≡ passings (typing self.now) (sub_at (typing self.now) sub)) }
    {
        let result = self.result(sub);
        let mut traversed = self.traverses(result);
        let procedure = is_procedure(result);
        let mut ways = Vec::new(alloc);
        'formals: for formal in self.formals(sub) {
            ways.push(self.way(traversed, procedure, *formal))?;
            traversed = false;
        }
        Ok(ways)
    }

    /// How an actual is passed, which a traversal may go through.
    fn way(&self, traversed: bool, procedure: bool, formal: u32) -> Passing
        ensures { passing_of result ≡ way (typing self.now) traversed procedure formal }
    {
        if traversed {
            return Passing::Traversed;
        }
        self.passing(procedure, formal)
    }

    /// Whether a traversal that gives this goes through the actual with this index.
    fn goes_through(&self, i: usize, given: Option<u32>) -> bool
        ensures { result ≡ (i == 0) && traverses (typing self.now).table given }
    {
        i == 0 && self.traverses(given)
    }

    /// How the actual with this index is passed to a subprogram. Past the formals it is by value.

    pub fn passing_at(&self, sub: u32, i: usize) -> Passing
        ensures { passing_of result ≡ get_or (passings (typing self.now) (sub_at (typing self.now) sub)) i ByValue }
    {
        let result = self.result(sub);
        match self.formals(sub).get(i) {
            Some(formal) => self.way(self.goes_through(i, result), is_procedure(result), *formal),
            None => Passing::ByValue,
        }
    }
}
