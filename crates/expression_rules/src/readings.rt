//! The sentences on a name by itself.
ghost use Rattle.std.specs.Prelude.{◌≡◌, ◌<◌, length};
ghost use Rattle.resolved_tree.specs.Nodes.{tree_at};
ghost use Rattle.type_definitions.specs.Entries.{entry_of};
ghost use Rattle.type_definitions.specs.Faults.{noted};
ghost use Rattle.type_definitions.specs.Expressions.{given_names, call_arguments, traversal_faults, is_traversal, profile_of, reading_faults};
ghost use Rattle.expression_rules.specs.Around.{context};

use crate::checker::Checker;
use spark_base::Pos;
use type_definitions::{Fault, Reading};
use type_settled::demand;

impl<'p> Checker<'p> {
    /// With the fault of a call of a traversal function, where none may stand.
    fn traversal_faults(&self, found: Option<Fault>, loose: bool, f: u32, pos: Pos) -> Option<Fault>
        ensures { result ≡ noted found (traversal_faults loose (is_traversal self.now.settled.now.known (profile_of (entry_of self.now.settled.now.known f))) pos) }
    {
        if loose {
            found
        } else {
            demand(found, 6, pos, !self.reader().is_traversal(f))
        }
    }

    /// With the faults of a call by its name and the count of its actuals.
    #[tactic(auto, using(crate::proofs::Noted::noted_append))]
    fn call_faults(
        &self,
        found: Option<Fault>,
        pos: Pos,
        d: u32,
        loose: bool,
        rest: usize,
        f: u32,
    ) -> Option<Fault>
        requires { rest < length self.now.rows.now.0 }
        ensures { result ≡ noted found (reading_faults (context self.now) pos d loose (given_names (call_arguments (tree_at self.now.rows.now rest))) (Reading.Call f)) }
    {
        let found = demand(found, 8, pos, !self.starts);
        let found = self.traversal_faults(found, loose, f, pos);
        demand(found, 3, pos, self.reader().fits_call(f, rest))
    }

    /// With the faults of a name by itself.
    #[tactic(auto, using(crate::proofs::Noted::noted_append))]
    pub fn reading_faults(
        &self,
        found: Option<Fault>,
        pos: Pos,
        d: u32,
        loose: bool,
        rest: usize,
        reading: Reading,
    ) -> Option<Fault>
        requires { rest < length self.now.rows.now.0 }
        ensures { result ≡ noted found (reading_faults (context self.now) pos d loose (given_names (call_arguments (tree_at self.now.rows.now rest))) reading) }
    {
        let reader = self.reader();
        match reading {
            Reading::Off => demand(found, 1, pos, false),
            Reading::Place { .. } => {
                demand(found, 8, pos, !(self.starts && self.root_owning(d)))
            }
            Reading::Value { .. } => {
                let found = demand(found, 1, pos, reader.is_complete(d, pos));
                demand(found, 8, pos, !(self.starts && self.root_owning(d)))
            }
            Reading::Call { function } => self.call_faults(found, pos, d, loose, rest, function),
            Reading::Image { .. } => demand(found, 1, pos, reader.is_complete(d, pos)),
            Reading::EndOfFile => demand(found, 3, pos, reader.has_no_actuals(rest)),
        }
    }
}
