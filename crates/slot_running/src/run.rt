//! Runs.
ghost use Rattle.std.specs.Prelude.{◌≡◌, IfOk};
ghost use Rattle.code_rows.specs.Points.{program_of, IsWhole};
ghost use Rattle.slot_heap.specs.Heaps.{no_heap};
ghost use Rattle.slot_running.specs.Runs.{IsAtStart, RunStands, running_lent, running_setting, running_untold};

use crate::turns::{ended, turns};
use code_rows::Codes;
use run_results::{Ending, Leak};
use slot_heap::Store;
use slot_runs::{Stepping, Turn};
use slot_steps::{Parts, Passing, begin};
use slot_turns::Over;
use std::alloc::{AllocError, Global};
use std::marker::Model;
use type_layouts::Layouts;
use type_table::TypeTable;

/// A run of a program in rows, between two steps.
pub struct Run<'r, R: Store> {
    alloc: Global,
    codes: Codes,
    table: Layouts<'r>,
    input: &'r [u8],
    parts: Parts<'r, R>,
    passing: Passing,
    // where it is over
    over: Option<Over>,
}

impl<'r, R: Store> Model for Run<'r, R> {
    ghost use Rattle.code_rows.specs.Points.{IsWhole};
    ghost use Rattle.slot_steps.specs.slot_parts.Stages.{between_of};
    ghost use Rattle.slot_running.specs.Runs.{Running, AreKept};

    ghost Value = { Running R };

    ghost view = { λ r. record { codes = r.codes; table = r.table; input = r.input.now; between = between_of r.parts; over = r.over } };

    ghost invariant = { λ r. IsWhole r.codes × AreKept R.Means r.over r.parts };
}

impl<R: Store> Drop for Run<'_, R> {
    fn drop(self) {
        let Self {
            alloc: _,
            codes: _,
            table: _,
            input: _,
            parts: _,
            passing: _,
            over: _,
        } = self;
    }
}

impl<'r, R: Store> Run<'r, R> {
    /// A run at its start: the package objects are declared first, or the main procedure begins at
    /// once. The store has handed out no handle.
    #[tactic(auto, using(crate::proofs::Runs::starts_by, crate::proofs::Runs::starts_kept))]
    pub fn new(
        alloc: Global,
        codes: Codes,
        table: &'r TypeTable,
        store: &'r mut R,
        input: &'r [u8],
        declares: bool,
    ) -> Result<Run<'r, R>, AllocError>
        requires whole { IsWhole codes }
        requires store { R.Means store.old no_heap }
        ensures { IfOk result (λ run. IsAtStart R.Means table.now (program_of codes) store.entry.ghost_name input.now declares run) }
    {
        let layouts = Layouts::new(alloc, table)?;
        let parts = begin(alloc, &codes, &layouts, store, input, declares)?;
        Ok(Run {
            alloc,
            codes,
            table: layouts,
            input,
            parts,
            passing: Passing::new(alloc),
            over: None,
        })
    }

    /// The store is given back.
    pub fn into_store(self) -> &'r mut R
        ensures lent { result.ghost_name ≡ running_lent self.entry }
        ensures store { result.now ≡ self.entry.between.kept.heap.store }
    {
        let Self {
            alloc: _,
            codes: _,
            table: _,
            input: _,
            parts,
            passing: _,
            over: _,
        } = self;
        parts.into_store()
    }
}

/// The counts of a run of which nothing is told, since memory is out.
fn given_up() -> Over {
    Over {
        ending: Ending::Spent,
        made: 0,
        freed: 0,
    }
}

impl<'r, R: Store> Stepping for Run<'r, R> {
    ghost setting = { running_setting };

    ghost untold = { running_untold };

    ghost lent = { running_lent };

    ghost Stands = { RunStands R.Means };

    fn steps(&mut self, limit: u64) -> Result<(u64, Turn), AllocError> {
        let alloc = self.alloc;
        match turns(
            alloc,
            &self.codes,
            &self.table,
            &mut self.parts,
            &mut self.passing,
            limit,
        ) {
            Ok((made, None)) => Ok((made, Turn::On)),
            Ok((made, Some(over))) => {
                self.over = Some(over);
                Ok((made, Turn::Ends(over.ending)))
            }
            Err(fault) => {
                self.over = Some(given_up());
                Err(fault)
            }
        }
    }

    fn output(&self) -> &[u8] {
        &self.parts.output
    }

    fn clear_output(&mut self) {
        self.parts.output.clear();
    }

    fn leaks(&self) -> &[Leak] {
        &self.parts.leaks
    }

    fn clear_leaks(&mut self) {
        self.parts.leaks.clear();
    }

    fn made(&self) -> u64 {
        match self.over {
            Some(over) => over.made,
            None => self.parts.memory.made(),
        }
    }

    fn freed(&self) -> u64 {
        match self.over {
            Some(over) => over.freed,
            None => ended(&self.parts).freed,
        }
    }
}
