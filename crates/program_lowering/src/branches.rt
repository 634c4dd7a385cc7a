//! Points that several points may follow.
ghost use Rattle.std.specs.Prelude.{◌≡◌, ◌<◌, IfSome, IsTrue, Some, length};
ghost use Rattle.run_codes.specs.Lowered.{Lowered};
ghost use Rattle.run_codes.specs.Programs.{chosen, chosen_code, condition, gone_on, is_or_else, operand, tested, truth_code};
ghost use Rattle.run_lowering.specs.Found.{lowered_in};
ghost use Rattle.code_rows.specs.Rows.{code_at};
ghost use Rattle.code_rows.specs.Points.{does_of, is_does_there, AreSound, RowsGrew};
ghost use Rattle.program_lowering.specs.Arounds.{around, known, tree, point_in};
ghost use Rattle.code_rows.specs.declared.rows.Rows.{Rows};
ghost use Rattle.run_lowering.specs.declared.sorts.Sort.TheVariants as sort;

use crate::around::Around;
use code_rows::{Does, Rows};
use flow_paths::Point;
use run_lowering::{Sort, Typed};
use typed_tree::ShortCircuit;

/// The node of a truth.
fn truth(word: Typed) -> Option<u32>
    ensures is { IfSome result (λ n. n ≡ word.node) }
    ensures sort { IfSome result (λ n. word.sort ≡ sort.Position) }
{
    match word.sort {
        Sort::Position => Some(word.node),
        _ => None,
    }
}

/// Whether a short circuit is `or else`.
fn is_or_else(operator: ShortCircuit) -> bool
    ensures { result ≡ is_or_else operator }
{
    match operator {
        ShortCircuit::OrElse => true,
        ShortCircuit::AndThen => false,
    }
}

impl<'p> Around<'p> {
    /// A point that does nothing.
    pub(crate) fn gone_on(&self, p: &Point) -> Option<Does>
        ensures does { IfSome result (λ d. (rows : Rows) → gone_on (around self.now) (point_in self.now p.now) ≡ Some (does_of rows d)) }
        ensures there { IfSome result (λ d. (rows : Rows) → IsTrue (is_does_there rows d)) }
    {
        let next = self.going(p, 0)?;
        Some(Does::Go { next })
    }

    /// The node of a condition.
    fn condition(&self, rows: &mut Rows, e: usize) -> Option<u32>
        requires { AreSound rows.old }
        ensures code { IfSome result (λ c. condition (around self.now) (tree self.now e) ≡ Some (code_at rows.new.nodes c)) }
        ensures there { IfSome result (λ c. c < length rows.new.nodes) }
        ensures grew { IfSome result (λ c. RowsGrew rows.old rows.new) }
        ensures sound { IfSome result (λ c. AreSound rows.new) }
    {
        let word = self.word(rows, 0, e)?;
        truth(word)
    }

    /// A condition.
    pub(crate) fn tested(&self, rows: &mut Rows, p: &Point, e: usize) -> Option<Does>
        requires { AreSound rows.old }
        ensures does { IfSome result (λ d. tested (around self.now) (point_in self.now p.now) (tree self.now e) ≡ Some (does_of rows.new d)) }
        ensures there { IfSome result (λ d. IsTrue (is_does_there rows.new d)) }
        ensures grew { IfSome result (λ d. RowsGrew rows.old rows.new) }
        ensures sound { IfSome result (λ d. AreSound rows.new) }
    {
        let holds = self.going(p, 0)?;
        let fails = self.going(p, 1)?;
        let condition = self.condition(rows, e)?;
        Some(Does::Test {
            condition,
            holds,
            fails,
        })
    }

    /// The left operand of a short circuit, whose value waits.
    fn left_operand(
        &self,
        rows: &mut Rows,
        p: &Point,
        e: usize,
        operator: ShortCircuit,
    ) -> Option<Does>
        requires { AreSound rows.old }
        ensures does { IfSome result (λ d. operand (around self.now) (point_in self.now p.now) (tree self.now e) (Some operator) ≡ Some (does_of rows.new d)) }
        ensures there { IfSome result (λ d. IsTrue (is_does_there rows.new d)) }
        ensures grew { IfSome result (λ d. RowsGrew rows.old rows.new) }
        ensures sound { IfSome result (λ d. AreSound rows.new) }
    {
        let next = self.going(p, 0)?;
        let decided = self.going(p, 1)?;
        let operand = self.condition(rows, e)?;
        Some(Does::EvaluateLeft {
            operand,
            or_else: is_or_else(operator),
            next,
            decided,
        })
    }

    /// An operand of a short circuit, whose value waits.
    pub(crate) fn operand(
        &self,
        rows: &mut Rows,
        p: &Point,
        e: usize,
        left_of: Option<ShortCircuit>,
    ) -> Option<Does>
        requires { AreSound rows.old }
        ensures does { IfSome result (λ d. operand (around self.now) (point_in self.now p.now) (tree self.now e) left_of ≡ Some (does_of rows.new d)) }
        ensures there { IfSome result (λ d. IsTrue (is_does_there rows.new d)) }
        ensures grew { IfSome result (λ d. RowsGrew rows.old rows.new) }
        ensures sound { IfSome result (λ d. AreSound rows.new) }
    {
        let Some(operator) = left_of else {
            let next = self.going(p, 0)?;
            let operand = self.condition(rows, e)?;
            return Some(Does::EvaluateRight { operand, next });
        };
        self.left_operand(rows, p, e, operator)
    }
}
