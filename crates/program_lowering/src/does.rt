//! What points do.
ghost use Rattle.std.specs.Prelude.{◌≡◌, IfSome, IsTrue, Some, option_and_then};
ghost use Rattle.run_codes.specs.Programs as programs;
ghost use Rattle.run_lowering.specs.Sites.{site};
ghost use Rattle.code_rows.specs.Points.{does_of, is_does_there, next_of, AreSound, RowsGrew};
ghost use Rattle.program_lowering.specs.Arounds.{around, known, tree, point_in};
ghost use Rattle.run_codes.specs.Codes as codes;
ghost use Rattle.flow_paths.specs.Instructions as instruction;

use crate::around::Around;
use code_rows::{Does, Rows};
use flow_paths::{Instr, Point};
use typed_tree::TypedNode;

impl<'p> Around<'p> {
    /// A call.
    fn called(&self, rows: &mut Rows, p: &Point, sub: u32, list: usize) -> Option<Does>
        requires { AreSound rows.old }
        ensures does { IfSome result (λ d. programs.called (around self.now) (point_in self.now p.now) sub (tree self.now list) ≡ Some (does_of rows.new d)) }
        ensures there { IfSome result (λ d. IsTrue (is_does_there rows.new d)) }
        ensures grew { IfSome result (λ d. RowsGrew rows.old rows.new) }
        ensures sound { IfSome result (λ d. AreSound rows.new) }
    {
        let next = self.following(p, 0)?;
        let actuals = self.actuals(rows, sub, list)?;
        Some(Does::Call { sub, actuals, next })
    }

    /// A string is written.
    fn output(&self, rows: &mut Rows, p: &Point, list: usize, line: bool) -> Option<Does>
        requires { AreSound rows.old }
        ensures does { IfSome result (λ d. option_and_then (λ t. programs.on_going (around self.now) (point_in self.now p.now) (λ n. Some (codes.Output t line n))) (programs.text_pieces (site self.now.site) (tree self.now list)) ≡ Some (does_of rows.new d)) }
        ensures there { IfSome result (λ d. IsTrue (is_does_there rows.new d)) }
        ensures grew { IfSome result (λ d. RowsGrew rows.old rows.new) }
        ensures sound { IfSome result (λ d. AreSound rows.new) }
    {
        let next = self.going(p, 0)?;
        let texts = self.texts(rows, list)?;
        Some(Does::Output { texts, line, next })
    }

    /// The end of a loop, maybe on a condition.
    #[tactic(auto, using(code_rows::proofs::Kept::rows_none))]
    fn loop_left(&self, rows: &mut Rows, p: &Point, list: usize) -> Option<Does>
        requires { AreSound rows.old }
        ensures does { IfSome result (λ d. programs.does (around self.now) (point_in self.now p.now) (instruction.LeaveLoop (tree self.now list)) ≡ Some (does_of rows.new d)) }
        ensures there { IfSome result (λ d. IsTrue (is_does_there rows.new d)) }
        ensures grew { IfSome result (λ d. RowsGrew rows.old rows.new) }
        ensures sound { IfSome result (λ d. AreSound rows.new) }
    {
        match self.site.rows.node(list) {
            TypedNode::More { first, .. } => self.tested(rows, p, *first),
            TypedNode::NoMore => self.gone_on(p),
            _ => None,
        }
    }

    /// What a point does.
    #[tactic(auto, using(code_rows::proofs::Kept::rows_none))]
    pub(crate) fn does(&self, rows: &mut Rows, p: &Point) -> Option<Does>
        requires { AreSound rows.old }
        ensures does { IfSome result (λ d. programs.does (around self.now) (point_in self.now p.now) (point_in self.now p.now).instr ≡ Some (does_of rows.new d)) }
        ensures there { IfSome result (λ d. IsTrue (is_does_there rows.new d)) }
        ensures grew { IfSome result (λ d. RowsGrew rows.old rows.new) }
        ensures sound { IfSome result (λ d. AreSound rows.new) }
    {
        match &p.instr {
            Instr::Skip => self.gone_on(p),
            Instr::Declare { object, value } => self.declared(rows, p, *object, *value),
            Instr::Assign { target, source } => self.assigned(rows, p, *target, *source),
            Instr::Call { sub, actuals, .. } => self.called(rows, p, *sub, *actuals),
            Instr::Output { text, line } => self.output(rows, p, *text, *line),
            Instr::Input { target } => self.input(rows, p, *target),
            Instr::Release { name } => self.release(rows, p, *name),
            Instr::Test { condition } => self.tested(rows, p, *condition),
            Instr::Choose { selector, choices } => {
                self.chosen(rows, p, *selector, choices.as_slice())
            }
            Instr::Start {
                parameter,
                low,
                high,
                ..
            } => self.started(rows, p, *parameter, *low, *high),
            Instr::Next {
                parameter,
                reverse,
                ..
            } => self.next_turn(p, *parameter, *reverse),
            Instr::Evaluate {
                operand,
                left_of,
                ..
            } => self.operand(rows, p, *operand, *left_of),
            Instr::LeaveLoop { condition } => self.loop_left(rows, p, *condition),
            Instr::Hold { value } => self.held_result(rows, p, *value),
            Instr::EndScope { object } => self.scope_end(p, *object),
            Instr::Finish => Some(Does::Finish),
            Instr::Fall => Some(Does::Fall),
        }
    }
}
