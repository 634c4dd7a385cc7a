//! Choices.
ghost use Rattle.std.specs.Prelude.{◌≡◌, ◌<◌, ◌∷◌, ◌++◌, List, IfSome, IsTrue, Some, length, map, suc};
ghost use Rattle.typed_tree.specs.Trees.{TypedCode, More};
ghost use Rattle.typed_tree.specs.Nodes.{is_code_below, typed_at, typed_code_at, typed_code_of};
ghost use Rattle.run_codes.specs.Programs as programs;
ghost use Rattle.run_codes.specs.Programs.{alternatives, chosen, chosen_code};
ghost use Rattle.run_lowering.specs.Found.{lowered_in};
ghost use Rattle.code_rows.specs.declared.node.Node.{Node as RowNode};
ghost use Rattle.code_rows.specs.Rows.{code_at};
ghost use Rattle.code_rows.specs.Points.{choices_of, does_of, is_range, is_does_there, AreSound, RowsGrew};
ghost use Rattle.program_lowering.specs.Arounds.{around, tree, point_in, choices_in};
ghost use Rattle.program_lowering.specs.Choices.{follows};

use crate::around::Around;
use crate::ranges::since;
use code_rows::{Choice, Does, Range, Rows};
use flow_paths::Point;
use run_lowering::{Sort, Typed};
use typed_tree::{TypedCodeNode, TypedRows};

/// The node of code. What has no number in the rows is none.
fn code_node(code: &TypedRows, i: usize) -> Option<TypedCodeNode>
    ensures code { IfSome result (λ n. typed_code_at code.now i ≡ typed_code_of (typed_at code.now) (typed_code_at code.now) n) }
    ensures below { IfSome result (λ n. IsTrue (is_code_below (length code.now.0) i n)) }
{
    if i < code.code_len() {
        return Some(*code.code(i));
    }
    None
}

/// Adds a choice: that of the values of an interval, or of all.
#[tactic(auto, unfolding(run_codes::specs::Programs::choices_of))]
fn choice(rows: &mut Rows, code: &TypedRows, i: usize, next: u32) -> Option<()>
    requires sound { AreSound rows.old }
    requires next { IsTrue (follows next) }
    ensures choices { (rest : TypedCode) → IfSome result (λ _. choices_in rows.old ++ programs.choices_of next (More (typed_code_at code.now i) rest) ≡ choices_in rows.new ++ programs.choices_of next rest) }
    ensures grew { IfSome result (λ _. RowsGrew rows.old rows.new) }
    ensures sound { IfSome result (λ _. AreSound rows.new) }
{
    match code_node(code, i)? {
        TypedCodeNode::Interval { low, high } => rows.push_choice(Choice { low, high, next }),
        TypedCodeNode::Others => rows.push_choice(Choice {
            low: i32::MIN,
            high: i32::MAX,
            next,
        }),
        _ => None,
    }
}

/// Adds the choices of an alternative, which lead to a point.
#[tactic(auto, using(code_rows::proofs::Kept::rows_on, code_rows::proofs::Kept::rows_none), unfolding(run_codes::specs::Programs::choices_of))]
fn alternative(rows: &mut Rows, code: &TypedRows, list: usize, next: u32) -> Option<()>
    requires sound { AreSound rows.old }
    requires next { IsTrue (follows next) }
    ensures choices { IfSome result (λ _. choices_in rows.old ++ programs.choices_of next (typed_code_at code.now list) ≡ choices_in rows.new) }
    ensures grew { IfSome result (λ _. RowsGrew rows.old rows.new) }
    ensures sound { IfSome result (λ _. AreSound rows.new) }
{
    let mut at = list;
    'choices: loop {
        match code_node(code, at)? {
            TypedCodeNode::More { first, rest } => {
                choice(rows, code, first, next)?;
                at = rest;
            }
            TypedCodeNode::NoMore => return Some(()),
            _ => return None,
        }
    }
}

/// The node of a word that is no access value.
fn scalar_node(word: Typed) -> Option<u32>
    ensures code { IfSome result (λ n. (nodes : List RowNode) → chosen_code (lowered_in nodes word) ≡ Some (code_at nodes n)) }
    ensures is { IfSome result (λ n. n ≡ word.node) }
{
    match word.sort {
        Sort::Whole | Sort::Position => Some(word.node),
        Sort::Pointer { .. } => None,
    }
}

impl<'p> Around<'p> {
    /// Adds the choices of an alternative.
    fn led(&self, rows: &mut Rows, p: &Point, k: usize, list: usize) -> Option<()>
        requires { AreSound rows.old }
        ensures choices { (rest : List TypedCode) → IfSome result (λ _. programs.append_all (Some (choices_in rows.old)) (alternatives (around self.now) (point_in self.now p.now) k (typed_code_at self.now.code.now list ∷ rest))
            ≡ programs.append_all (Some (choices_in rows.new)) (alternatives (around self.now) (point_in self.now p.now) (suc k) rest)) }
        ensures grew { IfSome result (λ _. RowsGrew rows.old rows.new) }
        ensures sound { IfSome result (λ _. AreSound rows.new) }
    {
        let next = self.following(p, k)?;
        alternative(rows, self.code, list, next)
    }

    /// Adds the choices of all alternatives.
    #[tactic(auto, using(code_rows::proofs::Kept::rows_on, code_rows::proofs::Kept::rows_none))]
    fn all_led(&self, rows: &mut Rows, p: &Point, lists: &[usize]) -> Option<()>
        requires { AreSound rows.old }
        ensures choices { IfSome result (λ _. programs.append_all (Some (choices_in rows.old)) (alternatives (around self.now) (point_in self.now p.now) 0 (map (typed_code_at self.now.code.now) lists.now)) ≡ Some (choices_in rows.new)) }
        ensures grew { IfSome result (λ _. RowsGrew rows.old rows.new) }
        ensures sound { IfSome result (λ _. AreSound rows.new) }
    {
        let mut k = 0;
        'lists: for list in lists {
            self.led(rows, p, k, *list)?;
            k += 1;
        }
        Some(())
    }

    /// The choices of all alternatives.
    #[tactic(auto, using(crate::proofs::Lists::range_there))]
    fn alternatives(&self, rows: &mut Rows, p: &Point, lists: &[usize]) -> Option<Range>
        requires { AreSound rows.old }
        ensures choices { IfSome result (λ r. alternatives (around self.now) (point_in self.now p.now) 0 (map (typed_code_at self.now.code.now) lists.now) ≡ Some (choices_of rows.new r)) }
        ensures there { IfSome result (λ r. IsTrue (is_range rows.new.choices.items r)) }
        ensures grew { IfSome result (λ r. RowsGrew rows.old rows.new) }
        ensures sound { IfSome result (λ r. AreSound rows.new) }
    {
        let first = rows.choices.len();
        self.all_led(rows, p, lists)?;
        since(first, rows.choices.len())
    }

    /// The selection of an alternative by a value.
    #[tactic(auto, using(code_rows::proofs::Kept::rows_on, crate::proofs::Rows::node_same, crate::proofs::Rows::node_more, crate::proofs::Rows::value_same, crate::proofs::Rows::value_more))]
    pub(crate) fn chosen(
        &self,
        rows: &mut Rows,
        p: &Point,
        e: usize,
        lists: &[usize],
    ) -> Option<Does>
        requires { AreSound rows.old }
        ensures does { IfSome result (λ d. chosen (around self.now) (point_in self.now p.now) (tree self.now e) (map (typed_code_at self.now.code.now) lists.now) ≡ Some (does_of rows.new d)) }
        ensures there { IfSome result (λ d. IsTrue (is_does_there rows.new d)) }
        ensures grew { IfSome result (λ d. RowsGrew rows.old rows.new) }
        ensures sound { IfSome result (λ d. AreSound rows.new) }
    {
        let word = self.word(rows, 0, e)?;
        let selector = scalar_node(word)?;
        let choices = self.alternatives(rows, p, lists)?;
        Some(Does::Choose { selector, choices })
    }
}
