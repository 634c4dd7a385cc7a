//! Loops over ranges.
ghost use Rattle.std.specs.Prelude.{◌≡◌, ◌+◌, ◌<◌, IfSome, IsTrue, Some, length, option_and_then};
ghost use Rattle.type_definitions.specs.Types.{meant_type, shape_of};
ghost use Rattle.flow_paths.specs.Names.{waiting};
ghost use Rattle.machine.specs.Evaluate.{AsValue};
ghost use Rattle.run_codes.specs.Codes as codes;
ghost use Rattle.run_codes.specs.Lowered.{lowered, scalar_of};
ghost use Rattle.run_codes.specs.Programs.{next_turn, scalar_code, started};
ghost use Rattle.run_lowering.specs.Sites.{site};
ghost use Rattle.run_lowering.specs.Sorts.{scalar_in, sort_in};
ghost use Rattle.run_lowering.specs.Found.{lowered_in};
ghost use Rattle.code_rows.specs.Rows.{code_at};
ghost use Rattle.code_rows.specs.Points.{next_of, does_of, is_does_there, AreSound, RowsGrew};
ghost use Rattle.program_lowering.specs.Arounds.{around, known, tree, point_in};
ghost use Rattle.program_lowering.specs.Defaults.{default_scalar};
ghost use Rattle.code_rows.specs.declared.rows.Rows.{Rows};

use crate::around::Around;
use code_rows::{Does, Rows};
use flow_paths::Point;
use run_lowering::{Scalar, Sort, Typed, same_scalar, scalar_of};
use type_definitions::{Info, Shape};
use type_table::TypeTable;

/// The declaration of Integer.
const INTEGER: u32 = 0;

/// The type that is meant by a subtype without a constraint.
fn meant(infos: &[Info], t: u32) -> u32
    ensures { result ≡ meant_type infos.now t }
{
    match infos.get(t as usize) {
        Some(info) => match &info.shape {
            Shape::Same { of } => *of,
            _ => t,
        },
        None => t,
    }
}

/// The type that is meant by a subtype without a constraint.
fn meant_type(table: &TypeTable, t: u32) -> u32
    ensures { result ≡ meant_type table.now t }
{
    meant(table.infos(), t)
}

/// The word of a scalar object without a value.
#[derive(Clone, Copy)]
struct Unset {
    word: i32,
}

/// The word of a scalar object without a value.
fn default_word(table: &TypeTable, t: u32, scalar: Scalar) -> Unset
    ensures { result.word ≡ default_scalar table.now t (scalar_in scalar) }
{
    match scalar.sort {
        Sort::Whole if meant_type(table, t) == INTEGER => Unset { word: 0 },
        _ => Unset { word: scalar.low },
    }
}

/// The nodes of the bounds of a loop.
#[derive(Clone, Copy)]
struct Bounds {
    low: u32,
    high: u32,
}

/// What the start of a loop does.
fn start_row(at: u32, counter: u32, bounds: Bounds, scalar: Scalar, next: u32) -> Does
    ensures does { (rows : Rows) → does_of rows result ≡ codes.Start at counter (code_at rows.nodes bounds.low) (code_at rows.nodes bounds.high) scalar.low scalar.high (next_of next) }
    ensures there { (rows : Rows) → bounds.low < length rows.nodes → bounds.high < length rows.nodes → IsTrue (is_does_there rows result) }
{
    Does::Start {
        at,
        counter,
        low: bounds.low,
        high: bounds.high,
        first: scalar.low,
        last: scalar.high,
        next,
    }
}

/// What the next turn of a loop does.
fn next_row(at: u32, counter: u32, reversed: bool, without: Unset, turn: u32, leave: u32) -> Does
    ensures does { (rows : Rows) → does_of rows result ≡ codes.Next at counter reversed without.word (next_of turn) (next_of leave) }
    ensures there { (rows : Rows) → IsTrue (is_does_there rows result) }
{
    Does::Next {
        at,
        counter,
        reversed,
        without: without.word,
        turn,
        leave,
    }
}

impl<'p> Around<'p> {
    /// A word of a scalar sort.
    fn scalar_word(&self, rows: &mut Rows, k: usize, n: usize, sort: Sort) -> Option<Typed>
        requires { AreSound rows.old }
        ensures code { IfSome result (λ t. option_and_then (scalar_code (sort_in sort)) (lowered (site self.now.site) k AsValue (tree self.now n)) ≡ Some (code_at rows.new.nodes t.node)) }
        ensures there { IfSome result (λ t. t.node < length rows.new.nodes) }
        ensures taken { IfSome result (λ t. t.taken ≡ k + waiting (tree self.now n)) }
        ensures grew { IfSome result (λ t. RowsGrew rows.old rows.new) }
        ensures sound { IfSome result (λ t. AreSound rows.new) }
    {
        let word = self.word(rows, k, n)?;
        if !same_scalar(sort, word.sort) {
            return None;
        }
        Some(word)
    }

    /// The bounds of a loop, of a scalar sort.
    #[tactic(auto, using(code_rows::proofs::Kept::rows_on, crate::proofs::Rows::node_same, crate::proofs::Rows::node_more))]
    fn bounds(&self, rows: &mut Rows, low: usize, high: usize, sort: Sort) -> Option<Bounds>
        requires { AreSound rows.old }
        ensures low { IfSome result (λ b. option_and_then (scalar_code (sort_in sort)) (lowered (site self.now.site) 0 AsValue (tree self.now low)) ≡ Some (code_at rows.new.nodes b.low)) }
        ensures high { IfSome result (λ b. option_and_then (scalar_code (sort_in sort)) (lowered (site self.now.site) (waiting (tree self.now low)) AsValue (tree self.now high)) ≡ Some (code_at rows.new.nodes b.high)) }
        ensures low_there { IfSome result (λ b. b.low < length rows.new.nodes) }
        ensures high_there { IfSome result (λ b. b.high < length rows.new.nodes) }
        ensures grew { IfSome result (λ b. RowsGrew rows.old rows.new) }
        ensures sound { IfSome result (λ b. AreSound rows.new) }
    {
        let low = self.scalar_word(rows, 0, low, sort)?;
        let high = self.scalar_word(rows, low.taken, high, sort)?;
        Some(Bounds {
            low: low.node,
            high: high.node,
        })
    }

    /// The start of a loop.
    #[tactic(auto, using(crate::proofs::Turns::start_is))]
    pub(crate) fn started(
        &self,
        rows: &mut Rows,
        p: &Point,
        x: u32,
        low: usize,
        high: usize,
    ) -> Option<Does>
        requires { AreSound rows.old }
        ensures does { IfSome result (λ d. started (around self.now) (point_in self.now p.now) x (tree self.now low) (tree self.now high) ≡ Some (does_of rows.new d)) }
        ensures there { IfSome result (λ d. IsTrue (is_does_there rows.new d)) }
        ensures grew { IfSome result (λ d. RowsGrew rows.old rows.new) }
        ensures sound { IfSome result (λ d. AreSound rows.new) }
    {
        let at = self.own_loop(x)?;
        let counter = at.checked_add(1)?;
        let scalar = scalar_of(self.site.typing.table, self.type_of(x))?;
        let next = self.following(p, 0)?;
        let bounds = self.bounds(rows, low, high, scalar.sort)?;
        Some(start_row(at, counter, bounds, scalar, next))
    }

    /// The next turn of a loop, or its end.
    #[tactic(auto, using(crate::proofs::Defaults::default_is, crate::proofs::Turns::turn_is))]
    pub(crate) fn next_turn(&self, p: &Point, x: u32, reversed: bool) -> Option<Does>
        ensures does { IfSome result (λ d. (rows : Rows) → next_turn (around self.now) (point_in self.now p.now) x reversed ≡ Some (does_of rows d)) }
        ensures there { IfSome result (λ d. (rows : Rows) → IsTrue (is_does_there rows d)) }
    {
        let at = self.own_loop(x)?;
        let counter = at.checked_add(1)?;
        let of = self.type_of(x);
        let scalar = scalar_of(self.site.typing.table, of)?;
        let turn = self.going(p, 0)?;
        let leave = self.going(p, 1)?;
        let without = default_word(self.site.typing.table, of, scalar);
        Some(next_row(at, counter, reversed, without, turn, leave))
    }
}
