//! What calls pass.
ghost use Rattle.std.specs.Prelude.{◌≡◌, ◌+◌, ◌<◌, ◌∷◌, ℕ, Bool, List, IfSome, IsTrue, Some, length, map, true};
ghost use Rattle.type_definitions.specs.Types.{shape_of};
ghost use Rattle.flow_paths.specs.Names.{waiting};
ghost use Rattle.flow_paths.specs.Objects as objects;
ghost use Rattle.flow_paths.specs.Objects.{object_at, passings, sub_at};
ghost use Rattle.machine.specs.Evaluate.{AsView};
ghost use Rattle.program_typing.specs.Passings.{passing_of};
ghost use Rattle.run_codes.specs.Codes as codes;
ghost use Rattle.run_codes.specs.Lowered.{place, one_type};
ghost use Rattle.run_codes.specs.Programs as programs;
ghost use Rattle.run_codes.specs.Programs.{actual, is_scalar_shape, viewed_value};
ghost use Rattle.run_lowering.specs.Sites.{site};
ghost use Rattle.run_lowering.specs.Found.{is_there, placed};
ghost use Rattle.code_rows.specs.Values.{fill_at};
ghost use Rattle.code_rows.specs.Points.{actual_of, actuals_of, is_actual_there, is_range, AreSound, RowsGrew};
ghost use Rattle.program_lowering.specs.Arounds.{around, known, tree, actuals_in};
ghost use Rattle.spark_base.specs.declared.position.Pos.{Pos};
ghost use Rattle.place_names.specs.declared.act.Mode.TheVariants as modes;
ghost use Rattle.typed_tree.specs.Trees.{TypedTree, More};

use crate::around::Around;
use crate::ranges::since;
use code_rows::{Actual, Fill, Range, Rows};
use place_names::Mode;
use program_typing::Passing;
use run_lowering::{Filled, Found, one_type, place_of};
use spark_base::Pos;
use type_definitions::View;
use type_table::TypeTable;
use typed_tree::TypedNode;

/// Whether a type is scalar.
#[tactic(auto, using(crate::proofs::Views::scalar_viewed))]
fn is_scalar(table: &TypeTable, t: u32) -> bool
    ensures { result ≡ is_scalar_shape (shape_of table.now t) }
{
    match table.view(t) {
        View::Whole { .. } | View::Listed { .. } => true,
        _ => false,
    }
}

/// An actual whose value is passed.
#[tactic(auto, using(code_rows::proofs::Kept::sound_within))]
fn by_value(rows: &Rows, value: u32) -> Actual
    requires sound { AreSound rows.now }
    requires there { value < length rows.now.fills }
    ensures actual { actual_of rows.now result ≡ codes.ByValue (fill_at rows.now.nodes rows.now.fills value) }
    ensures there { IsTrue (is_actual_there rows.now result) }
{
    match rows.fills.fill(value, &rows.nodes) {
        Fill::Checked { value, low, high } => Actual::Word { value, low, high },
        _ => Actual::Value { value },
    }
}

/// An actual, and how many values are taken before what follows.
#[derive(Clone, Copy)]
struct Passed {
    actual: Actual,
    taken: usize,
}

impl<'p> Around<'p> {
    /// An actual that is passed by value.
    fn valued(&self, rows: &mut Rows, k: usize, x: u32, e: usize) -> Option<Passed>
        requires { AreSound rows.old }
        ensures actual { (p : Pos) → IfSome result (λ a. actual (site self.now.site) p k objects.ByValue x (tree self.now e) ≡ Some (actual_of rows.new a.actual)) }
        ensures there { IfSome result (λ a. IsTrue (is_actual_there rows.new a.actual)) }
        ensures taken { IfSome result (λ a. a.taken ≡ k + waiting (tree self.now e)) }
        ensures grew { IfSome result (λ a. RowsGrew rows.old rows.new) }
        ensures sound { IfSome result (λ a. AreSound rows.new) }
        ensures same { IfSome result (λ a. actuals_in rows.new ≡ actuals_in rows.old) }
    {
        let of = self.type_of(x);
        let value = self.value(rows, k, e, of, self.is_looked_at(of))?;
        Some(Passed {
            actual: by_value(rows, value.fill),
            taken: value.taken,
        })
    }

    /// An actual that is looked at, and is no scalar.
    fn viewed(&self, rows: &mut Rows, k: usize, of: u32, e: usize) -> Option<Passed>
        requires { AreSound rows.old }
        ensures actual { IfSome result (λ a. viewed_value (site self.now.site) k of (tree self.now e) ≡ Some (actual_of rows.new a.actual)) }
        ensures there { IfSome result (λ a. IsTrue (is_actual_there rows.new a.actual)) }
        ensures taken { IfSome result (λ a. a.taken ≡ k + waiting (tree self.now e)) }
        ensures grew { IfSome result (λ a. RowsGrew rows.old rows.new) }
        ensures sound { IfSome result (λ a. AreSound rows.new) }
        ensures same { IfSome result (λ a. actuals_in rows.new ≡ actuals_in rows.old) }
    {
        if is_scalar(self.site.typing.table, of) {
            return None;
        }
        let value = self.value(rows, k, e, of, true)?;
        Some(Passed {
            actual: by_value(rows, value.fill),
            taken: value.taken,
        })
    }

    /// The place of an actual, whose words are of the sorts of its formal's type.
    fn passed_place(&self, rows: &mut Rows, k: usize, of: u32, e: usize) -> Option<Found>
        requires { AreSound rows.old }
        ensures place { IfSome result (λ f. place (site self.now.site) k (tree self.now e) ≡ Some (placed rows.new.nodes f)) }
        ensures one { IfSome result (λ f. one_type (known self.now).table f.of of ≡ true) }
        ensures there { IfSome result (λ f. IsTrue (is_there rows.new.nodes f)) }
        ensures taken { IfSome result (λ f. f.taken ≡ k + waiting (tree self.now e)) }
        ensures grew { IfSome result (λ f. RowsGrew rows.old rows.new) }
        ensures sound { IfSome result (λ f. AreSound rows.new) }
        ensures same { IfSome result (λ f. actuals_in rows.new ≡ actuals_in rows.old) }
    {
        let found = self.place(rows, k, e)?;
        if !one_type(self.site.typing.table, found.of, of) {
            return None;
        }
        Some(found)
    }

    /// An actual that gets the value of its formal alone.
    fn given(&self, rows: &mut Rows, k: usize, x: u32, e: usize) -> Option<Passed>
        requires { AreSound rows.old }
        ensures actual { (p : Pos) (owning access : Bool) → IfSome result (λ a. actual (site self.now.site) p k (objects.Place modes.Out owning access) x (tree self.now e) ≡ Some (actual_of rows.new a.actual)) }
        ensures there { IfSome result (λ a. IsTrue (is_actual_there rows.new a.actual)) }
        ensures taken { IfSome result (λ a. a.taken ≡ k + waiting (tree self.now e)) }
        ensures grew { IfSome result (λ a. RowsGrew rows.old rows.new) }
        ensures sound { IfSome result (λ a. AreSound rows.new) }
        ensures same { IfSome result (λ a. actuals_in rows.new ≡ actuals_in rows.old) }
    {
        let pos = self.name_pos(e)?;
        let found = self.passed_place(rows, k, self.type_of(x), e)?;
        Some(Passed {
            actual: Actual::To {
                place: place_of(&rows.nodes, found),
                of: found.of,
                pos,
            },
            taken: found.taken,
        })
    }

    /// An actual whose value its formal begins with, and which gets that of its formal.
    fn lent(&self, rows: &mut Rows, k: usize, x: u32, e: usize) -> Option<Passed>
        requires { AreSound rows.old }
        ensures actual { (p : Pos) (owning access : Bool) → IfSome result (λ a. actual (site self.now.site) p k (objects.Place modes.InOut owning access) x (tree self.now e) ≡ Some (actual_of rows.new a.actual)) }
        ensures there { IfSome result (λ a. IsTrue (is_actual_there rows.new a.actual)) }
        ensures taken { IfSome result (λ a. a.taken ≡ k + waiting (tree self.now e)) }
        ensures grew { IfSome result (λ a. RowsGrew rows.old rows.new) }
        ensures sound { IfSome result (λ a. AreSound rows.new) }
        ensures same { IfSome result (λ a. actuals_in rows.new ≡ actuals_in rows.old) }
    {
        let formal = self.type_of(x);
        let found = self.passed_place(rows, k, formal, e)?;
        Some(Passed {
            actual: Actual::From {
                place: place_of(&rows.nodes, found),
                of: found.of,
                formal,
            },
            taken: found.taken,
        })
    }

    /// An actual whose place is passed, by the mode of its formal.
    fn by_mode(&self, rows: &mut Rows, k: usize, mode: Mode, x: u32, e: usize) -> Option<Passed>
        requires { AreSound rows.old }
        ensures actual { (p : Pos) (owning access : Bool) → IfSome result (λ a. actual (site self.now.site) p k (objects.Place mode owning access) x (tree self.now e) ≡ Some (actual_of rows.new a.actual)) }
        ensures there { IfSome result (λ a. IsTrue (is_actual_there rows.new a.actual)) }
        ensures taken { IfSome result (λ a. a.taken ≡ k + waiting (tree self.now e)) }
        ensures grew { IfSome result (λ a. RowsGrew rows.old rows.new) }
        ensures sound { IfSome result (λ a. AreSound rows.new) }
        ensures same { IfSome result (λ a. actuals_in rows.new ≡ actuals_in rows.old) }
    {
        match mode {
            Mode::In => self.viewed(rows, k, self.type_of(x), e),
            Mode::Out => self.given(rows, k, x, e),
            Mode::InOut => self.lent(rows, k, x, e),
        }
    }

    /// An actual, by how it is passed to a formal.
    fn actual(&self, rows: &mut Rows, k: usize, way: Passing, x: u32, e: usize) -> Option<Passed>
        requires { AreSound rows.old }
        ensures actual { (p : Pos) → IfSome result (λ a. actual (site self.now.site) p k (passing_of way) x (tree self.now e) ≡ Some (actual_of rows.new a.actual)) }
        ensures there { IfSome result (λ a. IsTrue (is_actual_there rows.new a.actual)) }
        ensures taken { IfSome result (λ a. a.taken ≡ k + waiting (tree self.now e)) }
        ensures grew { IfSome result (λ a. RowsGrew rows.old rows.new) }
        ensures sound { IfSome result (λ a. AreSound rows.new) }
        ensures same { IfSome result (λ a. actuals_in rows.new ≡ actuals_in rows.old) }
    {
        match way {
            Passing::ByValue => self.valued(rows, k, x, e),
            Passing::Traversed => self.viewed(rows, k, self.type_of(x), e),
            Passing::Place { mode, .. } => self.by_mode(rows, k, mode, x, e),
        }
    }

    /// Adds an actual, and tells how many values are taken before what follows.
    #[tactic(auto, using(code_rows::proofs::Kept::rows_on, crate::proofs::Lists::one_on))]
    fn passed(&self, rows: &mut Rows, k: usize, way: Passing, x: u32, e: usize) -> Option<usize>
        requires { AreSound rows.old }
        ensures actuals { (p : Pos) (ways : List objects.Passing) (formals : List ℕ) (rest : TypedTree) → IfSome result (λ j. programs.append_all (Some (actuals_in rows.old)) (programs.actuals (site self.now.site) p k (passing_of way ∷ ways) (x ∷ formals) (More (tree self.now e) rest))
            ≡ programs.append_all (Some (actuals_in rows.new)) (programs.actuals (site self.now.site) p j ways formals rest)) }
        ensures grew { IfSome result (λ j. RowsGrew rows.old rows.new) }
        ensures sound { IfSome result (λ j. AreSound rows.new) }
    {
        let passed = self.actual(rows, k, way, x, e)?;
        rows.push_actual(passed.actual)?;
        Some(passed.taken)
    }

    /// Adds the actuals of a list, in the order of some formals.
    #[tactic(auto, using(code_rows::proofs::Kept::rows_on, code_rows::proofs::Kept::rows_none))]
    fn all_passed(
        &self,
        rows: &mut Rows,
        ways: &[Passing],
        formals: &[u32],
        list: usize,
    ) -> Option<()>
        requires { AreSound rows.old }
        ensures actuals { (p : Pos) → IfSome result (λ _. programs.append_all (Some (actuals_in rows.old)) (programs.actuals (site self.now.site) p 0 (map passing_of ways.now) formals.now (tree self.now list)) ≡ Some (actuals_in rows.new)) }
        ensures grew { IfSome result (λ _. RowsGrew rows.old rows.new) }
        ensures sound { IfSome result (λ _. AreSound rows.new) }
    {
        let mut ways = ways;
        let mut at = list;
        let mut taken = 0;
        'formals: for formal in formals {
            let (way, left) = ways.split_first()?;
            let TypedNode::More { first, rest } = self.site.rows.node(at) else {
                return None;
            };
            taken = self.passed(rows, taken, *way, *formal, *first)?;
            ways = left;
            at = *rest;
        }
        match (ways, self.site.rows.node(at)) {
            ([], TypedNode::NoMore) => Some(()),
            _ => None,
        }
    }

    /// The actuals of a call, in the order of the formals.
    #[tactic(auto, using(crate::proofs::Lists::range_there))]
    pub(crate) fn actuals(&self, rows: &mut Rows, sub: u32, list: usize) -> Option<Range>
        requires { AreSound rows.old }
        ensures actuals { (p : Pos) → IfSome result (λ r. programs.actuals (site self.now.site) p 0 (passings (known self.now) (sub_at (known self.now) sub)) (sub_at (known self.now) sub).formals (tree self.now list) ≡ Some (actuals_of rows.new r)) }
        ensures there { IfSome result (λ r. IsTrue (is_range rows.new.actuals.items r)) }
        ensures grew { IfSome result (λ r. RowsGrew rows.old rows.new) }
        ensures sound { IfSome result (λ r. AreSound rows.new) }
    {
        let ways = self.site.typing.passings(self.site.alloc, sub).ok()?;
        let first = rows.actuals.len();
        self.all_passed(rows, &ways, self.site.typing.formals(sub), list)?;
        since(first, rows.actuals.len())
    }
}
