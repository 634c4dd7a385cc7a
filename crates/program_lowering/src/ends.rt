//! Results, the input, and where scopes and cells end.
ghost use Rattle.std.specs.Prelude.{◌≡◌, ◌<◌, IfSome, IsTrue, Some, length, option_and_then};
ghost use Rattle.type_definitions.specs.Types.{shape_of};
ghost use Rattle.typed_tree.specs.Trees.{NoMore};
ghost use Rattle.run_codes.specs.Programs.{held_result, input_to, release_at, scope_end};
ghost use Rattle.run_codes.specs.Lowered.{place};
ghost use Rattle.run_lowering.specs.Sites.{site};
ghost use Rattle.code_rows.specs.Points.{does_of, is_does_there, AreSound, RowsGrew};
ghost use Rattle.program_lowering.specs.Ends.{is_named};
ghost use Rattle.program_lowering.specs.Arounds.{around, known, tree, point_in};
ghost use Rattle.code_rows.specs.declared.rows.Rows.{Rows};
ghost use Rattle.type_definitions.specs.declared.table.Shape.TheVariants as shape;

use crate::around::Around;
use code_rows::{Does, Rows};
use flow_paths::Point;
use run_lowering::{designated_type, place_of};
use type_definitions::View;
use type_table::TypeTable;
use typed_tree::TypedNode;

/// The bounds of a type of Integer.
#[derive(Clone, Copy)]
struct Bounds {
    low: i32,
    high: i32,
}

/// The bounds of a type of Integer.
#[tactic(auto, using(crate::proofs::Views::whole_viewed))]
fn whole_bounds(table: &TypeTable, t: u32) -> Option<Bounds>
    ensures { IfSome result (λ b. shape_of table.now t ≡ shape.Whole b.low b.high) }
{
    match table.view(t) {
        View::Whole { low, high } => Some(Bounds { low, high }),
        _ => None,
    }
}

/// Whether a type is a named access type.
fn is_named(view: View) -> bool
    ensures { result ≡ is_named view }
{
    match view {
        View::Access { named, .. } => named,
        _ => false,
    }
}

impl<'p> Around<'p> {
    /// The value of a result of a type.
    fn held(&self, rows: &mut Rows, p: &Point, list: usize, of: u32) -> Option<Does>
        requires { AreSound rows.old }
        ensures does { IfSome result (λ d. held_result (around self.now) (point_in self.now p.now) (tree self.now list) (Some of) ≡ Some (does_of rows.new d)) }
        ensures there { IfSome result (λ d. IsTrue (is_does_there rows.new d)) }
        ensures grew { IfSome result (λ d. RowsGrew rows.old rows.new) }
        ensures sound { IfSome result (λ d. AreSound rows.new) }
    {
        let TypedNode::More { first, .. } = self.site.rows.node(list) else {
            return None;
        };
        let next = self.following(p, 0)?;
        let value = self.value(rows, 0, *first, of, self.is_looked_at(of))?;
        Some(Does::Hold {
            value: value.fill,
            of,
            next,
        })
    }

    /// A list of no value.
    fn ends(&self, list: usize) -> bool
        ensures { IsTrue result → tree self.now list ≡ NoMore }
    {
        matches!(self.site.rows.node(list), TypedNode::NoMore)
    }

    /// A result waits, where there is one.
    #[tactic(auto, using(code_rows::proofs::Kept::rows_none))]
    pub(crate) fn held_result(&self, rows: &mut Rows, p: &Point, list: usize) -> Option<Does>
        requires { AreSound rows.old }
        ensures does { IfSome result (λ d. held_result (around self.now) (point_in self.now p.now) (tree self.now list) self.now.result ≡ Some (does_of rows.new d)) }
        ensures there { IfSome result (λ d. IsTrue (is_does_there rows.new d)) }
        ensures grew { IfSome result (λ d. RowsGrew rows.old rows.new) }
        ensures sound { IfSome result (λ d. AreSound rows.new) }
    {
        if self.ends(list) {
            return self.gone_on(p);
        }
        match self.result {
            Some(of) => self.held(rows, p, list, of),
            None => None,
        }
    }

    /// The next item of the input.
    pub(crate) fn input(&self, rows: &mut Rows, p: &Point, target: usize) -> Option<Does>
        requires { AreSound rows.old }
        ensures does { IfSome result (λ d. option_and_then (input_to (around self.now) (point_in self.now p.now)) (place (site self.now.site) 0 (tree self.now target)) ≡ Some (does_of rows.new d)) }
        ensures there { IfSome result (λ d. IsTrue (is_does_there rows.new d)) }
        ensures grew { IfSome result (λ d. RowsGrew rows.old rows.new) }
        ensures sound { IfSome result (λ d. AreSound rows.new) }
    {
        let next = self.going(p, 0)?;
        let found = self.place(rows, 0, target)?;
        let bounds = whole_bounds(self.site.typing.table, found.of)?;
        Some(Does::Input {
            place: place_of(&rows.nodes, found),
            low: bounds.low,
            high: bounds.high,
            next,
        })
    }

    /// The release of a cell.
    #[tactic(auto, using(crate::proofs::Views::release_is))]
    pub(crate) fn release(&self, rows: &mut Rows, p: &Point, name: usize) -> Option<Does>
        requires { AreSound rows.old }
        ensures does { IfSome result (λ d. option_and_then (release_at (around self.now) (point_in self.now p.now) (tree self.now name)) (place (site self.now.site) 0 (tree self.now name)) ≡ Some (does_of rows.new d)) }
        ensures there { IfSome result (λ d. IsTrue (is_does_there rows.new d)) }
        ensures grew { IfSome result (λ d. RowsGrew rows.old rows.new) }
        ensures sound { IfSome result (λ d. AreSound rows.new) }
    {
        let next = self.going(p, 0)?;
        let pos = self.name_pos(name)?;
        let found = self.place(rows, 0, name)?;
        let of = designated_type(self.site.typing.table, found.of)?;
        Some(Does::Release {
            place: place_of(&rows.nodes, found),
            of,
            pos,
            next,
        })
    }

    /// The end of the scope of an object.
    #[tactic(auto, using(crate::proofs::Views::scope_pointer, crate::proofs::Views::scope_other))]
    pub(crate) fn scope_end(&self, p: &Point, x: u32) -> Option<Does>
        ensures does { IfSome result (λ d. (rows : Rows) → scope_end (around self.now) (point_in self.now p.now) x ≡ Some (does_of rows d)) }
        ensures there { IfSome result (λ d. (rows : Rows) → IsTrue (is_does_there rows d)) }
    {
        let at = self.own_offset(x)?;
        let next = self.going(p, 0)?;
        if is_named(self.site.typing.view(x)) {
            return Some(Does::EndPointer { at, next });
        }
        Some(Does::EndScope {
            at,
            of: self.type_of(x),
            next,
        })
    }
}
