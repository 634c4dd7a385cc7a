//! Declarations and assignments.
ghost use Rattle.std.specs.Prelude.{◌≡◌, ◌<◌, List, IfSome, IsTrue, None, Some, length};
ghost use Rattle.type_definitions.specs.Types.{is_owning, shape_of};
ghost use Rattle.run_codes.specs.Codes.{Checked, InFrame, Pointer};
ghost use Rattle.run_codes.specs.Lowered.{no_index};
ghost use Rattle.run_codes.specs.Programs.{assigned, declared, going, kind_at, name_pos, own_offset, put_at, stored_at, type_of};
ghost use Rattle.run_lowering.specs.Found.{placed, is_there};
ghost use Rattle.code_rows.specs.declared.node.Node.{Node as RowNode};
ghost use Rattle.code_rows.specs.Rows.{code_at};
ghost use Rattle.code_rows.specs.Values.{fill_at};
ghost use Rattle.code_rows.specs.Points.{next_of, does_of, is_does_there, AreSound, RowsGrew};
ghost use Rattle.program_lowering.specs.Arounds.{around, known, tree, point_in};
ghost use Rattle.program_lowering.specs.Stores.{is_local, checks_of};
ghost use Rattle.run_codes.specs.Codes as codes;
ghost use Rattle.spark_base.specs.declared.position.Pos.{Pos};

use crate::around::Around;
use code_rows::{Does, Fill, Rows};
use flow_paths::Point;
use run_lowering::{Base, Found, place_of};
use run_values::Kind;
use spark_base::Pos;
use type_definitions::View;
use type_table::TypeTable;
use typed_tree::TypedNode;

/// The kind of the words of a type whose values have one word.
#[tactic(auto, using(crate::proofs::Views::kind_viewed))]
fn kind_at(table: &TypeTable, t: u32) -> Kind
    ensures { result ≡ kind_at (shape_of table.now t) }
{
    match table.view(t) {
        View::Whole { .. } => Kind::Int,
        View::Listed { .. } => Kind::Enum,
        _ => Kind::Access,
    }
}

/// Whether a place is a whole object of the frame.
fn is_local(found: Found) -> bool
    ensures { result ≡ is_local found }
{
    match (found.base, found.index) {
        (Base::Frame, None) => true,
        _ => false,
    }
}

/// What a value goes to: a place, where its leak checks stand, if there are some, and the point that
/// follows.
#[derive(Clone, Copy)]
pub(crate) struct Target {
    pub(crate) found: Found,
    pub(crate) checks: Option<Pos>,
    pub(crate) next: u32,
}

impl<'p> Around<'p> {
    /// A scalar value within bounds goes to a place.
    #[tactic(auto, using(crate::proofs::Placing::local_scalar, crate::proofs::Placing::far_scalar))]
    fn scalar_stored(&self, rows: &Rows, to: Target, value: u32, low: i32, high: i32) -> Does
        requires place { IsTrue (is_there rows.now.nodes to.found) }
        requires value { value < length rows.now.nodes }
        ensures does { does_of rows.now result ≡ put_at (shape_of (known self.now).table to.found.of) (placed rows.now.nodes to.found) (Checked (code_at rows.now.nodes value) low high) to.checks (next_of to.next) }
        ensures there { IsTrue (is_does_there rows.now result) }
    {
        let next = to.next;
        if is_local(to.found) {
            return Does::Put {
                at: to.found.at,
                value,
                low,
                high,
                next,
            };
        }
        Does::Store {
            place: place_of(&rows.nodes, to.found),
            value,
            low,
            high,
            kind: kind_at(self.site.typing.table, to.found.of),
            next,
        }
    }

    /// A value of any type goes to a place.
    fn all_stored(&self, rows: &Rows, to: Target, value: u32) -> Does
        requires place { IsTrue (is_there rows.now.nodes to.found) }
        requires value { value < length rows.now.fills }
        ensures does { does_of rows.now result ≡ codes.Assign (placed rows.now.nodes to.found).place (fill_at rows.now.nodes rows.now.fills value) to.found.of to.checks (next_of to.next) }
        ensures there { IsTrue (is_does_there rows.now result) }
    {
        Does::Assign {
            place: place_of(&rows.nodes, to.found),
            value,
            of: to.found.of,
            pos: to.checks,
            next: to.next,
        }
    }

    /// An access value that is looked at goes to a place. It is a value with a number as well.
    #[tactic(auto, using(crate::proofs::Placing::local_pointer, crate::proofs::Placing::far_pointer))]
    fn pointer_stored(&self, rows: &Rows, to: Target, pointer: u32, value: u32) -> Does
        requires place { IsTrue (is_there rows.now.nodes to.found) }
        requires pointer { pointer < length rows.now.nodes }
        requires value { value < length rows.now.fills }
        requires same { fill_at rows.now.nodes rows.now.fills value ≡ Pointer (code_at rows.now.nodes pointer) }
        ensures does { does_of rows.now result ≡ put_at (shape_of (known self.now).table to.found.of) (placed rows.now.nodes to.found) (Pointer (code_at rows.now.nodes pointer)) to.checks (next_of to.next) }
        ensures there { IsTrue (is_does_there rows.now result) }
    {
        match to.checks {
            Some(_) => self.all_stored(rows, to, value),
            None => {
                if is_local(to.found) {
                    Does::PutPointer {
                        at: to.found.at,
                        value: pointer,
                        next: to.next,
                    }
                } else {
                    self.all_stored(rows, to, value)
                }
            }
        }
    }

    /// A value goes to a place.
    #[tactic(auto, using(code_rows::proofs::Kept::sound_within))]
    fn stored(&self, rows: &Rows, to: Target, value: u32) -> Does
        requires sound { AreSound rows.now }
        requires place { IsTrue (is_there rows.now.nodes to.found) }
        requires value { value < length rows.now.fills }
        ensures does { does_of rows.now result ≡ stored_at (known self.now).table (placed rows.now.nodes to.found) (fill_at rows.now.nodes rows.now.fills value) to.checks (next_of to.next) }
        ensures there { IsTrue (is_does_there rows.now result) }
    {
        match rows.fills.fill(value, &rows.nodes) {
            Fill::Checked { value, low, high } => self.scalar_stored(rows, to, value, low, high),
            Fill::Pointer { value: pointer } => self.pointer_stored(rows, to, pointer, value),
            Fill::Nothing
            | Fill::MovedPointer { .. }
            | Fill::Copied { .. }
            | Fill::Moved { .. }
            | Fill::Waited { .. }
            | Fill::New { .. }
            | Fill::Default { .. }
            | Fill::Repeated { .. }
            | Fill::Both { .. } => self.all_stored(rows, to, value),
        }
    }

    // ---- declarations

    /// What an object of a type has without a value.
    #[tactic(auto, using(crate::proofs::Rows::parts_grew, crate::proofs::Rows::parts_sound, crate::proofs::Rows::parts_actuals, crate::proofs::Rows::parts_texts, code_rows::proofs::Kept::sound_within))]
    pub(crate) fn default(&self, rows: &mut Rows, of: u32) -> Option<u32>
        requires { AreSound rows.old }
        ensures value { IfSome result (λ v. fill_at rows.new.nodes rows.new.fills v ≡ codes.Default of) }
        ensures there { IfSome result (λ v. v < length rows.new.fills) }
        ensures grew { IfSome result (λ v. RowsGrew rows.old rows.new) }
        ensures sound { IfSome result (λ v. AreSound rows.new) }
    {
        rows.fills.push(Fill::Default { of }, &rows.nodes)
    }

    /// What the value of an object goes to that is declared.
    fn declared_target(&self, p: &Point, x: u32) -> Option<Target>
        ensures offset { IfSome result (λ to. own_offset (around self.now) x ≡ Some to.found.at) }
        ensures next { IfSome result (λ to. going (around self.now) (point_in self.now p.now) 0 ≡ Some (next_of to.next)) }
        ensures of { IfSome result (λ to. to.found.of ≡ type_of (around self.now) x) }
        ensures checks { IfSome result (λ to. to.checks ≡ None) }
        ensures place { IfSome result (λ to. (nodes : List RowNode) → placed nodes to.found ≡ record { place = InFrame to.found.at no_index; of = to.found.of }) }
        ensures there { IfSome result (λ to. (nodes : List RowNode) → IsTrue (is_there nodes to.found)) }
    {
        let at = self.own_offset(x)?;
        let next = self.going(p, 0)?;
        let found = Found {
            base: Base::Frame,
            at,
            index: None,
            of: self.type_of(x),
            taken: 0,
        };
        Some(Target {
            found,
            checks: None,
            next,
        })
    }

    /// The declaration of an object.
    pub(crate) fn declared(&self, rows: &mut Rows, p: &Point, x: u32, list: usize) -> Option<Does>
        requires { AreSound rows.old }
        ensures does { IfSome result (λ d. declared (around self.now) (point_in self.now p.now) x (tree self.now list) ≡ Some (does_of rows.new d)) }
        ensures there { IfSome result (λ d. IsTrue (is_does_there rows.new d)) }
        ensures grew { IfSome result (λ d. RowsGrew rows.old rows.new) }
        ensures sound { IfSome result (λ d. AreSound rows.new) }
    {
        let to = self.declared_target(p, x)?;
        let of = to.found.of;
        match self.site.rows.node(list) {
            TypedNode::More { first, .. } => {
                let value = self.value(rows, 0, *first, of, self.is_looked_at(of))?;
                Some(self.stored(rows, to, value.fill))
            }
            TypedNode::NoMore => {
                let value = self.default(rows, of)?;
                Some(self.stored(rows, to, value))
            }
            _ => None,
        }
    }

    // ---- assignments

    /// The type that is kept of a name.
    fn named_type(&self, n: usize) -> Option<u32> {
        match self.site.rows.node(n) {
            TypedNode::Name { of, .. } => Some(*of),
            _ => None,
        }
    }

    /// Where a name stands in the text.
    pub(crate) fn name_pos(&self, n: usize) -> Option<Pos>
        ensures { IfSome result (λ q. (p : Pos) → name_pos p (tree self.now n) ≡ q) }
    {
        match self.site.rows.node(n) {
            TypedNode::Name { pos, .. } => Some(*pos),
            _ => None,
        }
    }

    /// Where the leak checks of a place of a type stand, if there are some.
    fn checks(&self, of: u32, pos: Pos) -> Option<Pos>
        ensures { result ≡ checks_of (known self.now).table of pos }
    {
        if self.site.typing.is_owning(of) {
            return Some(pos);
        }
        None
    }

    /// An assignment.
    #[tactic(auto, using(code_rows::proofs::Kept::rows_on, crate::proofs::Rows::node_same, crate::proofs::Rows::node_more, crate::proofs::Rows::value_same, crate::proofs::Rows::value_more, crate::proofs::Turns::assign_is))]
    pub(crate) fn assigned(
        &self,
        rows: &mut Rows,
        p: &Point,
        target: usize,
        source: usize,
    ) -> Option<Does>
        requires { AreSound rows.old }
        ensures does { IfSome result (λ d. assigned (around self.now) (point_in self.now p.now) (tree self.now target) (tree self.now source) ≡ Some (does_of rows.new d)) }
        ensures there { IfSome result (λ d. IsTrue (is_does_there rows.new d)) }
        ensures grew { IfSome result (λ d. RowsGrew rows.old rows.new) }
        ensures sound { IfSome result (λ d. AreSound rows.new) }
    {
        let of = self.named_type(target)?;
        let pos = self.name_pos(target)?;
        let next = self.going(p, 0)?;
        let value = self.value(rows, 0, source, of, self.is_looked_at(of))?;
        let found = self.place(rows, value.taken, target)?;
        if found.of != of {
            return None;
        }
        let to = Target {
            found,
            checks: self.checks(of, pos),
            next,
        };
        Some(self.stored(rows, to, value.fill))
    }
}
