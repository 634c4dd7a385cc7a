//! Values that places of types take, of what is lowered already.
ghost use Rattle.std.specs.Prelude.{◌≡◌, ◌+◌, ◌<◌, IfSome, IsTrue, Some, if◌then◌else◌, length, pos, true};
ghost use Rattle.type_definitions.specs.Types.{shape_of};
ghost use Rattle.machine.specs.Typed.{is_pointer, sorts};
ghost use Rattle.run_codes.specs.Flat.{kind_of};
ghost use Rattle.run_codes.specs.Codes.{Number};
ghost use Rattle.run_codes.specs.Codes as codes;
ghost use Rattle.run_codes.specs.Lowered.{is_access, is_taken, load, scalar, place_value, sort_of, waited_value};
ghost use Rattle.code_rows.specs.Rows.{code_at, place_of, is_place_below};
ghost use Rattle.code_rows.specs.Values.{is_fill_below, is_within, fill_of, fill_at, are_within, AllGrew};
ghost use Rattle.run_lowering.specs.Sites.{site, use_of};
ghost use Rattle.run_lowering.specs.Found.{placed, is_there, lowered_in};
ghost use Rattle.run_lowering.specs.Sorts.{sort_in};

use crate::found::{Base, Filled, Found, Typed};
use crate::site::Site;
use crate::sorts::{Sort, is_pointer, kind_of, one_type, same_scalar, scalar_of, sort_of};
use crate::steps::{designated_type, load};
use code_rows::{Fill, Fills, Node, Nodes, Place};
use run_values::Kind;

/// A value that is made of nodes and values that are there.
pub fn put(nodes: &Nodes, fills: &mut Fills, fill: Fill, taken: usize) -> Option<Filled>
    requires all { IsTrue (are_within nodes.now fills.old) }
    requires below { IsTrue (is_fill_below (length fills.old) fill) }
    requires within { IsTrue (is_within (length nodes.now) fill) }
    ensures value { IfSome result (λ v. fill_at nodes.now fills.new v.fill ≡ fill_of (code_at nodes.now) (fill_at nodes.now fills.old) fill) }
    ensures there { IfSome result (λ v. v.fill < length fills.new) }
    ensures taken { IfSome result (λ v. v.taken ≡ taken) }
    ensures grew { AllGrew nodes.now fills.old nodes.now fills.new }
    ensures all { IsTrue (are_within nodes.now fills.new) }
{
    let fill = fills.push(fill, nodes)?;
    Some(Filled { fill, taken })
}

/// A place, as it is run.
pub fn place_of(nodes: &Nodes, found: Found) -> Place
    requires { IsTrue (is_there nodes.now found) }
    ensures place { place_of (code_at nodes.now) result ≡ (placed nodes.now found).place }
    ensures below { IsTrue (is_place_below (length nodes.now) result) }
{
    let at = found.at;
    match (found.base, found.index) {
        (Base::Frame, None) => Place::Local { at },
        (Base::Frame, Some(index)) => Place::LocalAt { at, index },
        (Base::Packages, None) => Place::Global { at },
        (Base::Packages, Some(index)) => Place::GlobalAt { at, index },
        (Base::Cell { pointer }, None) => Place::Behind { pointer, at },
        (Base::Cell { pointer }, Some(index)) => Place::BehindAt { pointer, at, index },
    }
}

impl<'p> Site<'p> {
    /// A scalar value within the bounds of a type.
    pub fn scalar(&self, nodes: &Nodes, fills: &mut Fills, word: Typed, want: u32) -> Option<Filled>
        requires all { IsTrue (are_within nodes.now fills.old) }
        requires there { word.node < length nodes.now }
        ensures value { IfSome result (λ v. scalar self.now.typing.table.now want (lowered_in nodes.now word) ≡ Some (fill_at nodes.now fills.new v.fill)) }
        ensures there { IfSome result (λ v. v.fill < length fills.new) }
        ensures taken { IfSome result (λ v. v.taken ≡ word.taken) }
        ensures grew { AllGrew nodes.now fills.old nodes.now fills.new }
        ensures all { IsTrue (are_within nodes.now fills.new) }
    {
        let bounds = scalar_of(self.typing.table, want)?;
        if !same_scalar(bounds.sort, word.sort) {
            return None;
        }
        let fill = Fill::Checked {
            value: word.node,
            low: bounds.low,
            high: bounds.high,
        };
        put(nodes, fills, fill, word.taken)
    }

    /// An access value that is looked at.
    fn looked_at(
        &self,
        nodes: &Nodes,
        fills: &mut Fills,
        value: u32,
        taken: usize,
    ) -> Option<Filled>
        requires all { IsTrue (are_within nodes.now fills.old) }
        requires there { value < length nodes.now }
        ensures value { IfSome result (λ v. fill_at nodes.now fills.new v.fill ≡ codes.Pointer (code_at nodes.now value)) }
        ensures there { IfSome result (λ v. v.fill < length fills.new) }
        ensures taken { IfSome result (λ v. v.taken ≡ taken) }
        ensures grew { AllGrew nodes.now fills.old nodes.now fills.new }
        ensures all { IsTrue (are_within nodes.now fills.new) }
    {
        put(nodes, fills, Fill::Pointer { value }, taken)
    }

    /// `null`, where an access value is wanted.
    #[tactic(auto, using(code_rows::proofs::Filled::within_grew, crate::proofs::Placing::added))]
    pub(crate) fn null_value(
        &self,
        nodes: &mut Nodes,
        fills: &mut Fills,
        k: usize,
        want: u32,
    ) -> Option<Filled>
        requires { IsTrue (are_within nodes.old fills.old) }
        ensures pointer { IfSome result (λ v. is_pointer (sorts self.now.typing.table.now want) ≡ true) }
        ensures value { IfSome result (λ v. fill_at nodes.new fills.new v.fill ≡ codes.Pointer (Number (pos 0))) }
        ensures there { IfSome result (λ v. v.fill < length fills.new) }
        ensures taken { IfSome result (λ v. v.taken ≡ k) }
        ensures grew { AllGrew nodes.old fills.old nodes.new fills.new }
        ensures all { IsTrue (are_within nodes.new fills.new) }
    {
        if !is_pointer(self.typing.table, want) {
            return None;
        }
        let value = nodes.push(Node::Number { value: 0 })?;
        self.looked_at(nodes, fills, value, k)
    }

    /// Whether what is at a place of a type is taken away.
    fn is_taken(&self, looked_at: bool, of: u32) -> bool
        ensures { result ≡ is_taken self.now.typing.table.now (use_of looked_at) of }
    {
        !looked_at && self.typing.is_owning(of)
    }

    /// A scalar at a place, within the bounds of a type.
    #[tactic(auto, using(code_rows::proofs::Filled::within_grew, crate::proofs::Placing::added))]
    fn scalar_there(
        &self,
        nodes: &mut Nodes,
        fills: &mut Fills,
        found: Found,
        sort: Sort,
        want: u32,
    ) -> Option<Filled>
        requires there { IsTrue (is_there nodes.old found) }
        requires all { IsTrue (are_within nodes.old fills.old) }
        ensures value { IfSome result (λ v. scalar self.now.typing.table.now want (record { code = load (kind_of (sort_in sort)) (placed nodes.old found).place; sort = sort_in sort }) ≡ Some (fill_at nodes.new fills.new v.fill)) }
        ensures there { IfSome result (λ v. v.fill < length fills.new) }
        ensures taken { IfSome result (λ v. v.taken ≡ found.taken) }
        ensures grew { AllGrew nodes.old fills.old nodes.new fills.new }
        ensures all { IsTrue (are_within nodes.new fills.new) }
    {
        let node = load(nodes, found, kind_of(sort))?;
        let word = Typed {
            node,
            sort,
            taken: found.taken,
        };
        self.scalar(nodes, fills, word, want)
    }

    /// An access value at a place that is looked at.
    #[tactic(auto, using(code_rows::proofs::Filled::within_grew, crate::proofs::Placing::added))]
    fn pointer_there(&self, nodes: &mut Nodes, fills: &mut Fills, found: Found) -> Option<Filled>
        requires there { IsTrue (is_there nodes.old found) }
        requires all { IsTrue (are_within nodes.old fills.old) }
        ensures value { IfSome result (λ v. fill_at nodes.new fills.new v.fill ≡ codes.Pointer (load Kind.Access (placed nodes.old found).place)) }
        ensures there { IfSome result (λ v. v.fill < length fills.new) }
        ensures taken { IfSome result (λ v. v.taken ≡ found.taken) }
        ensures grew { AllGrew nodes.old fills.old nodes.new fills.new }
        ensures all { IsTrue (are_within nodes.new fills.new) }
    {
        let value = load(nodes, found, Kind::Access)?;
        self.looked_at(nodes, fills, value, found.taken)
    }

    /// An access value that is moved out of a place of an access type.
    fn moved_pointer(&self, nodes: &Nodes, fills: &mut Fills, found: Found) -> Option<Filled>
        requires there { IsTrue (is_there nodes.now found) }
        requires all { IsTrue (are_within nodes.now fills.old) }
        ensures access { IfSome result (λ v. is_access (shape_of self.now.typing.table.now found.of) ≡ true) }
        ensures value { IfSome result (λ v. fill_at nodes.now fills.new v.fill ≡ codes.MovedPointer (placed nodes.now found).place) }
        ensures there { IfSome result (λ v. v.fill < length fills.new) }
        ensures taken { IfSome result (λ v. v.taken ≡ found.taken) }
        ensures grew { AllGrew nodes.now fills.old nodes.now fills.new }
        ensures all { IsTrue (are_within nodes.now fills.new) }
    {
        let _designated = designated_type(self.typing.table, found.of)?;
        let place = place_of(nodes, found);
        put(nodes, fills, Fill::MovedPointer { place }, found.taken)
    }

    /// All words at a place: as they stand, or moved.
    fn several(&self, nodes: &Nodes, fills: &mut Fills, found: Found, moved: bool) -> Option<Filled>
        requires there { IsTrue (is_there nodes.now found) }
        requires all { IsTrue (are_within nodes.now fills.old) }
        ensures value { IfSome result (λ v. fill_at nodes.now fills.new v.fill
            ≡ (if moved then codes.Moved (placed nodes.now found).place found.of else codes.Copied (placed nodes.now found).place found.of)) }
        ensures there { IfSome result (λ v. v.fill < length fills.new) }
        ensures taken { IfSome result (λ v. v.taken ≡ found.taken) }
        ensures grew { AllGrew nodes.now fills.old nodes.now fills.new }
        ensures all { IsTrue (are_within nodes.now fills.new) }
    {
        let place = place_of(nodes, found);
        let of = found.of;
        let fill = if moved {
            Fill::Moved { place, of }
        } else {
            Fill::Copied { place, of }
        };
        put(nodes, fills, fill, found.taken)
    }

    /// What a place has, as a value that a place of a type takes.
    #[tactic(auto, using(crate::proofs::Placing::value_scalar, crate::proofs::Placing::value_pointer, crate::proofs::Placing::value_moved, crate::proofs::Placing::value_several))]
    pub fn place_value(
        &self,
        nodes: &mut Nodes,
        fills: &mut Fills,
        found: Found,
        want: u32,
        looked_at: bool,
    ) -> Option<Filled>
        requires there { IsTrue (is_there nodes.old found) }
        requires all { IsTrue (are_within nodes.old fills.old) }
        ensures value { IfSome result (λ v. place_value self.now.typing.table.now (use_of looked_at) want (placed nodes.old found) ≡ Some (fill_at nodes.new fills.new v.fill)) }
        ensures there { IfSome result (λ v. v.fill < length fills.new) }
        ensures taken { IfSome result (λ v. v.taken ≡ found.taken) }
        ensures grew { AllGrew nodes.old fills.old nodes.new fills.new }
        ensures all { IsTrue (are_within nodes.new fills.new) }
    {
        if !one_type(self.typing.table, found.of, want) {
            return None;
        }
        let taken = self.is_taken(looked_at, found.of);
        match sort_of(self.typing.table, want) {
            Some(Sort::Pointer { .. }) => {
                if taken {
                    self.moved_pointer(nodes, fills, found)
                } else {
                    self.pointer_there(nodes, fills, found)
                }
            }
            Some(sort) => {
                if taken {
                    None
                } else {
                    self.scalar_there(nodes, fills, found, sort, want)
                }
            }
            None => self.several(nodes, fills, found, taken),
        }
    }

    /// The value of a type that waits.
    #[tactic(auto, using(code_rows::proofs::Filled::within_grew, crate::proofs::Placing::added, crate::proofs::Placing::waited_scalar, crate::proofs::Placing::waited_pointer, crate::proofs::Placing::waited_several))]
    pub(crate) fn waited_value(
        &self,
        nodes: &mut Nodes,
        fills: &mut Fills,
        k: usize,
        want: u32,
        t: u32,
    ) -> Option<Filled>
        requires { IsTrue (are_within nodes.old fills.old) }
        ensures value { IfSome result (λ v. waited_value (site self.now) k want t ≡ Some (fill_at nodes.new fills.new v.fill)) }
        ensures there { IfSome result (λ v. v.fill < length fills.new) }
        ensures taken { IfSome result (λ v. v.taken ≡ k + 1) }
        ensures grew { AllGrew nodes.old fills.old nodes.new fills.new }
        ensures all { IsTrue (are_within nodes.new fills.new) }
    {
        if !self.is_nth(k, t) || !one_type(self.typing.table, t, want) {
            return None;
        }
        let at = self.start(k)?;
        match sort_of(self.typing.table, want) {
            Some(Sort::Pointer { .. }) => {
                let value = nodes.push(Node::Waiting { at })?;
                self.looked_at(nodes, fills, value, k + 1)
            }
            Some(sort) => {
                let node = nodes.push(Node::Waiting { at })?;
                let word = Typed {
                    node,
                    sort,
                    taken: k + 1,
                };
                self.scalar(nodes, fills, word, want)
            }
            None => {
                let words = self.typing.words(t);
                put(nodes, fills, Fill::Waited { at, words }, k + 1)
            }
        }
    }
}
