//! Steps of names, and the words at places.
ghost use Rattle.std.specs.Prelude.{◌≡◌, ◌+◌, ◌<◌, List, IfSome, IsTrue, Some, true, length};
ghost use Rattle.type_definitions.specs.Types.{shape_of, words};
ghost use Rattle.machine.specs.Typed.{designates, has_bounds};
ghost use Rattle.machine.specs.Words.{element_type};
ghost use Rattle.run_codes.specs.Codes.{Scaled, Via};
ghost use Rattle.run_codes.specs.Lowered.{no_index, component_of, designated_of, joined, load, named, object_place, waited};
ghost use Rattle.code_rows.specs.declared.node.Node.{Node};
ghost use Rattle.code_rows.specs.Rows.{is_below, code_of, code_at, Grew, Holds};
ghost use Rattle.run_lowering.specs.Sites.{site, use_of};
ghost use Rattle.run_lowering.specs.Steps.{indexed};
ghost use Rattle.run_lowering.specs.Found.{placed, is_there, is_offset, index_of, index_there, lowered_in};

use crate::found::{Base, Found, Typed};
use crate::operators::whole;
use crate::site::Site;
use crate::sorts::{kind_of, sort_of};
use crate::types::component;
use code_rows::{Node, Nodes};
use run_values::Kind;
use type_definitions::View;
use type_table::TypeTable;

/// What an access type designates.
#[tactic(auto, using(crate::proofs::Shapes::designates_viewed))]
pub fn designated_type(table: &TypeTable, t: u32) -> Option<u32>
    ensures { result ≡ designates (shape_of table.now t) }
{
    match table.view(t) {
        View::Access { designated, .. } => Some(designated),
        _ => None,
    }
}

/// The type of the elements of an array that has these bounds.
#[tactic(auto, using(crate::proofs::Shapes::bounds_viewed, crate::proofs::Shapes::element_viewed))]
fn element_type(table: &TypeTable, t: u32, low: i32, high: i32) -> Option<u32>
    ensures bounds { IfSome result (λ e. has_bounds low high (shape_of table.now t) ≡ true) }
    ensures element { IfSome result (λ e. element_type table.now t ≡ e) }
{
    match table.view(t) {
        View::Elements {
            low: first,
            high: last,
            element,
        } => {
            if low == first && high == last {
                Some(element)
            } else {
                None
            }
        }
        _ => None,
    }
}

/// The node of the word behind an access value, which often stands in the frame.
fn via(nodes: &Nodes, pointer: u32, at: u32, kind: Kind) -> Node
    requires { pointer < length nodes.now }
    ensures code { code_of (code_at nodes.now) result ≡ Via (code_at nodes.now pointer) at no_index kind }
    ensures below { IsTrue (is_below (length nodes.now) result) }
{
    match nodes.node(pointer) {
        Node::Local { at: local } => Node::ViaLocal { local, at, kind },
        _ => Node::Via { pointer, at, kind },
    }
}

/// The node of the word of a kind at a place.
fn loading(nodes: &Nodes, found: Found, kind: Kind) -> Node
    requires { IsTrue (is_there nodes.now found) }
    ensures code { code_of (code_at nodes.now) result ≡ load kind (placed nodes.now found).place }
    ensures below { IsTrue (is_below (length nodes.now) result) }
{
    let at = found.at;
    match (found.base, found.index) {
        (Base::Frame, None) => Node::Local { at },
        (Base::Frame, Some(index)) => Node::LocalAt { at, index },
        (Base::Packages, None) => Node::Global { at },
        (Base::Packages, Some(index)) => Node::GlobalAt { at, index },
        (Base::Cell { pointer }, None) => via(nodes, pointer, at, kind),
        (Base::Cell { pointer }, Some(index)) => Node::ViaAt {
            pointer,
            at,
            index,
            kind,
        },
    }
}

/// The word of a kind at a place.
pub(crate) fn load(nodes: &mut Nodes, found: Found, kind: Kind) -> Option<u32>
    requires { IsTrue (is_there nodes.old found) }
    ensures code { IfSome result (λ n. Holds nodes.new n (load kind (placed nodes.old found).place)) }
    ensures grew { Grew nodes.old nodes.new }
{
    let node = loading(nodes, found, kind);
    nodes.push(node)
}

/// The sum of an offset that may be there, and another one.
fn joined(nodes: &mut Nodes, index: Option<u32>, scaled: u32) -> Option<u32>
    requires index { IsTrue (index_there nodes.old index) }
    requires scaled { scaled < length nodes.old }
    requires offset { IsTrue (is_offset (code_at nodes.old scaled)) }
    ensures code { IfSome result (λ n. Holds nodes.new n (joined (index_of nodes.old index) (code_at nodes.old scaled))) }
    ensures offset { IfSome result (λ n. IsTrue (is_offset (code_at nodes.new n))) }
    ensures grew { Grew nodes.old nodes.new }
{
    match index {
        None => Some(scaled),
        Some(left) => nodes.push(Node::Plus {
            left,
            right: scaled,
        }),
    }
}

impl<'p> Site<'p> {
    /// The whole of an object.
    pub(crate) fn object(&self, x: u32, taken: usize) -> Option<Found>
        ensures place { IfSome result (λ f. (nodes : List Node) → object_place (site self.now) x ≡ Some (placed nodes f)) }
        ensures there { IfSome result (λ f. (nodes : List Node) → IsTrue (is_there nodes f)) }
        ensures taken { IfSome result (λ f. f.taken ≡ taken) }
    {
        let of = self.typing.object_type(x);
        if self.typing.is_package_object(x) {
            let at = self.package_offset(x)?;
            return Some(Found {
                base: Base::Packages,
                at,
                index: None,
                of,
                taken,
            });
        }
        let at = self.own_offset(x)?;
        Some(Found {
            base: Base::Frame,
            at,
            index: None,
            of,
            taken,
        })
    }

    /// A component of a record.
    pub(crate) fn component(&self, found: Found, i: u32) -> Option<Found>
        ensures place { IfSome result (λ f. (nodes : List Node) → component_of self.now.typing.table.now i (placed nodes found) ≡ Some (placed nodes f)) }
        ensures there { IfSome result (λ f. (nodes : List Node) → is_there nodes f ≡ is_there nodes found) }
        ensures taken { IfSome result (λ f. f.taken ≡ found.taken) }
    {
        let part = component(self.typing.table, found.of, i)?;
        Some(Found {
            base: found.base,
            at: found.at.checked_add(part.before)?,
            index: found.index,
            of: part.of,
            taken: found.taken,
        })
    }

    /// An element of an array with these bounds, whose index is of Integer.
    #[tactic(auto, unfolding(crate::specs::Steps::indexed))]
    pub(crate) fn element(
        &self,
        nodes: &mut Nodes,
        found: Found,
        index: Typed,
        low: i32,
        high: i32,
    ) -> Option<Found>
        requires there { IsTrue (is_there nodes.old found) }
        requires index { index.node < length nodes.old }
        ensures place { IfSome result (λ f. indexed self.now.typing.table.now (placed nodes.old found) low high (Some (lowered_in nodes.old index)) ≡ Some (placed nodes.new f)) }
        ensures there { IfSome result (λ f. IsTrue (is_there nodes.new f)) }
        ensures taken { IfSome result (λ f. f.taken ≡ index.taken) }
        ensures grew { Grew nodes.old nodes.new }
    {
        let taken = index.taken;
        let index = whole(index)?;
        let of = element_type(self.typing.table, found.of, low, high)?;
        let index = self.scaled(nodes, index, low, high, of)?;
        let index = joined(nodes, found.index, index)?;
        Some(Found {
            base: found.base,
            at: found.at,
            index: Some(index),
            of,
            taken,
        })
    }

    /// The offset of an element of a type, whose index is a node.
    fn scaled(&self, nodes: &mut Nodes, index: u32, low: i32, high: i32, of: u32) -> Option<u32>
        requires { index < length nodes.old }
        ensures code { IfSome result (λ n. Holds nodes.new n (Scaled (code_at nodes.old index) low high (words self.now.typing.table.now of))) }
        ensures grew { Grew nodes.old nodes.new }
    {
        let size = self.typing.words(of);
        nodes.push(Node::Scaled {
            index,
            low,
            high,
            size,
        })
    }

    /// What an access value designates.
    pub(crate) fn designated(&self, nodes: &mut Nodes, found: Found) -> Option<Found>
        requires { IsTrue (is_there nodes.old found) }
        ensures place { IfSome result (λ f. designated_of self.now.typing.table.now (placed nodes.old found) ≡ Some (placed nodes.new f)) }
        ensures there { IfSome result (λ f. IsTrue (is_there nodes.new f)) }
        ensures taken { IfSome result (λ f. f.taken ≡ found.taken) }
        ensures grew { Grew nodes.old nodes.new }
    {
        let of = designated_type(self.typing.table, found.of)?;
        let pointer = load(nodes, found, Kind::Access)?;
        Some(Found {
            base: Base::Cell { pointer },
            at: 0,
            index: None,
            of,
            taken: found.taken,
        })
    }

    /// The word at a place. What is of an owning type is looked at alone.
    pub(crate) fn named(&self, nodes: &mut Nodes, found: Found, looked_at: bool) -> Option<Typed>
        requires { IsTrue (is_there nodes.old found) }
        ensures word { IfSome result (λ t. named self.now.typing.table.now (use_of looked_at) (placed nodes.old found) ≡ Some (lowered_in nodes.new t)) }
        ensures there { IfSome result (λ t. t.node < length nodes.new) }
        ensures taken { IfSome result (λ t. t.taken ≡ found.taken) }
        ensures grew { Grew nodes.old nodes.new }
    {
        if !looked_at && self.typing.is_owning(found.of) {
            return None;
        }
        let sort = sort_of(self.typing.table, found.of)?;
        let node = load(nodes, found, kind_of(sort))?;
        Some(Typed {
            node,
            sort,
            taken: found.taken,
        })
    }

    /// The word of a value of a type that waits.
    pub(crate) fn waited(&self, nodes: &mut Nodes, k: usize, t: u32) -> Option<Typed>
        ensures word { IfSome result (λ w. waited (site self.now) k t ≡ Some (lowered_in nodes.new w)) }
        ensures there { IfSome result (λ w. w.node < length nodes.new) }
        ensures taken { IfSome result (λ w. w.taken ≡ k + 1) }
        ensures grew { Grew nodes.old nodes.new }
    {
        if !self.is_nth(k, t) {
            return None;
        }
        let sort = sort_of(self.typing.table, t)?;
        let at = self.start(k)?;
        let node = nodes.push(Node::Waiting { at })?;
        Some(Typed {
            node,
            sort,
            taken: k + 1,
        })
    }
}
