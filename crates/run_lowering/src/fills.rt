//! Values of any type, that places of types take.
ghost use Rattle.std.specs.Prelude.{◌≡◌, ◌+◌, ◌<◌, [], IfSome, IsTrue, Some, length, option_and_then};
ghost use Rattle.typed_tree.specs.Trees.{Aggregate, Alike, New};
ghost use Rattle.flow_paths.specs.Names.{waiting};
ghost use Rattle.machine.specs.Evaluate.{AsValue};
ghost use Rattle.run_codes.specs.Codes.{Empty};
ghost use Rattle.run_codes.specs.Lowered.{first_value, lowered, parts, place, place_value, scalar, value};
ghost use Rattle.machine.specs.Typed.{tree_count};
ghost use Rattle.code_rows.specs.Values.{fill_at, are_within, AllGrew};
ghost use Rattle.run_lowering.specs.Aggregates.{AllBelow, prepended};
ghost use Rattle.run_lowering.specs.Sites.{site, tree, use_of};

use crate::found::Filled;
use crate::site::Site;
use crate::sorts::{is_aggregate_of, points_to};
use crate::types::{elements, part_count, part_type};
use crate::values::put;
use code_rows::{Fill, Fills, Nodes};
use typed_tree::TypedNode;

/// Values one after the other.
fn in_order(nodes: &Nodes, fills: &mut Fills, values: &mut Vec<u32>, taken: usize) -> Option<Filled>
    requires all { IsTrue (are_within nodes.now fills.old) }
    requires there { AllBelow (length fills.old) values.old.items }
    ensures value { IfSome result (λ v. prepended (fill_at nodes.now fills.old) values.old.items (Some Empty) ≡ Some (fill_at nodes.now fills.new v.fill)) }
    ensures there { IfSome result (λ v. v.fill < length fills.new) }
    ensures taken { IfSome result (λ v. v.taken ≡ taken) }
    ensures grew { AllGrew nodes.now fills.old nodes.now fills.new }
    ensures all { IsTrue (are_within nodes.now fills.new) }
{
    let mut fill = fills.push(Fill::Nothing, nodes)?;
    'values: while let Some(first) = values.pop() {
        fill = fills.push(
            Fill::Both {
                first,
                second: fill,
            },
            nodes,
        )?;
    }
    Some(Filled { fill, taken })
}

impl<'p> Site<'p> {
    /// A value that a place of a type takes, where so many values are taken before. What is of an
    /// owning type is taken out of its place, unless it is looked at alone.
    #[cycle(value)]
    #[tactic(auto, unfolding(run_codes::specs::Lowered::value, flow_paths::specs::Names::waiting))]
    pub fn value(
        &self,
        nodes: &mut Nodes,
        fills: &mut Fills,
        k: usize,
        n: usize,
        want: u32,
        looked_at: bool,
    ) -> Option<Filled>
        requires { IsTrue (are_within nodes.old fills.old) }
        ensures value { IfSome result (λ v. value (site self.now) k (use_of looked_at) want (tree self.now n) ≡ Some (fill_at nodes.new fills.new v.fill)) }
        ensures there { IfSome result (λ v. v.fill < length fills.new) }
        ensures taken { IfSome result (λ v. v.taken ≡ k + waiting (tree self.now n)) }
        ensures grew { AllGrew nodes.old fills.old nodes.new fills.new }
        ensures all { IsTrue (are_within nodes.new fills.new) }
    {
        match self.rows.node(n) {
            TypedNode::Null => self.null_value(nodes, fills, k, want),
            TypedNode::Name { .. } => self.name_value(nodes, fills, k, n, want, looked_at),
            TypedNode::Call { sub, .. } => {
                let of = self.typing.result(*sub)?;
                self.waited_value(nodes, fills, k, want, of)
            }
            TypedNode::Parens { inner } => self.value(nodes, fills, k, *inner, want, false),
            TypedNode::Aggregate { of, parts } => {
                self.aggregate(nodes, fills, k, *of, *parts, want)
            }
            TypedNode::Alike { of, value } => self.alike(nodes, fills, k, *of, *value, want),
            TypedNode::New { of, value } => self.made(nodes, fills, k, *of, *value, want),
            TypedNode::Number { .. }
            | TypedNode::Literal { .. }
            | TypedNode::EndOfFile
            | TypedNode::Unary { .. }
            | TypedNode::Binary { .. }
            | TypedNode::Short { .. }
            | TypedNode::IsNull { .. } => { self.scalar_value(nodes, fills, k, n, want, looked_at) }
            _ => None,
        }
    }

    /// A scalar value within the bounds of a type.
    #[tactic(auto, using(code_rows::proofs::Filled::within_grew, crate::proofs::Placing::added))]
    fn scalar_value(
        &self,
        nodes: &mut Nodes,
        fills: &mut Fills,
        k: usize,
        n: usize,
        want: u32,
        looked_at: bool,
    ) -> Option<Filled>
        requires { IsTrue (are_within nodes.old fills.old) }
        ensures value { IfSome result (λ v. option_and_then (scalar self.now.typing.table.now want) (lowered (site self.now) k (use_of looked_at) (tree self.now n)) ≡ Some (fill_at nodes.new fills.new v.fill)) }
        ensures there { IfSome result (λ v. v.fill < length fills.new) }
        ensures taken { IfSome result (λ v. v.taken ≡ k + waiting (tree self.now n)) }
        ensures grew { AllGrew nodes.old fills.old nodes.new fills.new }
        ensures all { IsTrue (are_within nodes.new fills.new) }
    {
        let word = self.word(nodes, k, n, looked_at)?;
        self.scalar(nodes, fills, word, want)
    }

    /// What a name names, as a value that a place of a type takes.
    #[tactic(auto, using(code_rows::proofs::Filled::within_grew, crate::proofs::Placing::added_before))]
    fn name_value(
        &self,
        nodes: &mut Nodes,
        fills: &mut Fills,
        k: usize,
        n: usize,
        want: u32,
        looked_at: bool,
    ) -> Option<Filled>
        requires { IsTrue (are_within nodes.old fills.old) }
        ensures value { IfSome result (λ v. option_and_then (place_value self.now.typing.table.now (use_of looked_at) want) (place (site self.now) k (tree self.now n)) ≡ Some (fill_at nodes.new fills.new v.fill)) }
        ensures there { IfSome result (λ v. v.fill < length fills.new) }
        ensures taken { IfSome result (λ v. v.taken ≡ k + waiting (tree self.now n)) }
        ensures grew { AllGrew nodes.old fills.old nodes.new fills.new }
        ensures all { IsTrue (are_within nodes.new fills.new) }
    {
        let found = self.place(nodes, k, n)?;
        self.place_value(nodes, fills, found, want, looked_at)
    }

    /// The values of the components or elements of a type, in order: how many values are taken
    /// before what follows.
    #[cycle(value)]
    #[tactic(auto, using(code_rows::proofs::Filled::fills_none, code_rows::proofs::Filled::fills_on, crate::proofs::Aggregates::gathers_first, crate::proofs::Aggregates::gathers_last), unfolding(flow_paths::specs::Names::waiting))]
    fn part_values(
        &self,
        nodes: &mut Nodes,
        fills: &mut Fills,
        k: usize,
        of: u32,
        list: usize,
        values: &mut Vec<u32>,
    ) -> Option<usize>
        requires all { IsTrue (are_within nodes.old fills.old) }
        requires empty { values.old.items ≡ [] }
        ensures parts { IfSome result (λ j. parts (site self.now) k of 0 (tree self.now list) ≡ prepended (fill_at nodes.new fills.new) values.new.items (Some Empty)) }
        ensures there { IfSome result (λ j. AllBelow (length fills.new) values.new.items) }
        ensures count { IfSome result (λ j. tree_count (tree self.now list) ≡ length values.new.items) }
        ensures taken { IfSome result (λ j. j ≡ k + waiting (tree self.now list)) }
        ensures grew { AllGrew nodes.old fills.old nodes.new fills.new }
        ensures all { IsTrue (are_within nodes.new fills.new) }
    {
        let mut at = list;
        let mut taken = k;
        'parts: loop {
            match self.rows.node(at) {
                TypedNode::More { first, rest } => {
                    let part = part_type(self.typing.table, of, values.len());
                    let value = self.value(nodes, fills, taken, *first, part, false)?;
                    values.push(value.fill).ok()?;
                    taken = value.taken;
                    at = *rest;
                }
                TypedNode::NoMore => return Some(taken),
                _ => return None,
            }
        }
    }

    /// An aggregate of a type: the values of its components or elements, in order.
    #[cycle(value)]
    #[tactic(auto, using(code_rows::proofs::Filled::fills_on, crate::proofs::Aggregates::aggregate_is))]
    fn aggregate(
        &self,
        nodes: &mut Nodes,
        fills: &mut Fills,
        k: usize,
        of: u32,
        list: usize,
        want: u32,
    ) -> Option<Filled>
        requires { IsTrue (are_within nodes.old fills.old) }
        ensures value { IfSome result (λ v. value (site self.now) k AsValue want (Aggregate of (tree self.now list)) ≡ Some (fill_at nodes.new fills.new v.fill)) }
        ensures there { IfSome result (λ v. v.fill < length fills.new) }
        ensures taken { IfSome result (λ v. v.taken ≡ k + waiting (tree self.now list)) }
        ensures grew { AllGrew nodes.old fills.old nodes.new fills.new }
        ensures all { IsTrue (are_within nodes.new fills.new) }
    {
        if !is_aggregate_of(self.typing.table, want, of) {
            return None;
        }
        let mut values = Vec::new(self.alloc);
        let taken = self.part_values(nodes, fills, k, of, list, &mut values)?;
        if values.len() as u64 != part_count(self.typing.table, of) {
            return None;
        }
        in_order(nodes, fills, &mut values, taken)
    }

    /// An array of a type, whose elements all have one value.
    #[cycle(value)]
    #[tactic(auto, using(code_rows::proofs::Filled::fills_on), unfolding(run_codes::specs::Lowered::value))]
    fn alike(
        &self,
        nodes: &mut Nodes,
        fills: &mut Fills,
        k: usize,
        of: u32,
        n: usize,
        want: u32,
    ) -> Option<Filled>
        requires { IsTrue (are_within nodes.old fills.old) }
        ensures value { IfSome result (λ v. value (site self.now) k AsValue want (Alike of (tree self.now n)) ≡ Some (fill_at nodes.new fills.new v.fill)) }
        ensures there { IfSome result (λ v. v.fill < length fills.new) }
        ensures taken { IfSome result (λ v. v.taken ≡ k + waiting (tree self.now n)) }
        ensures grew { AllGrew nodes.old fills.old nodes.new fills.new }
        ensures all { IsTrue (are_within nodes.new fills.new) }
    {
        if !is_aggregate_of(self.typing.table, want, of) {
            return None;
        }
        let elements = elements(self.typing.table, of)?;
        let value = self.value(nodes, fills, k, n, elements.of, false)?;
        let fill = Fill::Repeated {
            value: value.fill,
            count: elements.count,
        };
        put(nodes, fills, fill, value.taken)
    }

    /// An allocator of a type, with a list of no value or one.
    #[cycle(value)]
    #[tactic(auto, using(code_rows::proofs::Filled::fills_on), unfolding(run_codes::specs::Lowered::value))]
    fn made(
        &self,
        nodes: &mut Nodes,
        fills: &mut Fills,
        k: usize,
        of: u32,
        list: usize,
        want: u32,
    ) -> Option<Filled>
        requires { IsTrue (are_within nodes.old fills.old) }
        ensures value { IfSome result (λ v. value (site self.now) k AsValue want (New of (tree self.now list)) ≡ Some (fill_at nodes.new fills.new v.fill)) }
        ensures there { IfSome result (λ v. v.fill < length fills.new) }
        ensures taken { IfSome result (λ v. v.taken ≡ k + waiting (tree self.now list)) }
        ensures grew { AllGrew nodes.old fills.old nodes.new fills.new }
        ensures all { IsTrue (are_within nodes.new fills.new) }
    {
        if !points_to(self.typing.table, of, want) {
            return None;
        }
        let value = self.first_value(nodes, fills, k, of, list)?;
        let fill = Fill::New {
            value: value.fill,
            of,
        };
        put(nodes, fills, fill, value.taken)
    }

    /// The value of a list of one, or what an object of a type has without a value.
    #[cycle(value)]
    #[tactic(auto, unfolding(run_codes::specs::Lowered::first_value, flow_paths::specs::Names::waiting))]
    fn first_value(
        &self,
        nodes: &mut Nodes,
        fills: &mut Fills,
        k: usize,
        of: u32,
        list: usize,
    ) -> Option<Filled>
        requires { IsTrue (are_within nodes.old fills.old) }
        ensures value { IfSome result (λ v. first_value (site self.now) k of (tree self.now list) ≡ Some (fill_at nodes.new fills.new v.fill)) }
        ensures there { IfSome result (λ v. v.fill < length fills.new) }
        ensures taken { IfSome result (λ v. v.taken ≡ k + waiting (tree self.now list)) }
        ensures grew { AllGrew nodes.old fills.old nodes.new fills.new }
        ensures all { IsTrue (are_within nodes.new fills.new) }
    {
        match self.rows.node(list) {
            TypedNode::NoMore => put(nodes, fills, Fill::Default { of }, k),
            TypedNode::More { first, rest } => match self.rows.node(*rest) {
                TypedNode::NoMore => self.value(nodes, fills, k, *first, of, false),
                _ => None,
            },
            _ => None,
        }
    }
}
