//! The numbers of facts that an act touches.
ghost use Rattle.std.specs.Prelude.{◌≡◌, ◌<◌, ◌≤◌, length, slice_index};
ghost use Rattle.std.specs.List.{range_with_len};
ghost use Rattle.state_trees.specs.Concerns as concerned;
ghost use Rattle.state_trees.specs.Concerns.{HasTouched};
ghost use Rattle.state_trees.specs.Indexes.{IsIndexed};

use crate::index::Shared;
use place_names::{Act, Fact};
use std::marker::Model;

/// Numbers of facts in ascending order: those of a list, or all.
#[derive(Drop)]
pub struct Numbers<'t> {
    listed: Option<&'t [u32]>,
    all: usize,
}

impl<'t> Model for Numbers<'t> {
    ghost use Rattle.std.specs.Prelude.{ℕ, ◌≤◌, List, option_map, unwrap_or};
    ghost use Rattle.std.specs.List.{range_with_len};

    ghost Value = { List ℕ };

    ghost view = { λ numbers. unwrap_or (option_map (λ x. x.now) numbers.listed) (range_with_len 0 numbers.all) };

    ghost invariant = { λ numbers. numbers.all ≤ 4294967295 };
}

/// The number at a place of a list.
fn number_at(numbers: &[u32], place: usize) -> u32
    requires { place < length numbers.now }
    ensures { result ≡ slice_index numbers.now place }
{
    numbers[place]
}

impl<'t> Numbers<'t> {
    /// All numbers below a count.
    fn below(count: usize) -> Numbers<'t>
        requires { count ≤ 4294967295 }
        ensures { result ≡ range_with_len 0 count }
    {
        Numbers {
            listed: None,
            all: count,
        }
    }

    /// Those of a list.
    fn listed(numbers: &'t [u32]) -> Numbers<'t>
        ensures { result ≡ numbers.now }
    {
        Numbers {
            listed: Some(numbers),
            all: 0,
        }
    }

    /// How many numbers there are.
    pub fn len(&self) -> usize
        ensures { result ≡ length self.now }
    {
        match self.listed {
            Some(numbers) => numbers.len(),
            None => self.all,
        }
    }

    /// The number at a place.
    pub fn at(&self, place: usize) -> u32
        requires { place < length self.now }
        ensures { result ≡ slice_index self.now place }
    {
        match self.listed {
            Some(numbers) => number_at(numbers, place),
            None => place as u32,
        }
    }
}

/// The object that an act speaks of, if it is one.
fn object_of(act: &Act) -> Option<u32>
    ensures { result ≡ concerned.object_of act.now }
{
    match act {
        Act::Read { name }
        | Act::Look { name }
        | Act::Write { name }
        | Act::Move { name, .. }
        | Act::Borrow { name, .. }
        | Act::Observe { name, .. }
        | Act::Actual { name, .. }
        | Act::Free { name }
        | Act::Give { name, .. } => Some(name.root()),
        Act::Reborrow { borrower, .. } => Some(*borrower),
        Act::EndScope { object, .. } | Act::Global { object, .. } => Some(*object),
        Act::Return { .. } => None,
    }
}

/// The numbers of the facts that an act touches, and where there is no index, of all.
pub(crate) fn touched<'t>(index: &'t Shared, facts: &[Fact], act: &Act) -> Numbers<'t>
    requires indexed { IsIndexed index.now facts.now }
    requires count { length facts.now ≤ 4294967295 }
    ensures { HasTouched act.now facts.now result }
{
    match (index, object_of(act)) {
        (Some(index), Some(object)) => Numbers::listed(index.numbers(object)),
        _ => Numbers::below(facts.len()),
    }
}
