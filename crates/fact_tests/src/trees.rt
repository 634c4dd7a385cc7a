//! What trees tell where two paths meet, and what both crates of rules find there.
ghost use Rattle.std.specs.Prelude.{◌≡◌, IfOk};

use borrow_observe::test_loans;
use move_rules::{Found, test_moves};
use place_names::{Act, Fact, Loan, Parts, PlaceName, PlaceTail, Rule, Sel, State, TooDeep};
use state_trees::Tree;
use std::alloc::{AllocError, Global};
use std::test::Fail;

/// The first of the objects that no act names.
const OTHER: u32 = 100;

/// Up to which object such ones have facts: none, or so many that trees keep an index of their
/// facts.
const ENDS: [u32; 2] = [OTHER, 140];

/// X, which is object 1, was moved, or lent to object 2; before that the other objects were moved.
fn facts(alloc: Global, end: u32) -> Result<Vec<Fact>, AllocError> {
    let mut made = Vec::new(alloc);
    for other in OTHER..end {
        made.push(Fact::Moved(PlaceName::new(other)))?;
    }
    made.push(Fact::Moved(PlaceName::new(1)))?;
    made.push(Fact::Lent {
        kind: Loan::Borrowed,
        holder: 2,
        name: PlaceName::new(1),
    })?;
    Ok(made)
}

/// X.all.
fn all_of_x() -> Result<PlaceName, TooDeep> {
    let mut name = PlaceName::new(1);
    name.push(Sel::Deref)?;
    Ok(name)
}

fn move_of_x(alloc: Global) -> Result<Act, AllocError> {
    let mut parts = Vec::new(alloc);
    parts.push(PlaceTail::new())?;
    let parts = Parts::from_vec(parts)?;
    Ok(Act::Move {
        name: PlaceName::new(1),
        parts,
    })
}

/// What holds after one act.
fn after<'f>(alloc: Global, facts: &'f [Fact], act: &Act) -> Result<Tree<'f>, AllocError>
    ensures { IfOk result (λ tree. tree.facts ≡ facts.now) }
{
    let mut tree = Tree::start(alloc, facts)?;
    tree.apply(act)?;
    Ok(tree)
}

/// Whether a tree says this of the last facts: a letter for each, `-` where it doesn't hold, `m`
/// where it may hold and may not, `a` where it always holds. None of the facts before these holds.
fn shows(tree: &Tree<'_>, want: &str) -> bool {
    let want = want.as_bytes();
    let count = tree.facts().len();
    if count < want.len() {
        return false;
    }
    let others = count - want.len();
    for i in 0..count {
        let fact = i as u32;
        let letter = if i < others { b'-' } else { want[i - others] };
        let holds = match letter {
            b'a' => (true, true),
            b'm' => (true, false),
            _ => (false, false),
        };
        if (tree.may(fact), tree.always(fact)) != holds {
            return false;
        }
    }
    true
}

/// X is moved on one path and borrowed on the other one.
fn meeting<'f>(alloc: Global, facts: &'f [Fact]) -> Result<(Tree<'f>, bool), AllocError>
    ensures { IfOk result (λ met. met.0.facts ≡ facts.now) }
{
    let mut tree = after(alloc, facts, &move_of_x(alloc)?)?;
    let name = PlaceName::new(1);
    let other = after(alloc, facts, &Act::Borrow { holder: 2, name })?;
    let changed = tree.join(&other)?;
    Ok((tree, changed))
}

#[test]
fn branches(rt: HostRuntime) -> Result<(), Fail> {
    let alloc = rt.alloc();
    for end in &ENDS {
        let facts = facts(alloc, *end)?;
        let tree = after(alloc, &facts, &move_of_x(alloc)?)?;
        assert!(rt; shows(&tree, "a-"));
        assert!(rt; shows(&tree.copy()?, "a-"));
        let (met, changed) = meeting(alloc, &facts)?;
        assert!(rt; changed && shows(&met, "mm"));
        assert!(rt; met.same(&met) && !met.same(&tree));
        assert!(rt; met.any_overlapping(&all_of_x()?, State::Borrowed));
    }
    Ok(())
}

fn is_found(found: Option<&Found>, rule: Rule, state: State) -> bool {
    match found {
        Some(found) => found.rule == rule && found.state == state && found.name.root() == 1,
        None => false,
    }
}

/// Both rules find what the two facts forbid, in their order.
#[test]
fn rules(rt: HostRuntime) -> Result<(), Fail> {
    let alloc = rt.alloc();
    for end in &ENDS {
        let facts = facts(alloc, *end)?;
        let (tree, _changed) = meeting(alloc, &facts)?;
        let mut found = Vec::new(alloc);
        let name = all_of_x()?;
        test_moves(&tree, &Act::Read { name }, &mut found)?;
        let name = all_of_x()?;
        test_loans(&tree, &Act::Borrow { holder: 3, name }, &mut found)?;
        assert!(rt; found.len() == 4);
        assert!(rt; is_found(found.first(), Rule::O1, State::Moved));
        assert!(rt; is_found(found.get(1), Rule::O1, State::Borrowed));
        assert!(rt; is_found(found.get(2), Rule::O5, State::Moved));
        assert!(rt; is_found(found.get(3), Rule::O5, State::Borrowed));
    }
    Ok(())
}
