//! The facts that acts can add.
ghost use Rattle.std.specs.Prelude.{◌≡◌, ◌<◌, ◌≤◌, ◌+◌, ◌++◌, true, false, IfOk, IfSome, IfNone, OnOk, length, map, flat_map};
ghost use Rattle.std.specs.List.{list_all, list_any};
ghost use Rattle.std.specs.Cmp.Lexicographic.{pointwise};
ghost use Rattle.spark_base.specs.declared.limits.TheConstants as limits;
ghost use Rattle.place_names.specs.Names as names;
ghost use Rattle.place_names.specs.Facts as facts;
ghost use Rattle.place_names.specs.declared.fact.Fact.TheVariants as fact;
ghost use Rattle.place_names.specs.Facts.{adds};
ghost use Rattle.sub_summary.specs.FactLists.{with_fact, with_facts};
ghost use Rattle.sub_summary.specs.Gathered.{acts_of, are_shallow, point_facts, points_shallow};

use flow_paths::Point;
use place_names::{Act, Fact, Loan, PlaceName, PlaceTail, Placed, Sel};
use spark_base::{FACTS, Listed};
use std::alloc::{AllocError, Global};

/// Whether two names are the same.
fn is_same_name(a: &PlaceName, b: &PlaceName) -> bool
    ensures { result ≡ names.is_same a.now b.now }
{
    a == b
}

/// Whether two loans are of one kind.
fn is_same_loan(a: Loan, b: Loan) -> bool
    ensures { result ≡ facts.is_same_loan a b }
{
    a == b
}

/// Whether two facts are the same.
fn is_same_fact(a: &Fact, b: &Fact) -> bool
    ensures { result ≡ facts.is_same_fact a.now b.now }
{
    match (a, b) {
        (Fact::Moved(n), Fact::Moved(m)) => is_same_name(n, m),
        (
            Fact::Lent { kind, holder, name },
            Fact::Lent {
                kind: kind2,
                holder: holder2,
                name: name2,
            },
        ) => is_same_loan(*kind, *kind2) && *holder == *holder2 && is_same_name(name, name2),
        _ => false,
    }
}

/// The number of a fact among some.
fn number_of(found: &[Fact], fact: &Fact) -> Option<usize>
    ensures some { IfSome result (λ i. (i < length found.now) × (list_any (λ f. facts.is_same_fact f fact.now) found.now ≡ true)) }
    ensures none { IfNone result (list_any (λ f. facts.is_same_fact f fact.now) found.now ≡ false) }
{
    'found: for i in 0..found.len() {
        if is_same_fact(&found[i], fact) {
            return Some(i);
        }
    }
    None
}

/// Adds a fact, unless it is there, and tells the number after that of the fact.
fn add_fact(found: &mut Listed<Fact>, fact: Fact) -> Result<usize, AllocError>
    ensures { OnOk result (found.new ≡ with_fact found.old fact) }
{
    if let Some(i) = number_of(found.as_slice(), &fact) {
        return Ok(i + 1);
    }
    found.push(fact)?;
    Ok(found.len())
}

/// Whether the first list is the second one followed by the third.
fn is_joined(whole: &[Sel], front: &[Sel], back: &[Sel]) -> bool
    ensures { result ≡ pointwise names.is_equal whole.now (front.now ++ back.now) }
{
    match whole.strip_prefix(front) {
        Some(rest) => rest == back,
        None => false,
    }
}

/// Whether a fact is that a part of a place was moved.
fn is_moved_part(one: &Fact, name: &PlaceName, part: &PlaceTail) -> bool
    ensures { result ≡ facts.is_same_fact one.now (fact.Moved (names.extend name.now part.now)) }
{
    match one {
        Fact::Moved(moved) => {
            moved.root() == name.root() && is_joined(moved.sels(), name.sels(), part.sels())
        }
        Fact::Lent { .. } => false,
    }
}

/// A part of a place.
#[tactic(auto, using(crate::proofs::FactLists::extend_step))]
fn part_of(name: &PlaceName, part: &PlaceTail) -> Result<PlaceName, AllocError>
    requires { length name.now.sels + length part.now ≤ 16 }
    ensures { IfOk result (λ made. made ≡ names.extend name.now part.now) }
{
    let mut made = name.clone()?;
    'sels: for sel in part.sels() {
        if made.push(*sel).is_err() {
            return Err(AllocError);
        }
    }
    Ok(made)
}

/// Adds that a part of a place was moved, unless it is there, and tells the number after that of
/// the fact. The fact with the number `next` is looked at before the others.
fn add_part(
    found: &mut Listed<Fact>,
    name: &PlaceName,
    part: &PlaceTail,
    next: usize,
) -> Result<usize, AllocError>
    requires { length name.now.sels + length part.now ≤ 16 }
    ensures { OnOk result (found.new ≡ with_fact found.old (fact.Moved (names.extend name.now part.now))) }
{
    if next < found.len() && is_moved_part(&found.as_slice()[next], name, part) {
        return Ok(next + 1);
    }
    add_fact(found, Fact::Moved(part_of(name, part)?))
}

/// Adds the facts of a move. Those of a name mostly stand in the order of its parts, so each is
/// looked for after the last.
#[tactic(auto, using(crate::proofs::FactLists::with_facts_append))]
fn add_moves(
    found: &mut Listed<Fact>,
    name: &PlaceName,
    parts: &[PlaceTail],
) -> Result<(), AllocError>
    requires { are_shallow (map (λ q. fact.Moved (names.extend name.now q)) parts.now) ≡ true }
    ensures { OnOk result (found.new ≡ with_facts found.old (map (λ q. fact.Moved (names.extend name.now q)) parts.now)) }
{
    let mut next = 0;
    'parts: for part in parts {
        next = add_part(found, name, part, next)?;
    }
    Ok(())
}

/// Adds the facts of an act.
fn add_facts(found: &mut Listed<Fact>, act: &Act) -> Result<(), AllocError>
    requires { are_shallow (adds act.now) ≡ true }
    ensures { OnOk result (found.new ≡ with_facts found.old (adds act.now)) }
{
    match act {
        Act::Move { name, parts } => add_moves(found, name, parts.as_slice()),
        Act::Borrow { holder, name } => add_loan(found, Loan::Borrowed, *holder, name),
        Act::Observe {
            holder,
            name,
            from_observer,
        } => {
            if *from_observer {
                return Ok(());
            }
            add_loan(found, Loan::Observed, *holder, name)
        }
        _ => Ok(()),
    }
}

/// Adds a loan.
fn add_loan(
    found: &mut Listed<Fact>,
    kind: Loan,
    holder: u32,
    name: &PlaceName,
) -> Result<(), AllocError>
    ensures { OnOk result (found.new ≡ with_fact found.old (fact.Lent kind holder name.now)) }
{
    let name = name.clone()?;
    let _behind = add_fact(found, Fact::Lent { kind, holder, name })?;
    Ok(())
}

/// Adds the facts of the acts of a point, until there are more than 512. Whether all were added.
#[tactic(auto, using(crate::proofs::FactLists::with_facts_append, crate::proofs::FactLists::with_facts_grow))]
fn add_point(found: &mut Listed<Fact>, acts: &[Placed]) -> Result<bool, AllocError>
    requires few { length found.old ≤ limits.FACTS }
    requires shallow { list_all (λ (a : Placed). are_shallow (adds a.act)) acts.now ≡ true }
    ensures all { IfOk result (λ all. all ≡ true → (found.new ≡ with_facts found.old (flat_map (λ (a : Placed). adds a.act) acts.now)) × (length found.new ≤ limits.FACTS)) }
    ensures many { IfOk result (λ all. all ≡ false → limits.FACTS < length (with_facts found.old (flat_map (λ (a : Placed). adds a.act) acts.now))) }
{
    'acts: for placed in acts {
        add_facts(found, &placed.act)?;
        if found.len() > FACTS {
            return Ok(false);
        }
    }
    Ok(true)
}

/// Each fact that the acts of some points can add, in the order of the first act that adds it; none
/// where there are more than 512.
#[tactic(auto, using(crate::proofs::FactLists::with_facts_append, crate::proofs::FactLists::with_facts_grow, crate::proofs::FactLists::with_facts_distinct))]
pub fn facts_of(alloc: Global, points: &[Point]) -> Result<Option<Listed<Fact>>, AllocError>
    requires { points_shallow points.now ≡ true }
    ensures some { IfOk result (λ found. IfSome found (λ made. (made ≡ point_facts points.now) × (length made ≤ limits.FACTS))) }
    ensures none { IfOk result (λ found. IfNone found (limits.FACTS < length (point_facts points.now))) }
{
    let mut found = Listed::new(alloc);
    'points: for point in points {
        if !add_point(&mut found, point.acts.as_slice())? {
            return Ok(None);
        }
    }
    Ok(Some(found))
}
