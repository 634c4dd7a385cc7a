//! Ranks of types.
ghost use Rattle.std.specs.Prelude.{◌≡◌, ◌≤◌, ◌+◌, ◌++◌, ◌∷◌, ℕ, [], false, true, get_or, set, length, map, replicate, suc, IfOk, OnOk};
ghost use Rattle.type_definitions.specs.Types.{info};
ghost use Rattle.type_ranks.specs.Ranks as spec;
ghost use Rattle.type_ranks.specs.Ranks.{AreRanks, parts};
ghost use Rattle.type_ranks.specs.Stages.{entered, fresh, given, is_entered, IsSound, Keeps, work};

use crate::visits::{Visit, put_parts};
use std::alloc::{AllocError, Global};
use type_definitions::Info;

/// The types that have a rank so far.
#[derive(Drop)]
struct Ranking {
    /// The types that were entered.
    entered: Vec<bool>,
    /// The rank of each type, where it has one; 0 of the others.
    ranks: Vec<usize>,
    /// The greatest so far.
    last: usize,
    /// The types that are to be visited, the next one last.
    stack: Vec<Visit>,
}

/// Whether a type was entered. One beyond the table needn't be.
fn is_entered(entered: &[bool], t: usize) -> bool
    ensures { result ≡ is_entered entered.now t }
{
    match entered.get(t) {
        Some(entered) => *entered,
        None => true,
    }
}

/// Marks a type.
#[tactic(auto, using(std::proofs::lemmas::List::set_past))]
fn mark(marks: &mut Vec<bool>, t: usize)
    ensures { marks.new.items ≡ set marks.old.items t true }
{
    if t < marks.len() {
        marks[t] = true;
    }
}

/// The rank of a type.
fn rank(ranks: &[usize], t: usize) -> usize
    ensures { result ≡ spec.rank ranks.now t }
{
    match ranks.get(t) {
        Some(rank) => *rank,
        None => 0,
    }
}

/// Gives a rank to a type that has none.
#[tactic(auto, using(std::proofs::lemmas::List::set_past))]
fn give(ranks: &mut Vec<usize>, t: usize, next: usize)
    ensures { ranks.new.items ≡ given ranks.old.items t next }
{
    if rank(ranks, t) == 0 && t < ranks.len() {
        ranks[t] = next;
    }
}

/// The number after this. None is as great as memory.
fn successor(n: usize) -> Result<usize, AllocError>
    ensures { IfOk result (λ next. next ≡ suc n) }
{
    match n.checked_add(1) {
        Some(next) => Ok(next),
        None => Err(AllocError),
    }
}

impl Ranking {
    /// No type has a rank.
    fn new(alloc: Global, types: usize) -> Result<Ranking, AllocError>
        ensures empty { IfOk result (λ ranking. ranking.stack.items ≡ []) }
        ensures marks { IfOk result (λ ranking. ranking.entered.items ≡ replicate types false) }
        ensures ranks { IfOk result (λ ranking. ranking.ranks.items ≡ replicate types 0) }
    {
        Ok(Ranking {
            entered: vec![in alloc; false; types]?,
            ranks: vec![in alloc; 0; types]?,
            last: 0,
            stack: Vec::new(alloc),
        })
    }

    /// Gives a type the next rank.
    fn settle(&mut self, t: usize) -> Result<(), AllocError>
        ensures marks { OnOk result (self.new.entered.items ≡ self.old.entered.items) }
        ensures stack { OnOk result (self.new.stack.items ≡ self.old.stack.items) }
        ensures ranks { OnOk result (self.new.ranks.items ≡ given self.old.ranks.items t (suc self.old.last)) }
        ensures last { OnOk result (self.new.last ≡ suc self.old.last) }
    {
        let next = successor(self.last)?;
        self.last = next;
        give(&mut self.ranks, t, next);
        Ok(())
    }

    /// Enters a type: what it is made of is to be visited before it is left.
    fn enter(&mut self, table: &[Info], t: usize) -> Result<(), AllocError>
        ensures marks { OnOk result (self.new.entered.items ≡ set self.old.entered.items t true) }
        ensures stack { OnOk result (self.new.stack.items ≡ self.old.stack.items ++ entered t ∷ map fresh (parts (info table.now t))) }
        ensures ranks { OnOk result (self.new.ranks.items ≡ self.old.ranks.items) }
        ensures last { OnOk result (self.new.last ≡ self.old.last) }
    {
        mark(&mut self.entered, t);
        self.stack.push(Visit {
            of: t,
            entered: true,
        })?;
        match table.get(t) {
            Some(info) => put_parts(&mut self.stack, info),
            None => Ok(()),
        }
    }

    /// Visits a type that was taken off the stack: it gets its rank where what it is made of was
    /// visited before.
    fn turn(&mut self, table: &[Info], visit: Visit) -> Result<(), AllocError>
        requires { IsSound table.now self.old.entered.items self.old.ranks.items self.old.last (self.old.stack.items ++ visit ∷ []) }
        ensures sound { OnOk result (IsSound table.now self.new.entered.items self.new.ranks.items self.new.last self.new.stack.items) }
        ensures keeps { OnOk result (Keeps self.old.entered.items self.new.entered.items) }
        ensures there { OnOk result (visit.entered ≡ false → is_entered self.new.entered.items visit.of ≡ true) }
        ensures smaller { OnOk result (work table.now self.new.entered.items + length self.new.stack.items ≤ work table.now self.old.entered.items + length self.old.stack.items) }
    {
        if visit.entered {
            self.settle(visit.of)?;
            return Ok(());
        }
        if is_entered(&self.entered, visit.of) {
            return Ok(());
        }
        self.enter(table, visit.of)
    }

    /// Visits a type and, before it gets its rank, what it is made of.
    fn visit(&mut self, table: &[Info], t: usize) -> Result<(), AllocError>
        requires empty { self.old.stack.items ≡ [] }
        requires sound { IsSound table.now self.old.entered.items self.old.ranks.items self.old.last [] }
        ensures empty { OnOk result (self.new.stack.items ≡ []) }
        ensures sound { OnOk result (IsSound table.now self.new.entered.items self.new.ranks.items self.new.last []) }
        ensures keeps { OnOk result (Keeps self.old.entered.items self.new.entered.items) }
        ensures there { OnOk result (is_entered self.new.entered.items t ≡ true) }
    {
        self.turn(
            table,
            Visit {
                of: t,
                entered: false,
            },
        )?;
        'types: while let Some(visit) = self.stack.pop() {
            self.turn(table, visit)?;
        }
        Ok(())
    }
}

/// Ranks of the types of a table, where they have some.
pub fn ranks(alloc: Global, table: &[Info]) -> Result<Vec<usize>, AllocError>
    ensures { IfOk result (λ ranks. (rank : ℕ → ℕ) → AreRanks table.now rank → AreRanks table.now (spec.rank ranks.items)) }
{
    let mut ranking = Ranking::new(alloc, table.len())?;
    'types: for t in 0..table.len() {
        ranking.visit(table, t)?;
    }
    let Ranking { ranks, .. } = ranking;
    Ok(ranks)
}
