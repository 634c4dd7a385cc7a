//! Which objects have a root that is asked for.
ghost use Rattle.std.specs.Prelude.{◌≡◌, ◌∷◌, [], ◌++◌, OnOk, IfOk};
ghost use Rattle.program_typing.specs.Typings.{typing};
ghost use Rattle.traversal_funcs.specs.Lendings.{AreHolders};
ghost use Rattle.traversal_funcs.specs.Searches.{Came, Spread, starts_of, has_root, IsRooted};

use crate::holders::{Holders, holders_at};
use crate::lending::Lending;
use crate::questions::Question;
use indexmap::IndexSet;
use program_typing::ProgramTyping;
use std::alloc::{AllocError, Global};

/// Which objects have a root that a question asks for: those that are such themselves, and those
/// that were found.
pub(crate) struct Rooted<'p> {
    known: ProgramTyping<'p>,
    question: Question,
    found: IndexSet<u32>,
}

impl<'p> Drop for Rooted<'p> {
    fn drop(self) {
        let Self {
            known: _,
            question: _,
            found: _,
        } = self;
    }
}

impl<'p> Rooted<'p> {
    /// Whether some root of an object is asked for.
    pub(crate) fn has_root(&self, x: u32) -> bool
        ensures { result ≡ has_root self.now x }
    {
        self.question.is_answer(&self.known, x) || self.found.contains(&x)
    }
}

/// An object is found. It is put into the work where it is new.
fn come(x: u32, found: &mut IndexSet<u32>, work: &mut Vec<u32>) -> Result<(), AllocError>
    ensures { OnOk result (Came x found.old.keys work.old.items found.new.keys work.new.items) }
{
    if found.insert(x)? {
        work.push(x)?;
    }
    Ok(())
}

/// All sources that are asked for themselves are found.
fn start(
    known: &ProgramTyping<'_>,
    question: Question,
    lendings: &[Lending],
    found: &mut IndexSet<u32>,
    work: &mut Vec<u32>,
) -> Result<(), AllocError>
    ensures { OnOk result (Spread (starts_of (typing known.now) question lendings.now) found.old.keys work.old.items found.new.keys work.new.items) }
{
    'lendings: for lending in lendings {
        if question.is_answer(known, lending.source) {
            come(lending.source, found, work)?;
        }
    }
    Ok(())
}

/// The holders that an object is a source of are found.
fn spread(holders: &[u32], found: &mut IndexSet<u32>, work: &mut Vec<u32>) -> Result<(), AllocError>
    ensures { OnOk result (Spread holders.now found.old.keys work.old.items found.new.keys work.new.items) }
{
    'holders: for holder in holders {
        come(*holder, found, work)?;
    }
    Ok(())
}

/// Which objects of a subprogram with these sources have a root that is asked for.
pub(crate) fn search<'p>(
    alloc: Global,
    known: ProgramTyping<'p>,
    question: Question,
    lendings: &[Lending],
    holders: &Holders,
) -> Result<Rooted<'p>, AllocError>
    requires { AreHolders holders.now.entries lendings.now }
    ensures { IfOk result (λ made. IsRooted made (typing known.entry) question lendings.now) }
{
    let mut found = IndexSet::new(alloc);
    let mut work = Vec::new(alloc);
    start(&known, question, lendings, &mut found, &mut work)?;
    'turns: while let Some(x) = work.pop() {
        spread(holders_at(holders, x), &mut found, &mut work)?;
    }
    Ok(Rooted {
        known,
        question,
        found,
    })
}
