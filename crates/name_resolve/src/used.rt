//! Which regions are those of packages in use.
ghost use Rattle.std.specs.Prelude.{◌≡◌, [], ◌∷◌, ◌++◌, Bool, true, List, ℕ, OnOk, map, filter, nat_eq, not, reverse};
ghost use Rattle.name_events.specs.declared.declaration.Declaration.{Declaration};
ghost use Rattle.name_events.specs.Declarations.{has_number};
ghost use Rattle.name_events.specs.Known.{Context};
ghost use Rattle.name_resolve.specs.Sightings.{OnlyUsed};
ghost use Rattle.name_resolve.specs.Tables.{in_use_at, is_used};
ghost use Rattle.name_resolve.specs.Stands.{GivenStands, UsedStands, given_regions};

use crate::contexts::Given;
use crate::region_sets::RegionSets;
use name_events::{Declaration, OpenRegion};
use std::alloc::{AllocError, Global};
use std::rc::Rc;

/// The regions of the packages in use. In the predefined region, those that the unit is given count
/// too.
#[derive(Drop)]
pub struct Used {
    alloc: Global,
    pub given: Option<Rc<Given>>,
    pub own: RegionSets,
}

/// Which of some regions are those of packages in use.
#[derive(Clone, Copy)]
pub enum Holder {
    /// None of them.
    Nowhere,
    /// This one, and no other.
    Only(usize),
    /// This is not told.
    Several,
}

/// Which ones are in use with one more that is.
fn with_one(so_far: Holder, region: usize) -> Holder
    ensures { (used : ℕ → Bool) (regions : List ℕ) → used region ≡ true → OnlyUsed used regions so_far → OnlyUsed used (regions ++ region ∷ []) result }
{
    match so_far {
        Holder::Nowhere => Holder::Only(region),
        Holder::Only(one) => {
            if one == region {
                Holder::Only(one)
            } else {
                Holder::Several
            }
        }
        Holder::Several => Holder::Several,
    }
}

impl Used {
    /// Before the first unit. It takes no memory.
    pub fn new(alloc: Global) -> Used
        ensures { (all : List Declaration) → UsedStands result all [] }
    {
        Used {
            alloc,
            given: None,
            own: RegionSets::new(alloc),
        }
    }

    /// A unit begins, to which this is given.
    pub fn begin_unit(&mut self, given: Option<Rc<Given>>) -> Result<(), AllocError>
        ensures { OnOk result ((all : List Declaration) (clauses : List (ℕ × ℕ)) (context : Context) → GivenStands all given context
            → UsedStands self.old all clauses
            → UsedStands self.new all (filter (λ u. not (nat_eq 0 u.0)) clauses ++ map (λ p. (0, p)) context.uses)) }
    {
        self.own.clear(self.alloc, 0)?;
        self.given = given;
        Ok(())
    }

    /// A `use` clause in a region ends, which names these packages.
    pub fn end_use_clause(
        &mut self,
        region: usize,
        all: &[Declaration],
        packages: &[usize],
    ) -> Result<(), AllocError>
        ensures { OnOk result ((clauses : List (ℕ × ℕ)) → UsedStands self.old all.now clauses
            → UsedStands self.new all.now (clauses ++ map (λ p. (region, p)) packages.now)) }
    {
        self.own.add(self.alloc, region, all, packages)?;
        Ok(())
    }

    /// Whether a package with this region is given.
    fn is_given(&self, region: usize) -> bool
        ensures { result ≡ has_number region (given_regions self.now.given) }
    {
        match &self.given {
            None => false,
            Some(given) => given.regions.contains(&region),
        }
    }

    /// Whether a package with this region is in use in a region.
    fn is_used_in(&self, inner: usize, region: usize) -> bool
        ensures { result ≡ has_number region (in_use_at (given_regions self.now.given) self.now.own inner) }
    {
        if inner == 0 {
            self.is_given(region) || self.own.has(0, region)
        } else {
            self.own.has(inner, region)
        }
    }

    /// Whether a package with this region is in use in these regions. The innermost stands last.
    fn is_used(&self, around: &[OpenRegion], region: usize) -> bool
        ensures { result ≡ is_used (given_regions self.now.given) self.now.own (reverse around.now) region }
    {
        match around.split_last() {
            None => false,
            Some((inner, outer)) => {
                self.is_used_in(inner.region, region) || self.is_used(outer, region)
            }
        }
    }

    /// Which ones are in use with one more.
    fn with_next(&self, around: &[OpenRegion], so_far: Holder, region: usize) -> Holder
        ensures { (regions : List ℕ) → OnlyUsed (is_used (given_regions self.now.given) self.now.own (reverse around.now)) regions so_far
            → OnlyUsed (is_used (given_regions self.now.given) self.now.own (reverse around.now)) (regions ++ region ∷ []) result }
    {
        if self.is_used(around, region) {
            with_one(so_far, region)
        } else {
            so_far
        }
    }

    /// Which of these regions are those of packages in use.
    pub fn only_used(&self, around: &[OpenRegion], regions: &[usize]) -> Holder
        ensures { OnlyUsed (is_used (given_regions self.now.given) self.now.own (reverse around.now)) regions.now result }
    {
        let mut found = Holder::Nowhere;
        'turns: for region in regions {
            found = self.with_next(around, found, *region);
        }
        found
    }
}
