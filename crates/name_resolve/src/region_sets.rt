//! Sets of the regions of packages.
ghost use Rattle.std.specs.Prelude.{◌≡◌, ◌<◌, ℕ, List, [], ◌∷◌, ◌++◌, IfOk, OnOk, length, if◌then◌else◌, nat_eq};
ghost use Rattle.name_events.specs.Declarations.{has_number};
ghost use Rattle.name_resolve.specs.Tables.{listed_at};
ghost use Rattle.name_resolve.specs.Stands.{AreRegionsOf};

use indexmap::IndexSet;
use name_events::Declaration;
use std::alloc::{AllocError, Global};
use std::marker::Model;

/// Adds the region of a package. It was declared: so it has a region, and its region stays.
fn add_region(
    set: &mut IndexSet<usize>,
    all: &[Declaration],
    number: usize,
) -> Result<(), AllocError>
    ensures { OnOk result ((front before : List ℕ) → AreRegionsOf all.now before (front ++ set.old.keys)
        → AreRegionsOf all.now (before ++ number ∷ []) (front ++ set.new.keys)) }
{
    let Some(declaration) = all.get(number) else {
        return Err(AllocError);
    };
    set.insert(declaration.own_region)?;
    Ok(())
}

/// Adds the regions of packages, which were declared.
fn add_regions(
    set: &mut IndexSet<usize>,
    all: &[Declaration],
    packages: &[usize],
) -> Result<(), AllocError>
    ensures { OnOk result ((front before : List ℕ) → AreRegionsOf all.now before (front ++ set.old.keys)
        → AreRegionsOf all.now (before ++ packages.now) (front ++ set.new.keys)) }
{
    'turns: for number in packages {
        add_region(set, all, *number)?;
    }
    Ok(())
}

/// The regions of packages, which were declared.
pub fn regions_of(
    alloc: Global,
    all: &[Declaration],
    packages: &[usize],
) -> Result<IndexSet<usize>, AllocError>
    ensures { IfOk result (λ set. AreRegionsOf all.now packages.now set.keys) }
{
    let mut made = IndexSet::new(alloc);
    add_regions(&mut made, all, packages)?;
    Ok(made)
}

/// For each region the regions of the packages that a `use` clause in it names. Contracts see
/// lists of them.
#[derive(Drop)]
pub struct RegionSets {
    sets: Vec<IndexSet<usize>>,
}

impl Model for RegionSets {
    ghost use Rattle.std.specs.Prelude.{List, ℕ, map};

    ghost Value = { List (List ℕ) };

    ghost view = { λ regions. map (λ set. set.keys) regions.sets.items };
}

impl RegionSets {
    /// No regions. It takes no memory.
    pub fn new(alloc: Global) -> RegionSets
        ensures { result ≡ [] }
    {
        RegionSets {
            sets: Vec::new(alloc),
        }
    }

    /// Whether a package with this region is in use by a clause in a region.
    pub fn has(&self, inner: usize, region: usize) -> bool
        ensures { result ≡ has_number region (listed_at self.now inner) }
    {
        match self.sets.get(inner) {
            None => false,
            Some(set) => set.contains(&region),
        }
    }

    /// Makes room for a region.
    fn reach(&mut self, alloc: Global, inner: usize) -> Result<(), AllocError>
        ensures room { OnOk result (inner < length self.new) }
        ensures same { OnOk result ((n : ℕ) → listed_at self.new n ≡ listed_at self.old n) }
    {
        'turns: while self.sets.len() <= inner {
            self.sets.push(IndexSet::new(alloc))?;
        }
        Ok(())
    }

    /// Adds packages in use in a region.
    pub fn add(
        &mut self,
        alloc: Global,
        inner: usize,
        all: &[Declaration],
        packages: &[usize],
    ) -> Result<(), AllocError>
        ensures { OnOk result ((n : ℕ) (front before : List ℕ) → AreRegionsOf all.now before (front ++ listed_at self.old n)
            → AreRegionsOf all.now (if nat_eq n inner then before ++ packages.now else before) (front ++ listed_at self.new n)) }
    {
        self.reach(alloc, inner)?;
        add_regions(&mut self.sets[inner], all, packages)?;
        Ok(())
    }

    /// Lets go of the packages in use in a region, and of their table: to clear that would take
    /// the time of the largest one so far.
    pub fn clear(&mut self, alloc: Global, inner: usize) -> Result<(), AllocError>
        ensures { OnOk result ((n : ℕ) → listed_at self.new n ≡ (if nat_eq n inner then [] else listed_at self.old n)) }
    {
        self.reach(alloc, inner)?;
        self.sets[inner] = IndexSet::new(alloc);
        Ok(())
    }
}
