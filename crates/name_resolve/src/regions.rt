//! The regions that enclose a point, and the packages in use there.
ghost use Rattle.std.specs.Prelude.{◌≡◌, [], ◌∷◌, ◌++◌, ◌+◌, List, ℕ, IfOk, OnOk, filter, map, nat_eq, not, drop, reverse};
ghost use Rattle.name_events.specs.declared.declaration.OpenRegion.{OpenRegion};
ghost use Rattle.name_events.specs.declared.declaration.RegionPart.TheVariants as part;
ghost use Rattle.name_events.specs.Known.{part_of, region_of, used_in};
ghost use Rattle.name_events.specs.KnownBehind.{turned_private};
ghost use Rattle.name_resolve.specs.Stands.{given_uses, RegionsAre};

use crate::contexts::Given;
use crate::number_lists::NumberLists;
use name_events::{OpenRegion, RegionPart};
use std::alloc::{AllocError, Global};
use std::rc::Rc;

/// How many regions the declarations of the language itself have.
const PREDEFINED_REGIONS: usize = 4;

/// The regions that enclose a point, the innermost last, and the packages in use there. In the
/// predefined region, those that the unit is given come first.
#[derive(Drop)]
pub struct Regions {
    alloc: Global,
    pub count: usize,
    pub around: Vec<OpenRegion>,
    pub given: Option<Rc<Given>>,
    pub uses: NumberLists,
    pub named: Vec<usize>,
}

/// The innermost of these regions, which stands last.
fn innermost(around: &[OpenRegion]) -> OpenRegion
    ensures region { result.region ≡ region_of (reverse around.now) }
    ensures part { result.part ≡ part_of (reverse around.now) }
{
    match around.last() {
        Some(inner) => *inner,
        None => OpenRegion {
            region: 0,
            part: RegionPart::Visible,
        },
    }
}

impl Regions {
    /// Before the first unit. It takes no memory.
    pub fn new(alloc: Global) -> Regions
        ensures { RegionsAre result 4 [] [] [] }
    {
        Regions {
            alloc,
            count: PREDEFINED_REGIONS,
            around: Vec::new(alloc),
            given: None,
            uses: NumberLists::new(alloc),
            named: Vec::new(alloc),
        }
    }

    /// The innermost region.
    pub fn here(&self) -> OpenRegion
        ensures region { (count : ℕ) (enclosing : List OpenRegion) (clauses : List (ℕ × ℕ)) (packages : List ℕ) → RegionsAre self.now count enclosing clauses packages
            → result.region ≡ region_of enclosing }
        ensures part { (count : ℕ) (enclosing : List OpenRegion) (clauses : List (ℕ × ℕ)) (packages : List ℕ) → RegionsAre self.now count enclosing clauses packages
            → result.part ≡ part_of enclosing }
    {
        innermost(&self.around)
    }

    /// The number of the region around the innermost one.
    pub fn outer(&self) -> usize
        ensures { (count : ℕ) (enclosing : List OpenRegion) (clauses : List (ℕ × ℕ)) (packages : List ℕ) → RegionsAre self.now count enclosing clauses packages
            → result ≡ region_of (drop 1 enclosing) }
    {
        match self.around.split_last() {
            None => 0,
            Some((_, outer)) => innermost(outer).region,
        }
    }

    /// A region begins, with this part of it.
    pub fn open(&mut self, part: RegionPart) -> Result<(), AllocError>
        ensures { OnOk result ((count : ℕ) (enclosing : List OpenRegion) (clauses : List (ℕ × ℕ)) (packages : List ℕ) → RegionsAre self.old count enclosing clauses packages
            → RegionsAre self.new (count + 1) ((record { region = count; part = part }) ∷ enclosing) clauses packages) }
    {
        let region = self.count;
        let Some(next) = region.checked_add(1) else {
            return Err(AllocError);
        };
        self.around.push(OpenRegion { region, part })?;
        self.count = next;
        Ok(())
    }

    /// The region of a package goes on.
    pub fn reopen(&mut self, region: usize) -> Result<(), AllocError>
        ensures { OnOk result ((count : ℕ) (enclosing : List OpenRegion) (clauses : List (ℕ × ℕ)) (packages : List ℕ) → RegionsAre self.old count enclosing clauses packages
            → RegionsAre self.new count ((record { region = region; part = part.Body }) ∷ enclosing) clauses packages) }
    {
        self.around.push(OpenRegion {
            region,
            part: RegionPart::Body,
        })?;
        Ok(())
    }

    /// The innermost region closes.
    pub fn close(&mut self)
        ensures { (count : ℕ) (enclosing : List OpenRegion) (clauses : List (ℕ × ℕ)) (packages : List ℕ) → RegionsAre self.old count enclosing clauses packages
            → RegionsAre self.new count (drop 1 enclosing) clauses packages }
    {
        let _inner = self.around.pop();
    }

    /// The private part of the innermost region begins.
    pub fn turn_private(&mut self) -> Result<(), AllocError>
        ensures { OnOk result ((count : ℕ) (enclosing : List OpenRegion) (clauses : List (ℕ × ℕ)) (packages : List ℕ) → RegionsAre self.old count enclosing clauses packages
            → RegionsAre self.new count (turned_private enclosing) clauses packages) }
    {
        match self.around.pop() {
            None => Ok(()),
            Some(inner) => {
                let region = inner.region;
                let part = RegionPart::Private;
                self.around.push(OpenRegion { region, part })?;
                Ok(())
            }
        }
    }

    /// The packages in use that the unit is given.
    pub fn given_uses(&self) -> &[usize]
        ensures { result.now ≡ given_uses self.now.given }
    {
        match &self.given {
            None => &[],
            Some(given) => given.uses.as_slice(),
        }
    }

    /// How many packages are in use here, with those counted twice that two clauses name.
    pub(crate) fn count_in_use(&self) -> usize {
        let mut count = self.given_uses().len();
        'turns: for inner in &self.around {
            count = count.saturating_add(self.uses.at(inner.region).len());
        }
        count
    }

    /// A list of the packages that are in use by the context.
    pub fn context_uses(&self) -> Result<Vec<usize>, AllocError>
        ensures { IfOk result (λ made. (count : ℕ) (enclosing : List OpenRegion) (clauses : List (ℕ × ℕ)) (packages : List ℕ)
            → RegionsAre self.now count enclosing clauses packages → made.items ≡ used_in clauses 0) }
    {
        let mut made = Vec::from_slice(self.alloc, self.given_uses())?;
        made.extend_from_slice(self.uses.at(0))?;
        Ok(made)
    }

    /// A unit begins, to which this is given.
    pub fn begin_unit(&mut self, given: Option<Rc<Given>>) -> Result<(), AllocError>
        ensures { OnOk result ((count : ℕ) (enclosing : List OpenRegion) (clauses : List (ℕ × ℕ)) (packages : List ℕ) → RegionsAre self.old count enclosing clauses packages
            → RegionsAre self.new count ((record { region = 0; part = part.Visible }) ∷ [])
            (filter (λ u. not (nat_eq 0 u.0)) clauses ++ map (λ p. (0, p)) (given_uses given)) packages) }
    {
        self.uses.clear(self.alloc, 0)?;
        self.given = given;
        self.around.clear();
        self.around.push(OpenRegion {
            region: 0,
            part: RegionPart::Visible,
        })?;
        Ok(())
    }

    /// A `use` clause names a package.
    pub fn use_package(&mut self, number: usize) -> Result<(), AllocError>
        ensures { OnOk result ((count : ℕ) (enclosing : List OpenRegion) (clauses : List (ℕ × ℕ)) (packages : List ℕ) → RegionsAre self.old count enclosing clauses packages
            → RegionsAre self.new count enclosing clauses (packages ++ number ∷ [])) }
    {
        self.named.push(number)?;
        Ok(())
    }

    /// A `use` clause ends.
    pub fn end_use_clause(&mut self) -> Result<(), AllocError>
        ensures { OnOk result ((count : ℕ) (enclosing : List OpenRegion) (clauses : List (ℕ × ℕ)) (packages : List ℕ) → RegionsAre self.old count enclosing clauses packages
            → RegionsAre self.new count enclosing (clauses ++ map (λ p. (region_of enclosing, p)) packages) []) }
    {
        let region = self.here().region;
        self.uses.add(self.alloc, region, self.named.as_slice())?;
        self.named.clear();
        Ok(())
    }
}
