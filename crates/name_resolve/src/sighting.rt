//! What the packages in use have of a name. The name is given by its symbol, if it has one.
ghost use Rattle.std.specs.Prelude.{◌≡◌, ℕ, List, option_to_list, reverse, slice_get, length};
ghost use Rattle.std.specs.List.{flat_map};
ghost use Rattle.name_events.specs.Declarations.{Name};
ghost use Rattle.name_events.specs.Known.{Known, used_in, visible_member, visible_members};
ghost use Rattle.name_resolve.specs.declared.sighting.Sighting.TheVariants.{Nothing};
ghost use Rattle.name_resolve.specs.Sightings.{sighted, sighted_all};
ghost use Rattle.name_resolve.specs.Tables.{in_use_at, symbol_of};
ghost use Rattle.name_resolve.specs.Stands.{DeclarationsStand};

use crate::declarations::Declarations;
use crate::number_lists::NumberLists;
use name_events::{Declaration, OpenRegion};

/// What was found of a name so far.
#[derive(Clone, Copy)]
pub enum Sighting {
    /// No declaration.
    Nothing,
    /// One declaration, once or more.
    One(Declaration),
    /// More than one declaration.
    Several,
}

/// What is found with one more declaration.
fn sighted(so_far: Sighting, found: Declaration) -> Sighting
    ensures { result ≡ sighted so_far found }
{
    match so_far {
        Sighting::Nothing => Sighting::One(found),
        Sighting::One(first) => {
            if found.number == first.number {
                Sighting::One(first)
            } else {
                Sighting::Several
            }
        }
        Sighting::Several => Sighting::Several,
    }
}

/// What was found in one package alone.
pub fn sight_one(found: Option<Declaration>) -> Sighting
    ensures { result ≡ sighted_all Nothing (option_to_list found) }
{
    match found {
        None => Sighting::Nothing,
        Some(declaration) => Sighting::One(declaration),
    }
}

/// Looks in the visible part of one more package.
fn see_package(
    declarations: &Declarations,
    so_far: Sighting,
    number: usize,
    symbol: Option<usize>,
) -> Sighting
    ensures { (now : Known) (w : Name) → DeclarationsStand declarations.now now → symbol ≡ symbol_of declarations.now.words w
        → result ≡ sighted_all so_far (option_to_list (visible_member now (slice_get now.declared number) w)) }
{
    match declarations.visible_member(number, symbol) {
        None => so_far,
        Some(found) => sighted(so_far, found),
    }
}

/// Looks in the visible parts of more packages.
fn see_packages(
    declarations: &Declarations,
    so_far: Sighting,
    numbers: &[usize],
    symbol: Option<usize>,
) -> Sighting
    ensures { (now : Known) (w : Name) → DeclarationsStand declarations.now now → symbol ≡ symbol_of declarations.now.words w
        → result ≡ sighted_all so_far (visible_members now numbers.now w) }
{
    let mut seen = so_far;
    'turns: for number in numbers {
        seen = see_package(declarations, seen, *number, symbol);
    }
    seen
}

/// Looks in the packages in use in a region. In the predefined one, the given ones come first.
fn see_region(
    declarations: &Declarations,
    given: &[usize],
    uses: &NumberLists,
    so_far: Sighting,
    region: usize,
    symbol: Option<usize>,
) -> Sighting
    ensures { (now : Known) (w : Name) → DeclarationsStand declarations.now now → symbol ≡ symbol_of declarations.now.words w
        → result ≡ sighted_all so_far (visible_members now (in_use_at given.now uses.now region) w) }
{
    let own = uses.at(region);
    if region == 0 {
        let seen = see_packages(declarations, so_far, given, symbol);
        see_packages(declarations, seen, own, symbol)
    } else {
        see_packages(declarations, so_far, own, symbol)
    }
}

/// Looks in the packages in use in these regions. The innermost region stands last.
pub fn see_regions(
    declarations: &Declarations,
    given: &[usize],
    uses: &NumberLists,
    so_far: Sighting,
    around: &[OpenRegion],
    symbol: Option<usize>,
) -> Sighting
    ensures { (now : Known) (w : Name) (clauses : List (ℕ × ℕ)) → DeclarationsStand declarations.now now → symbol ≡ symbol_of declarations.now.words w
        → ((region : ℕ) → in_use_at given.now uses.now region ≡ used_in clauses region)
        → result ≡ sighted_all so_far (visible_members now (flat_map (λ inner. used_in clauses inner.region) (reverse around.now)) w) }
{
    match around.split_last() {
        None => so_far,
        Some((inner, outer)) => {
            let seen = see_region(declarations, given, uses, so_far, inner.region, symbol);
            see_regions(declarations, given, uses, seen, outer, symbol)
        }
    }
}
