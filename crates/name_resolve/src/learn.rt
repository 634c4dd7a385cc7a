//! What is known after an event.
ghost use Rattle.std.specs.Prelude.{◌≡◌, [], ◌∷◌, ◌++◌, ◌+◌, List, ℕ, Option, None, Some, OnOk, drop, map, length, if◌then◌else◌};
ghost use Rattle.std.specs.Option.{option_map};
ghost use Rattle.name_events.specs.declared.event.Clause.TheVariants as clause;
ghost use Rattle.name_events.specs.declared.declaration.OpenRegion.{OpenRegion};
ghost use Rattle.name_events.specs.declared.declaration.Declaration.{Declaration};
ghost use Rattle.name_events.specs.Declarations.{added_name, added_number, declared_in, has_name, is_package};
ghost use Rattle.name_events.specs.Known.{Known, here, part_here, region_of, seen, selected_along};
ghost use Rattle.name_events.specs.KnownBehind.{begin_package, begin_unit, behind_declaration, declare, end_in, known_behind, named_in_use, named_in_with, new_entry, open_body, open_region, selectors_of, turned_private};
ghost use Rattle.name_events.specs.Completions.{completed_by};
ghost use Rattle.name_resolve.specs.Stands.{DeclarationsStand, RegionsAre, Stands, WithsStand};

use crate::contexts::Given;
use crate::declarations::Declarations;
use crate::form::is_package;
use crate::knowledge::Knowledge;
use crate::region_sets::regions_of;
use crate::regions::Regions;
use crate::withs::Withs;
use indexmap::IndexSet;
use name_events::{
    Clause, Declaration, DeclarationForm, Event, FoldedIdentifier, FoldedName, RegionPart,
};
use spark_base::Pos;
use std::alloc::AllocError;

/// The number of a declaration, where there is one.
fn number_of(found: Option<Declaration>) -> Option<usize>
    ensures { result ≡ option_map (λ d. d.number) found }
{
    match found {
        None => None,
        Some(declaration) => Some(declaration.number),
    }
}

/// The declaration of a name in a package.
fn member(
    declarations: &Declarations,
    holder: Declaration,
    id: &FoldedIdentifier,
) -> Option<Declaration>
    ensures { (now : Known) → DeclarationsStand declarations.now now
        → result ≡ (if is_package holder then declared_in now.ended holder.own_region id.now.name else None) }
{
    if is_package(holder) {
        declarations.ended_in(holder.own_region, &id.name)
    } else {
        None
    }
}

/// Adds what a name in a `with` names, whose front denotes this declaration, or nothing.
fn add_named(
    withs: &mut Withs,
    declarations: &Declarations,
    found: Option<Declaration>,
    rest: &[FoldedIdentifier],
) -> Result<(), AllocError>
    ensures { OnOk result ((now : Known) (numbers : List ℕ) → DeclarationsStand declarations.now now → WithsStand withs.old numbers
        → WithsStand withs.new (numbers ++ named_in_with now.ended found (map (λ id. id.name) rest.now))) }
{
    let Some(declaration) = found else {
        return Ok(());
    };
    withs.add(declaration.number)?;
    let Some((next, behind)) = rest.split_first() else {
        return Ok(());
    };
    let inner = member(declarations, declaration, next);
    add_named(withs, declarations, inner, behind)?;
    Ok(())
}

/// A `use` clause names what was found, if it is a package.
fn use_found(regions: &mut Regions, found: Option<Declaration>) -> Result<(), AllocError>
    ensures { OnOk result ((count : ℕ) (enclosing : List OpenRegion) (clauses : List (ℕ × ℕ)) (packages : List ℕ) → RegionsAre regions.old count enclosing clauses packages
        → RegionsAre regions.new count enclosing clauses (packages ++ named_in_use clause.Use found)) }
{
    let Some(declaration) = found else {
        return Ok(());
    };
    if is_package(declaration) {
        regions.use_package(declaration.number)?;
    }
    Ok(())
}

impl Knowledge {
    /// A unit begins, which is the body of this package, or of none.
    fn begin_unit(&mut self, body_of: Option<Declaration>) -> Result<(), AllocError>
        ensures { OnOk result ((now : Known) → Stands self.old now → Stands self.new (begin_unit now body_of)) }
    {
        self.regions.begin_unit(self.contexts.given_to(body_of)?)?;
        self.withs.begin_unit(self.contexts.given_to(body_of)?);
        self.used.begin_unit(self.contexts.given_to(body_of)?)?;
        self.own_package = number_of(body_of);
        self.in_own_body = false;
        Ok(())
    }

    /// The unit has a `with` of this name.
    fn add_with(&mut self, name: &FoldedName) -> Result<(), AllocError>
        ensures { OnOk result ((now : Known) → Stands self.old now → Stands self.new (record now {
          withs = now.withs ++ named_in_with now.ended (declared_in now.ended 0 name.now.first.name) (selectors_of name.now);
        })) }
    {
        let found = self.declarations.ended_in(0, &name.first.name);
        add_named(
            &mut self.withs,
            &self.declarations,
            found,
            name.rest.as_slice(),
        )?;
        Ok(())
    }

    /// The declaration that a name with these selectors denotes.
    fn selected_along(
        &self,
        found: Option<Declaration>,
        rest: &[FoldedIdentifier],
    ) -> Option<Declaration>
        ensures { (now : Known) → Stands self.now now → result ≡ selected_along now found (map (λ id. id.name) rest.now) }
    {
        match found {
            None => None,
            Some(declaration) => match rest.split_first() {
                None => Some(declaration),
                Some((next, behind)) => {
                    if is_package(declaration) {
                        self.selected_along(self.selected(declaration, &next.name), behind)
                    } else {
                        None
                    }
                }
            },
        }
    }

    /// A `use` clause names this.
    fn use_name(&mut self, name: &FoldedName) -> Result<(), AllocError>
        ensures { OnOk result ((now : Known) → Stands self.old now → Stands self.new (record now {
          using = now.using ++ named_in_use clause.Use (selected_along now (seen now name.now.first.name) (selectors_of name.now));
        })) }
    {
        let first = self.seen(&name.first.name);
        let found = self.selected_along(first, name.rest.as_slice());
        use_found(&mut self.regions, found)?;
        Ok(())
    }

    /// A name is used.
    fn mention(&mut self, clause: Clause, name: &FoldedName) -> Result<(), AllocError>
        ensures { OnOk result ((now : Known) → Stands self.old now → Stands self.new (record now {
          using = now.using ++ named_in_use clause (selected_along now (seen now name.now.first.name) (selectors_of name.now));
        })) }
    {
        match clause {
            Clause::Use => Ok(self.use_name(name)?),
            Clause::With => Ok(()),
            Clause::UseType => Ok(()),
            Clause::Elsewhere => Ok(()),
        }
    }

    /// A package begins: its body will have what the context gives.
    fn begin_package(&mut self) -> Result<(), AllocError>
        ensures { OnOk result ((now : Known) → Stands self.old now → Stands self.new (begin_package now (length now.declared))) }
    {
        let number = self.declarations.all.len();
        let withs = self.withs.all()?;
        let uses = self.regions.context_uses()?;
        let regions = regions_of(self.alloc, &self.declarations.all, &uses)?;
        let given = Given {
            withs,
            uses,
            regions,
        };
        self.contexts.add(number, given)?;
        self.own_package = Some(number);
        Ok(())
    }

    /// A declaration at this point.
    fn declaration_here(&self, form: DeclarationForm, pos: Pos) -> Declaration
        ensures { (now : Known) → Stands self.now now → result ≡ record {
          number = length now.declared;
          pos = pos;
          form = form;
          region = here now;
          part = part_here now;
          own_region = now.region_count;
        } }
    {
        let inner = self.regions.here();
        Declaration {
            number: self.declarations.all.len(),
            pos,
            form,
            region: inner.region,
            part: inner.part,
            own_region: self.regions.count,
        }
    }

    /// An identifier is declared here.
    fn declare(&mut self, form: DeclarationForm, id: &FoldedIdentifier) -> Result<(), AllocError>
        ensures { OnOk result ((now : Known) → Stands self.old now → Stands self.new (declare now (new_entry now form id.now))) }
    {
        let declaration = self.declaration_here(form, id.pos);
        self.declarations.declare(&id.name, declaration)?;
        Ok(())
    }

    /// An identifier that completes nothing is declared here.
    fn enter(&mut self, form: DeclarationForm, id: &FoldedIdentifier) -> Result<(), AllocError>
        ensures { OnOk result ((now : Known) → Stands self.old now → Stands self.new (behind_declaration now form id.now None)) }
    {
        match form {
            DeclarationForm::Package => {
                self.begin_package()?;
                Ok(self.declare(DeclarationForm::Package, id)?)
            }
            _ => Ok(self.declare(form, id)?),
        }
    }

    /// A declaration is completed.
    fn complete(&mut self, number: usize) -> Result<(), AllocError>
        ensures { OnOk result ((now : Known) → Stands self.old now → Stands self.new (record now { completed = added_number now.completed number })) }
    {
        self.declarations.complete(number)?;
        Ok(())
    }

    /// An identifier is declared.
    fn add_declaration(
        &mut self,
        form: DeclarationForm,
        id: &FoldedIdentifier,
    ) -> Result<(), AllocError>
        ensures { OnOk result ((now : Known) → Stands self.old now
            → Stands self.new (behind_declaration now form id.now (completed_by now form id.now.name))) }
    {
        match self.completed_by(form, &id.name) {
            None => Ok(self.enter(form, id)?),
            Some(completed) => Ok(self.complete(completed.number)?),
        }
    }

    /// The declarations of a region that haven't ended end here.
    fn end_in(&mut self, region: usize) -> Result<(), AllocError>
        ensures { OnOk result ((now : Known) → Stands self.old now → Stands self.new (end_in region now)) }
    {
        self.declarations.end(region)?;
        Ok(())
    }

    /// The declarations of the innermost region end.
    fn end_here(&mut self) -> Result<(), AllocError>
        ensures { OnOk result ((now : Known) → Stands self.old now → Stands self.new (end_in (here now) now)) }
    {
        let region = self.regions.here().region;
        self.end_in(region)?;
        Ok(())
    }

    /// The declarations of the region around it end.
    fn end_outer(&mut self) -> Result<(), AllocError>
        ensures { OnOk result ((now : Known) → Stands self.old now → Stands self.new (end_in (region_of (drop 1 now.open_regions)) now)) }
    {
        let region = self.regions.outer();
        self.end_in(region)?;
        Ok(())
    }

    /// A region begins.
    fn open_region(&mut self) -> Result<(), AllocError>
        ensures { OnOk result ((now : Known) → Stands self.old now → Stands self.new (open_region now)) }
    {
        self.regions.open(RegionPart::Visible)?;
        Ok(())
    }

    /// A package body begins whose specification doesn't stand earlier: it has a region of its own.
    fn open_own_body(&mut self, id: &FoldedIdentifier) -> Result<(), AllocError>
        ensures { OnOk result ((now : Known) → Stands self.old now → Stands self.new (open_body now id.now None)) }
    {
        self.body_names.insert(id.name.clone()?)?;
        self.regions.open(RegionPart::Body)?;
        Ok(())
    }

    /// The region of a package goes on in its body.
    fn reopen(&mut self, id: &FoldedIdentifier, spec: Declaration) -> Result<(), AllocError>
        ensures { OnOk result ((now : Known) → Stands self.old now → Stands self.new (open_body now id.now (Some spec))) }
    {
        self.in_own_body = !self.body_names.contains(&id.name);
        self.body_names.insert(id.name.clone()?)?;
        self.regions.reopen(spec.own_region)?;
        Ok(())
    }

    /// A package body begins.
    fn open_body(
        &mut self,
        id: &FoldedIdentifier,
        spec: Option<Declaration>,
    ) -> Result<(), AllocError>
        ensures { OnOk result ((now : Known) → Stands self.old now → Stands self.new (open_body now id.now spec)) }
    {
        match spec {
            None => self.open_own_body(id),
            Some(declaration) => self.reopen(id, declaration),
        }
    }

    /// The components of a record begin. The table is another one: to clear it would take the time
    /// of the largest record so far.
    fn begin_record(&mut self)
        ensures { (now : Known) → Stands self.old now → Stands self.new (record now { components = [] }) }
    {
        self.components = IndexSet::new(self.alloc);
    }

    /// A component is declared.
    fn add_component(&mut self, id: &FoldedIdentifier) -> Result<(), AllocError>
        ensures { OnOk result ((now : Known) → Stands self.old now → Stands self.new (record now { components = added_name now.components id.now.name })) }
    {
        self.components.insert(id.name.clone()?)?;
        Ok(())
    }

    /// A `use` clause ends.
    fn end_use_clause(&mut self) -> Result<(), AllocError>
        ensures { OnOk result ((now : Known) → Stands self.old now → Stands self.new (record now {
          uses = now.uses ++ map (λ p. (here now, p)) now.using;
          using = [];
        })) }
    {
        let region = self.regions.here().region;
        let packages = self.regions.named.as_slice();
        self.used
            .end_use_clause(region, &self.declarations.all, packages)?;
        self.regions.end_use_clause()?;
        Ok(())
    }

    /// The private part of a package begins.
    fn turn_private(&mut self) -> Result<(), AllocError>
        ensures { OnOk result ((now : Known) → Stands self.old now → Stands self.new (record now { open_regions = turned_private now.open_regions })) }
    {
        self.regions.turn_private()?;
        Ok(())
    }

    /// The innermost region closes.
    fn close_region(&mut self)
        ensures { (now : Known) → Stands self.old now → Stands self.new (record now { open_regions = drop 1 now.open_regions }) }
    {
        self.regions.close();
    }

    /// Goes on after an event.
    #[tactic(auto, unfolding(name_events::specs::KnownBehind::known_behind))]
    pub fn learn(&mut self, event: &Event) -> Result<(), AllocError>
        ensures { OnOk result ((now : Known) → Stands self.old now → Stands self.new (known_behind now event.now)) }
    {
        match event {
            Event::UnitBegins { body_of } => self.begin_unit(self.package_named(body_of)),
            Event::UnitHasWith { name } => self.add_with(name),
            Event::Mentions { clause, name } => self.mention(*clause, name),
            Event::UseClauseEnds => self.end_use_clause(),
            Event::Declares { form, identifier } => self.add_declaration(*form, identifier),
            Event::DeclarationsEnd => self.end_here(),
            Event::OuterDeclarationsEnd => self.end_outer(),
            Event::RegionOpens => self.open_region(),
            Event::PackageBodyOpens { identifier } => {
                self.open_body(identifier, self.source_package(identifier))
            }
            Event::PrivatePartBegins => self.turn_private(),
            Event::RegionCloses => {
                self.close_region();
                Ok(())
            }
            Event::RecordBegins => {
                self.begin_record();
                Ok(())
            }
            Event::DeclaresComponent { identifier } => self.add_component(identifier),
            Event::EndsWithName { .. } => Ok(()),
        }
    }
}
