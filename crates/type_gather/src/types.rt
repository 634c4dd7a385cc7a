//! Declarations of types and subtypes (Ada 2012, 3.2, 3.5 to 3.10 and 7.3).
ghost use Rattle.std.specs.Prelude.{◌≡◌, ◌<◌, ◌-◌, ◌++◌, length, IfOk, OnOk};
ghost use Rattle.resolved_tree.specs.Nodes.{code_at, tree_at};
ghost use Rattle.resolved_tree.specs.Trees.{Incomplete, Private, TypeDecl, Subtype, ConstrainedSubtype, Array};
ghost use Rattle.type_definitions.specs.Gathered.{component_group, component_groups, component_list, completion, defined, full_info, gather, has_bounds, subtype_info, texts, with_definition, with_literals};
ghost use Rattle.type_gather.specs.Gathering.{context};

use crate::bounds::constrained_shape;
use crate::declared::{declared_number, declared_pos, declared_text, texts};
use crate::gathering::Gathering;
use resolved_tree::{CodeNode, Mark, Rows};
use spark_base::{Listed, Pos};
use std::alloc::{AllocError, Global};
use type_definitions::{Component, Entry, Info, Shape};

/// Adds the components of a list of identifiers with one type.
fn component_group(
    alloc: Global,
    rows: &Rows,
    of: u32,
    names: usize,
    found: &mut Listed<Component>,
) -> Result<(), AllocError>
    requires { names < length rows.now.1 }
    ensures { OnOk result (found.new ≡ found.old ++ component_group of (code_at rows.now names)) }
{
    let mut i = names;
    'names: while let CodeNode::More { first, rest } = rows.code(i) {
        let name = declared_text(alloc, rows, *first)?;
        found.push(Component { name, of })?;
        i = *rest;
    }
    Ok(())
}

/// The definition of an enumeration with a list of literals.
fn enumeration(alloc: Global, rows: &Rows, literals: usize) -> Result<Shape, AllocError>
    requires { literals < length rows.now.1 }
    ensures { IfOk result (λ shape. shape ≡ Shape.Listed (texts (code_at rows.now literals)) 0 (length (texts (code_at rows.now literals)) - 1)) }
{
    let literals = texts(alloc, rows, literals)?;
    let last = literals.len().saturating_sub(1);
    if last > u32::MAX as usize {
        return Err(AllocError);
    }
    Ok(Shape::Listed {
        literals,
        low: 0,
        high: last as u32,
    })
}

/// Where a type ends that was declared as an incomplete one.
fn completion(before: Option<Pos>, end: Pos) -> Option<Pos>
    ensures { result ≡ completion before end }
{
    match before {
        None => None,
        Some(_) => Some(end),
    }
}

impl Gathering {
    /// Adds the components of a declaration of components.
    fn component_groups(
        &self,
        rows: &Rows,
        group: usize,
        found: &mut Listed<Component>,
    ) -> Result<(), AllocError>
        requires { group < length rows.now.1 }
        ensures { OnOk result (found.new ≡ found.old ++ component_groups self.now.known (code_at rows.now group)) }
    {
        let CodeNode::Components { names, mark } = rows.code(group) else {
            return Ok(());
        };
        let of = self.marked(rows, *mark);
        component_group(self.alloc, rows, of, *names, found)
    }

    /// The components of a record, in order.
    fn component_list(
        &self,
        rows: &Rows,
        components: usize,
    ) -> Result<Listed<Component>, AllocError>
        requires { components < length rows.now.1 }
        ensures { IfOk result (λ found. found ≡ component_list self.now.known (code_at rows.now components)) }
    {
        let mut found = Listed::new(self.alloc);
        let mut i = components;
        'groups: while let CodeNode::More { first, rest } = rows.code(i) {
            self.component_groups(rows, *first, &mut found)?;
            i = *rest;
        }
        Ok(found)
    }

    /// The definition of an array.
    fn array(&self, rows: &Rows, range: usize, mark: Mark) -> Shape
        requires { range < length rows.now.1 }
        ensures { result ≡ defined (context self.now) (Array (code_at rows.now range) mark) }
    {
        let (low, high) = self.array_bounds(rows, range);
        Shape::Elements {
            low,
            high,
            element: self.marked(rows, mark),
        }
    }

    /// The definition of a type.
    fn defined(&self, rows: &Rows, definition: usize) -> Result<Shape, AllocError>
        requires { definition < length rows.now.1 }
        ensures { IfOk result (λ shape. shape ≡ defined (context self.now) (code_at rows.now definition)) }
    {
        match rows.code(definition) {
            CodeNode::Enumeration { literals } => Ok(enumeration(self.alloc, rows, *literals)?),
            CodeNode::Record { components } => Ok(Shape::Fields {
                components: self.component_list(rows, *components)?,
            }),
            CodeNode::Array { range, mark } => Ok(self.array(rows, *range, *mark)),
            CodeNode::Access { mark } => Ok(Shape::Access {
                designated: self.marked(rows, *mark),
                constant: false,
                named: true,
            }),
            _ => Ok(Shape::Fields {
                components: Listed::new(self.alloc),
            }),
        }
    }

    /// Whether the bounds in a definition are known, where it has some.
    fn has_bounds(&self, rows: &Rows, definition: usize) -> bool
        requires { definition < length rows.now.1 }
        ensures { result ≡ has_bounds (context self.now) (code_at rows.now definition) }
    {
        match rows.code(definition) {
            CodeNode::Array { range, .. } => !self.is_asked(rows)
                || self.is_bounded_range(rows, *range),
            _ => true,
        }
    }

    /// Says what the literals of an enumeration are.
    fn with_literals(&mut self, rows: &Rows, of: u32, literals: usize) -> Result<(), AllocError>
        requires { literals < length rows.now.1 }
        ensures { OnOk result (context self.new ≡ with_literals of 0 (code_at rows.now literals) (context self.old)) }
    {
        let mut position = 0u32;
        let mut i = literals;
        'literals: while let CodeNode::More { first, rest } = rows.code(i) {
            let number = declared_number(rows, *first);
            self.with_entry(number, Entry::Literal { of, position });
            let Some(next) = position.checked_add(1) else {
                return Err(AllocError);
            };
            position = next;
            i = *rest;
        }
        Ok(())
    }

    /// Says what a definition of a type declares besides the type.
    fn with_definition(
        &mut self,
        rows: &Rows,
        number: u32,
        definition: usize,
    ) -> Result<(), AllocError>
        requires { definition < length rows.now.1 }
        ensures { OnOk result (context self.new ≡ with_definition number (code_at rows.now definition) (context self.old)) }
    {
        match rows.code(definition) {
            CodeNode::Enumeration { literals } => self.with_literals(rows, number, *literals),
            _ => Ok(()),
        }
    }

    /// What is known of a full type.
    fn full_info(
        &self,
        rows: &Rows,
        number: u32,
        definition: usize,
        end: Pos,
    ) -> Result<Info, AllocError>
        requires { definition < length rows.now.1 }
        ensures { IfOk result (λ info. info ≡ full_info (context self.now) number (code_at rows.now definition) end) }
    {
        let shape = self.defined(rows, definition)?;
        Ok(Info {
            shape,
            base: number,
            parent: None,
            seen_in: self.seen_in(number),
            completed: completion(self.completed(number), end),
            bounded: self.has_bounds(rows, definition),
        })
    }

    /// What is known of a subtype.
    fn subtype_info(&self, rows: &Rows, parent: u32, shape: Shape, bounded: bool) -> Info
        ensures { result ≡ subtype_info self.now.known parent shape bounded }
    {
        Info {
            shape,
            base: self.reader(rows).base(parent),
            parent: Some(parent),
            seen_in: None,
            completed: None,
            bounded,
        }
    }

    /// An incomplete type.
    #[tactic(auto, unfolding(type_definitions::specs::Gathered::gather))]
    pub fn incomplete(&mut self, rows: &Rows, name: usize)
        requires { name < length rows.now.1 }
        ensures { context self.new ≡ gather (Incomplete (code_at rows.now name)) (context self.old) }
    {
        let number = declared_number(rows, name);
        self.with_awaited(number, None, Some(declared_pos(rows, name)));
    }

    /// A private type.
    #[tactic(auto, unfolding(type_definitions::specs::Gathered::gather))]
    pub fn private_type(&mut self, rows: &Rows, name: usize)
        requires { name < length rows.now.1 }
        ensures { context self.new ≡ gather (Private (code_at rows.now name)) (context self.old) }
    {
        let number = declared_number(rows, name);
        self.with_awaited(number, self.home, None);
    }

    /// A full type.
    #[tactic(auto, unfolding(type_definitions::specs::Gathered::gather))]
    pub fn full_type(
        &mut self,
        rows: &Rows,
        name: usize,
        definition: usize,
        end: Pos,
    ) -> Result<(), AllocError>
        requires name { name < length rows.now.1 }
        requires definition { definition < length rows.now.1 }
        ensures { OnOk result (context self.new ≡ gather (TypeDecl (code_at rows.now name) (code_at rows.now definition) end) (context self.old)) }
    {
        let number = declared_number(rows, name);
        let info = self.full_info(rows, number, definition, end)?;
        self.with_type(number, info);
        self.with_definition(rows, number, definition)
    }

    /// A subtype without a constraint.
    #[tactic(auto, unfolding(type_definitions::specs::Gathered::gather))]
    pub fn subtype(&mut self, rows: &Rows, name: usize, mark: Mark)
        requires { name < length rows.now.1 }
        ensures { context self.new ≡ gather (Subtype (code_at rows.now name) mark) (context self.old) }
    {
        let number = declared_number(rows, name);
        let reader = self.reader(rows);
        let parent = reader.marked(mark);
        let of = reader.meant_type(parent);
        let info = self.subtype_info(rows, parent, Shape::Same { of }, true);
        self.with_type(number, info);
    }

    /// A subtype with bounds of its own.
    #[tactic(auto, unfolding(type_definitions::specs::Gathered::gather))]
    pub fn constrained_subtype(
        &mut self,
        rows: &Rows,
        name: usize,
        mark: Mark,
        low: usize,
        high: usize,
    )
        requires name { name < length rows.now.1 }
        requires low { low < length rows.now.0 }
        requires high { high < length rows.now.0 }
        ensures { context self.new ≡ gather (ConstrainedSubtype (code_at rows.now name) mark (tree_at rows.now low) (tree_at rows.now high)) (context self.old) }
    {
        let number = declared_number(rows, name);
        let reader = self.reader(rows);
        let parent = reader.marked(mark);
        let view = reader.full(parent);
        let base = reader.base(parent);
        let (first, last) = self.bound_pair(rows, base, low, high);
        let shape = constrained_shape(self.alloc, view, first, last);
        let bounded = !self.is_asked(rows) || self.are_static_bounds(rows, base, low, high);
        let info = self.subtype_info(rows, parent, shape, bounded);
        self.with_type(number, info);
    }
}
