//! The walk through the code that declares objects.
ghost use Rattle.std.specs.Prelude.{◌≡◌, ◌<◌, ◌+◌, [], ◌∷◌, ◌++◌, IfOk, OnOk, None, Some, flat_map, length};
ghost use Rattle.resolved_tree.specs.Nodes.{code_at};
ghost use Rattle.type_definitions.specs.Gathered.{declared_number, declared_text};
ghost use Rattle.typed_tree.specs.Statements.{scope_count};
ghost use Rattle.typed_tree.specs.Programs.{formals_of, front_formals, object_of, objects_of, package_text};
ghost use Rattle.typed_objects.specs.Walks.{declared_in, home_of, units_of, Adds, IsReady};

use crate::declared::{declared_number, declared_text};
use crate::declared_objects::{DeclaredObjects, entry_kind, object_type};
use ada_tree::Word;
use place_names::Mode;
use resolved_tree::{CodeNode, Rows};
use spark_base::Listed;
use std::alloc::{AllocError, Global};
use type_definitions::Known;
use typed_tree::Object;

/// What the walk goes through, and what it looks up.
#[derive(Clone, Copy)]
pub struct Walk<'p> {
    /// Where memory comes from.
    pub alloc: Global,
    /// The code.
    pub rows: &'p Rows,
    /// What is known of the declarations.
    pub known: &'p Known,
    /// The units.
    pub units: &'p [usize],
    /// By the number of a package, the identifier in its specification.
    pub packages: &'p [Option<usize>],
}

/// The number of the scope that begins after another.
fn following(scope: u32) -> Result<u32, AllocError>
    ensures { IfOk result (λ n. n ≡ scope + 1) }
{
    match scope.checked_add(1) {
        Some(next) => Ok(next),
        None => Err(AllocError),
    }
}

/// A copy of the identifier of a package, where there is one.
fn copied(identifier: &Option<Word>) -> Result<Option<Word>, AllocError>
    ensures { IfOk result (λ copy. copy ≡ identifier.now) }
{
    match identifier {
        Some(word) => Ok(Some(word.clone()?)),
        None => Ok(None),
    }
}

impl<'p> Walk<'p> {
    /// How a package is called in its specification.
    fn package_text(&self, number: u32) -> Result<Word, AllocError>
        requires { IsReady self.now }
        ensures { IfOk result (λ word. word ≡ package_text (units_of self.now) number) }
    {
        match self.packages.get(number as usize) {
            Some(Some(name)) => declared_text(self.alloc, self.rows, *name),
            _ => Ok(Word::from_listed(Listed::new(self.alloc))),
        }
    }

    /// The object that an identifier declares.
    fn object(
        &self,
        home: &Option<Word>,
        scope: u32,
        mode: Mode,
        name: usize,
    ) -> Result<Object, AllocError>
        requires { name < length self.now.rows.now.1 }
        ensures { IfOk result (λ made. made ≡ (object_of (home_of self.now home.now) scope mode (code_at self.now.rows.now name)).object) }
    {
        let number = declared_number(self.rows, name);
        let text = declared_text(self.alloc, self.rows, name)?;
        Ok(Object {
            name: text,
            package: copied(home)?,
            of: object_type(self.known, number),
            kind: entry_kind(self.known, number),
            mode,
            scope,
        })
    }

    /// Adds the object that an identifier declares.
    fn add(
        &self,
        home: &Option<Word>,
        scope: u32,
        mode: Mode,
        name: usize,
        found: &mut DeclaredObjects,
    ) -> Result<(), AllocError>
        requires { name < length self.now.rows.now.1 }
        ensures { OnOk result (Adds found.old (object_of (home_of self.now home.now) scope mode (code_at self.now.rows.now name) ∷ []) found.new) }
    {
        found.objects.push(self.object(home, scope, mode, name)?)?;
        found.numbers.push(declared_number(self.rows, name))
    }

    /// Adds the objects that a list of identifiers declares.
    fn add_all(
        &self,
        home: &Option<Word>,
        scope: u32,
        mode: Mode,
        names: usize,
        found: &mut DeclaredObjects,
    ) -> Result<(), AllocError>
        requires { names < length self.now.rows.now.1 }
        ensures { OnOk result (Adds found.old (objects_of (home_of self.now home.now) scope mode (code_at self.now.rows.now names)) found.new) }
    {
        let mut i = names;
        'names: while let CodeNode::More { first, rest } = self.rows.code(i) {
            self.add(home, scope, mode, *first, found)?;
            i = *rest;
        }
        Ok(())
    }

    /// Adds the formals of a declaration of formals.
    fn formal_group(
        &self,
        home: &Option<Word>,
        scope: u32,
        group: usize,
        found: &mut DeclaredObjects,
    ) -> Result<(), AllocError>
        requires { group < length self.now.rows.now.1 }
        ensures { OnOk result (Adds found.old (formals_of (home_of self.now home.now) scope (code_at self.now.rows.now group)) found.new) }
    {
        match self.rows.code(group) {
            CodeNode::Formals { names, mode, .. } => {
                self.add_all(home, scope, *mode, *names, found)
            }
            _ => Ok(()),
        }
    }

    /// Adds the formals of a front.
    fn formals(
        &self,
        home: &Option<Word>,
        scope: u32,
        front: usize,
        found: &mut DeclaredObjects,
    ) -> Result<(), AllocError>
        requires { front < length self.now.rows.now.1 }
        ensures { OnOk result (Adds found.old (flat_map (formals_of (home_of self.now home.now) scope) (front_formals (code_at self.now.rows.now front))) found.new) }
    {
        let CodeNode::Front { formals, .. } = self.rows.code(front) else {
            return Ok(());
        };
        let mut i = *formals;
        'groups: while let CodeNode::More { first, rest } = self.rows.code(i) {
            self.formal_group(home, scope, *first, found)?;
            i = *rest;
        }
        Ok(())
    }

    /// One part of code, and another after it.
    #[cycle(walk)]
    fn both(
        &self,
        home: &Option<Word>,
        scope: u32,
        next: u32,
        first: usize,
        second: usize,
        found: &mut DeclaredObjects,
    ) -> Result<u32, AllocError>
        requires ready { IsReady self.now }
        requires first { first < length self.now.rows.now.1 }
        requires second { second < length self.now.rows.now.1 }
        ensures added { OnOk result (Adds found.old (declared_in self.now home.now scope next first
            ++ declared_in self.now home.now scope (next + scope_count (code_at self.now.rows.now first)) second) found.new) }
        ensures next { IfOk result (λ n. n
            ≡ next + (scope_count (code_at self.now.rows.now first) + scope_count (code_at self.now.rows.now second))) }
    {
        let between = self.within(home, scope, next, first, found)?;
        self.within(home, scope, between, second, found)
    }

    /// The body of a subprogram. Its formals have its scope, as what it declares.
    #[cycle(walk)]
    fn body(
        &self,
        next: u32,
        front: usize,
        items: usize,
        stmts: usize,
        found: &mut DeclaredObjects,
    ) -> Result<u32, AllocError>
        requires ready { IsReady self.now }
        requires front { front < length self.now.rows.now.1 }
        requires items { items < length self.now.rows.now.1 }
        requires stmts { stmts < length self.now.rows.now.1 }
        ensures added { OnOk result (Adds found.old (flat_map (formals_of (home_of self.now None) next) (front_formals (code_at self.now.rows.now front))
            ++ declared_in self.now None next (next + 1) items
            ++ declared_in self.now None next (next + 1 + scope_count (code_at self.now.rows.now items)) stmts) found.new) }
        ensures next { IfOk result (λ n. n
            ≡ next + (1 + (scope_count (code_at self.now.rows.now items) + scope_count (code_at self.now.rows.now stmts)))) }
    {
        let inner = following(next)?;
        self.formals(&None, next, front, found)?;
        self.both(&None, next, inner, items, stmts, found)
    }

    /// A `for` loop. Its parameter has the scope of the loop.
    #[cycle(walk)]
    fn for_loop(
        &self,
        home: &Option<Word>,
        next: u32,
        parameter: usize,
        stmts: usize,
        found: &mut DeclaredObjects,
    ) -> Result<u32, AllocError>
        requires ready { IsReady self.now }
        requires parameter { parameter < length self.now.rows.now.1 }
        requires stmts { stmts < length self.now.rows.now.1 }
        ensures added { OnOk result (Adds found.old (object_of (home_of self.now home.now) next Mode.In (code_at self.now.rows.now parameter)
            ∷ declared_in self.now home.now next (next + 1) stmts) found.new) }
        ensures next { IfOk result (λ n. n ≡ next + (1 + scope_count (code_at self.now.rows.now stmts))) }
    {
        let inner = following(next)?;
        self.add(home, next, Mode::In, parameter, found)?;
        self.within(home, next, inner, stmts, found)
    }

    /// A block.
    #[cycle(walk)]
    fn block(
        &self,
        home: &Option<Word>,
        next: u32,
        items: usize,
        stmts: usize,
        found: &mut DeclaredObjects,
    ) -> Result<u32, AllocError>
        requires ready { IsReady self.now }
        requires items { items < length self.now.rows.now.1 }
        requires stmts { stmts < length self.now.rows.now.1 }
        ensures added { OnOk result (Adds found.old (declared_in self.now home.now next (next + 1) items
            ++ declared_in self.now home.now next (next + 1 + scope_count (code_at self.now.rows.now items)) stmts) found.new) }
        ensures next { IfOk result (λ n. n
            ≡ next + (1 + (scope_count (code_at self.now.rows.now items) + scope_count (code_at self.now.rows.now stmts)))) }
    {
        let inner = following(next)?;
        self.both(home, next, inner, items, stmts, found)
    }

    /// The specification of a package.
    #[cycle(walk)]
    fn package(
        &self,
        scope: u32,
        next: u32,
        name: usize,
        visible: usize,
        hidden: usize,
        found: &mut DeclaredObjects,
    ) -> Result<u32, AllocError>
        requires ready { IsReady self.now }
        requires name { name < length self.now.rows.now.1 }
        requires visible { visible < length self.now.rows.now.1 }
        requires hidden { hidden < length self.now.rows.now.1 }
        ensures added { OnOk result (Adds found.old (declared_in self.now (Some (declared_text (code_at self.now.rows.now name))) scope next visible
            ++ declared_in self.now (Some (declared_text (code_at self.now.rows.now name))) scope
            (next + scope_count (code_at self.now.rows.now visible)) hidden) found.new) }
        ensures next { IfOk result (λ n. n
            ≡ next + (scope_count (code_at self.now.rows.now visible) + scope_count (code_at self.now.rows.now hidden))) }
    {
        let home = Some(declared_text(self.alloc, self.rows, name)?);
        self.both(&home, scope, next, visible, hidden, found)
    }

    /// The body of a package, which is called as in its specification.
    #[cycle(walk)]
    fn package_body(
        &self,
        scope: u32,
        next: u32,
        name: usize,
        parts: usize,
        found: &mut DeclaredObjects,
    ) -> Result<u32, AllocError>
        requires ready { IsReady self.now }
        requires name { name < length self.now.rows.now.1 }
        requires parts { parts < length self.now.rows.now.1 }
        ensures added { OnOk result (Adds found.old (declared_in self.now
            (Some (package_text (units_of self.now) (declared_number (code_at self.now.rows.now name)))) scope next parts) found.new) }
        ensures next { IfOk result (λ n. n ≡ next + scope_count (code_at self.now.rows.now parts)) }
    {
        let home = Some(self.package_text(declared_number(self.rows, name))?);
        self.within(&home, scope, next, parts, found)
    }

    /// A declaration or statement.
    #[cycle(walk)]
    #[tactic(auto, unfolding(typed_tree::specs::Programs::objects_in, typed_tree::specs::Statements::scope_count))]
    fn one(
        &self,
        home: &Option<Word>,
        scope: u32,
        next: u32,
        code: usize,
        found: &mut DeclaredObjects,
    ) -> Result<u32, AllocError>
        requires ready { IsReady self.now }
        requires code { code < length self.now.rows.now.1 }
        ensures added { OnOk result (Adds found.old (declared_in self.now home.now scope next code) found.new) }
        ensures next { IfOk result (λ n. n ≡ next + scope_count (code_at self.now.rows.now code)) }
    {
        match self.rows.code(code) {
            CodeNode::Objects { names, .. } | CodeNode::Numbers { names, .. } => {
                self.add_all(home, scope, Mode::In, *names, found)?;
                Ok(next)
            }
            CodeNode::SubBody {
                front,
                items,
                stmts,
                ..
            } => self.body(next, *front, *items, *stmts, found),
            CodeNode::Package {
                name,
                visible,
                hidden,
            } => self.package(scope, next, *name, *visible, *hidden, found),
            CodeNode::PackageBody { name, parts } => {
                self.package_body(scope, next, *name, *parts, found)
            }
            CodeNode::For {
                parameter,
                stmts,
                ..
            } => self.for_loop(home, next, *parameter, *stmts, found),
            CodeNode::Block { items, stmts, .. } => self.block(home, next, *items, *stmts, found),
            CodeNode::If {
                branches: first,
                otherwise: second,
                ..
            }
            | CodeNode::More {
                first,
                rest: second,
            } => self.both(home, scope, next, *first, *second, found),
            CodeNode::Case {
                alternatives: inner,
                ..
            }
            | CodeNode::Branch { stmts: inner, .. }
            | CodeNode::When { stmts: inner, .. }
            | CodeNode::Loop { stmts: inner, .. }
            | CodeNode::While { stmts: inner, .. } => self.within(home, scope, next, *inner, found),
            _ => Ok(next),
        }
    }

    /// Adds the objects that code within a scope declares, in the order of their identifiers. Gives
    /// the number of the next scope that begins. A list is gone along, so that the depth of calls
    /// is that of nesting.
    #[cycle(walk)]
    #[tactic(auto, unfolding(typed_tree::specs::Programs::objects_in, typed_tree::specs::Statements::scope_count))]
    pub fn within(
        &self,
        home: &Option<Word>,
        scope: u32,
        next: u32,
        code: usize,
        found: &mut DeclaredObjects,
    ) -> Result<u32, AllocError>
        requires ready { IsReady self.now }
        requires code { code < length self.now.rows.now.1 }
        ensures added { OnOk result (Adds found.old (declared_in self.now home.now scope next code) found.new) }
        ensures next { IfOk result (λ n. n ≡ next + scope_count (code_at self.now.rows.now code)) }
    {
        let mut next = next;
        let mut i = code;
        'parts: while let CodeNode::More { first, rest } = self.rows.code(i) {
            next = self.one(home, scope, next, *first, found)?;
            i = *rest;
        }
        self.one(home, scope, next, i, found)
    }
}
