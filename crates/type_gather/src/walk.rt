//! The walk through declarations and statements.
ghost use Rattle.std.specs.Prelude.{◌≡◌, ◌<◌, length, IsTrue, OnOk};
ghost use Rattle.resolved_tree.specs.Nodes.{code_at, tree_at};
ghost use Rattle.resolved_tree.specs.Trees.{Package};
ghost use Rattle.type_definitions.specs.Gathered.{declared_number, gather, in_hidden, in_no_package, in_subprogram, instance_type, parameter_type, plain_object, with_body_front, with_entry};
ghost use Rattle.type_gather.specs.Gathering.{context, declares_nothing, declares_object, declares_type, declares_unit};

use crate::declared::declared_number;
use crate::gathering::Gathering;
use crate::instance::instance_type;
use crate::subprograms::{front_number, plain_object};
use resolved_tree::{CodeNode, Rows};
use std::alloc::AllocError;
use type_definitions::{Entry, Kind};

impl Gathering {
    /// A declaration of a type or a subtype.
    fn type_declaration(&mut self, rows: &Rows, code: usize) -> Result<(), AllocError>
        requires { code < length rows.now.1 }
        ensures { OnOk result (IsTrue (declares_type (code_at rows.now code)) → context self.new ≡ gather (code_at rows.now code) (context self.old)) }
    {
        match rows.code(code) {
            CodeNode::Incomplete { name } => {
                self.incomplete(rows, *name);
                Ok(())
            }
            CodeNode::Private { name } => {
                self.private_type(rows, *name);
                Ok(())
            }
            CodeNode::TypeDecl {
                name,
                definition,
                end,
            } => self.full_type(rows, *name, *definition, *end),
            CodeNode::Subtype { name, mark } => {
                self.subtype(rows, *name, *mark);
                Ok(())
            }
            CodeNode::ConstrainedSubtype {
                name,
                mark,
                low,
                high,
            } => {
                self.constrained_subtype(rows, *name, *mark, *low, *high);
                Ok(())
            }
            _ => Ok(()),
        }
    }

    /// An instance.
    fn instance(&mut self, rows: &Rows, name: usize, args: usize)
        requires name { name < length rows.now.1 }
        requires args { args < length rows.now.0 }
        ensures { context self.new ≡ with_entry (declared_number (code_at rows.now name)) (Entry.Instance (instance_type (tree_at rows.now args))) (context self.old) }
    {
        let number = declared_number(rows, name);
        let name = instance_type(rows, args);
        self.with_entry(number, Entry::Instance { name });
    }

    /// A declaration of objects, of named numbers, or an instance.
    #[tactic(auto, unfolding(type_definitions::specs::Gathered::gather))]
    fn object_declaration(&mut self, rows: &Rows, code: usize)
        requires { code < length rows.now.1 }
        ensures { IsTrue (declares_object (code_at rows.now code)) → context self.new ≡ gather (code_at rows.now code) (context self.old) }
    {
        match rows.code(code) {
            CodeNode::Objects {
                names,
                constant,
                of,
                value,
            } => self.objects(rows, *names, *constant, *of, *value),
            CodeNode::Numbers { names, value } => self.numbers(rows, *names, *value),
            CodeNode::Instance { name, args, .. } => self.instance(rows, *name, *args),
            _ => {}
        }
    }

    /// The body of a subprogram.
    #[cycle(walk)]
    fn body(
        &mut self,
        rows: &Rows,
        front: usize,
        items: usize,
        stmts: usize,
    ) -> Result<(), AllocError>
        requires front { front < length rows.now.1 }
        requires items { items < length rows.now.1 }
        requires stmts { stmts < length rows.now.1 }
        ensures { OnOk result (context self.new ≡ record (gather (code_at rows.now stmts)
            (gather (code_at rows.now items)
            (in_subprogram (code_at rows.now front) (with_body_front (code_at rows.now front) (context self.old))))) {
              sub = self.old.sub;
            }) }
    {
        let around = self.sub;
        self.with_body_front(rows, front)?;
        self.sub = Some(front_number(rows, front));
        self.gather(rows, items)?;
        self.gather(rows, stmts)?;
        self.sub = around;
        Ok(())
    }

    /// A specification of a package.
    #[cycle(walk)]
    #[tactic(auto, unfolding(type_definitions::specs::Gathered::gather))]
    fn package(
        &mut self,
        rows: &Rows,
        name: usize,
        visible: usize,
        hidden: usize,
    ) -> Result<(), AllocError>
        requires name { name < length rows.now.1 }
        requires visible { visible < length rows.now.1 }
        requires hidden { hidden < length rows.now.1 }
        ensures { OnOk result (context self.new ≡ gather (Package (code_at rows.now name) (code_at rows.now visible) (code_at rows.now hidden)) (context self.old)) }
    {
        let number = declared_number(rows, name);
        self.with_entry(number, Entry::Package);
        self.home = Some(number);
        self.gather(rows, visible)?;
        self.hidden(rows, number, hidden)
    }

    /// The private part or the body of a package.
    #[cycle(walk)]
    fn hidden(&mut self, rows: &Rows, number: u32, parts: usize) -> Result<(), AllocError>
        requires { parts < length rows.now.1 }
        ensures { OnOk result (context self.new ≡ in_no_package (gather (code_at rows.now parts) (in_hidden number (context self.old)))) }
    {
        self.home = Some(number);
        self.within = Some(number);
        self.gather(rows, parts)?;
        self.home = None;
        self.within = None;
        Ok(())
    }

    /// A declaration or body of a subprogram or a package.
    #[cycle(walk)]
    #[tactic(auto, unfolding(type_definitions::specs::Gathered::gather))]
    fn unit(&mut self, rows: &Rows, code: usize) -> Result<(), AllocError>
        requires { code < length rows.now.1 }
        ensures { OnOk result (IsTrue (declares_unit (code_at rows.now code)) → context self.new ≡ gather (code_at rows.now code) (context self.old)) }
    {
        match rows.code(code) {
            CodeNode::SubDecl { front } => self.with_front(rows, *front),
            CodeNode::SubBody {
                front,
                items,
                stmts,
                ..
            } => self.body(rows, *front, *items, *stmts),
            CodeNode::Package {
                name,
                visible,
                hidden,
            } => self.package(rows, *name, *visible, *hidden),
            CodeNode::PackageBody { name, parts } => {
                let number = declared_number(rows, *name);
                self.hidden(rows, number, *parts)
            }
            _ => Ok(()),
        }
    }

    /// A `for` loop.
    #[cycle(walk)]
    fn for_loop(
        &mut self,
        rows: &Rows,
        parameter: usize,
        range: usize,
        stmts: usize,
    ) -> Result<(), AllocError>
        requires parameter { parameter < length rows.now.1 }
        requires range { range < length rows.now.1 }
        requires stmts { stmts < length rows.now.1 }
        ensures { OnOk result (context self.new ≡ gather (code_at rows.now stmts)
            (with_entry (declared_number (code_at rows.now parameter))
            (Entry.Object (plain_object (parameter_type (context self.old) (code_at rows.now range)) Kind.Parameter))
            (context self.old))) }
    {
        let number = declared_number(rows, parameter);
        let object = plain_object(self.parameter_type(rows, range), Kind::Parameter);
        self.with_entry(number, Entry::Object { object });
        self.gather(rows, stmts)
    }

    /// One part of code, and another after it.
    #[cycle(walk)]
    fn both(&mut self, rows: &Rows, first: usize, second: usize) -> Result<(), AllocError>
        requires first { first < length rows.now.1 }
        requires second { second < length rows.now.1 }
        ensures { OnOk result (context self.new ≡ gather (code_at rows.now second) (gather (code_at rows.now first) (context self.old))) }
    {
        self.gather(rows, first)?;
        self.gather(rows, second)
    }

    /// A statement, a part of one, or a list.
    #[cycle(walk)]
    #[tactic(auto, unfolding(type_definitions::specs::Gathered::gather))]
    fn statement(&mut self, rows: &Rows, code: usize) -> Result<(), AllocError>
        requires { code < length rows.now.1 }
        ensures { OnOk result (IsTrue (declares_nothing (code_at rows.now code)) → context self.new ≡ gather (code_at rows.now code) (context self.old)) }
    {
        match rows.code(code) {
            CodeNode::If {
                branches,
                otherwise,
                ..
            } => self.both(rows, *branches, *otherwise),
            CodeNode::Block { items, stmts, .. } => self.both(rows, *items, *stmts),
            CodeNode::More { first, rest } => self.both(rows, *first, *rest),
            CodeNode::Case { alternatives, .. } => self.gather(rows, *alternatives),
            CodeNode::Branch { stmts, .. }
            | CodeNode::When { stmts, .. }
            | CodeNode::Loop { stmts, .. }
            | CodeNode::While { stmts, .. } => self.gather(rows, *stmts),
            CodeNode::For {
                parameter,
                range,
                stmts,
                ..
            } => self.for_loop(rows, *parameter, *range, *stmts),
            _ => Ok(()),
        }
    }

    /// One declaration or statement.
    #[cycle(walk)]
    fn one(&mut self, rows: &Rows, code: usize) -> Result<(), AllocError>
        requires { code < length rows.now.1 }
        ensures { OnOk result (context self.new ≡ gather (code_at rows.now code) (context self.old)) }
    {
        match rows.code(code) {
            CodeNode::Incomplete { .. }
            | CodeNode::Private { .. }
            | CodeNode::TypeDecl { .. }
            | CodeNode::Subtype { .. }
            | CodeNode::ConstrainedSubtype { .. } => self.type_declaration(rows, code),
            CodeNode::Objects { .. } | CodeNode::Numbers { .. } | CodeNode::Instance { .. } => {
                self.object_declaration(rows, code);
                Ok(())
            }
            CodeNode::SubDecl { .. }
            | CodeNode::SubBody { .. }
            | CodeNode::Package { .. }
            | CodeNode::PackageBody { .. } => self.unit(rows, code),
            _ => self.statement(rows, code),
        }
    }

    /// All of some code. A list is gone along, so that the depth of calls is that of nesting.
    #[cycle(walk)]
    #[tactic(auto, unfolding(type_definitions::specs::Gathered::gather))]
    pub fn gather(&mut self, rows: &Rows, code: usize) -> Result<(), AllocError>
        requires { code < length rows.now.1 }
        ensures { OnOk result (context self.new ≡ gather (code_at rows.now code) (context self.old)) }
    {
        let mut i = code;
        'parts: while let CodeNode::More { first, rest } = rows.code(i) {
            self.one(rows, *first)?;
            i = *rest;
        }
        self.one(rows, i)
    }
}
