//! Objects and named numbers (Ada 2012, 3.3 and 5.5).
ghost use Rattle.std.specs.Prelude.{◌≡◌, ◌<◌, length};
ghost use Rattle.resolved_tree.specs.Nodes.{code_at, tree_at};
ghost use Rattle.resolved_tree.specs.Trees.{Objects, Numbers};
ghost use Rattle.type_definitions.specs.Gathered.{constant_value, each, gather, initial_value, number_info, object_info, object_kind, parameter_type, with_number, with_object};
ghost use Rattle.type_definitions.specs.Statements.{type_or_integer};
ghost use Rattle.type_gather.specs.Gathering.{context};

use crate::declared::declared_number;
use crate::gathering::Gathering;
use expression_types::{INTEGER, is_scalar, value_as};
use resolved_tree::{CodeNode, Node, Rows};
use type_definitions::{Entry, InitialValue, Kind, ObjectInfo, Own};

/// Whether an object is a variable or a constant.
fn object_kind(constant: bool) -> Kind
    ensures { result ≡ object_kind constant }
{
    if constant {
        Kind::Constant
    } else {
        Kind::Variable
    }
}

/// A type that is known, or else Integer.
fn type_or_integer(own: Own) -> u32
    ensures { result ≡ type_or_integer own }
{
    match own {
        Own::Of { of } => of,
        _ => INTEGER,
    }
}

impl Gathering {
    /// What is known of an initial value.
    fn initial_value(&self, rows: &Rows, value: usize) -> InitialValue
        requires { value < length rows.now.0 }
        ensures { result ≡ initial_value (context self.now) (tree_at rows.now value) }
    {
        let reader = self.reader(rows);
        InitialValue {
            is_static: reader.is_static(value),
            value: reader.value(value),
        }
    }

    /// What is known of the initial value of constants. That of variables isn't looked at.
    fn constant_value(&self, rows: &Rows, constant: bool, value: usize) -> InitialValue
        requires { value < length rows.now.0 }
        ensures { result ≡ constant_value (context self.now) constant (tree_at rows.now value) }
    {
        match rows.node(value) {
            Node::More { first, .. } if constant => self.initial_value(rows, *first),
            _ => InitialValue {
                is_static: false,
                value: None,
            },
        }
    }

    /// What an object of a type is.
    fn object_info(&self, rows: &Rows, constant: bool, of: u32, initial: InitialValue) -> ObjectInfo
        ensures { result ≡ object_info (context self.now) constant of initial }
    {
        let reader = self.reader(rows);
        let scalar = is_scalar(reader.full(of));
        ObjectInfo {
            of,
            kind: object_kind(constant),
            in_package: self.sub.is_none(),
            is_static: scalar && initial.is_static,
            value: if scalar {
                value_as(reader.base(of), initial.value)
            } else {
                None
            },
        }
    }

    /// An object.
    fn with_object(
        &mut self,
        rows: &Rows,
        constant: bool,
        of: usize,
        initial: InitialValue,
        name: usize,
    )
        requires of { of < length rows.now.1 }
        requires name { name < length rows.now.1 }
        ensures { context self.new ≡ with_object constant (code_at rows.now of) initial (code_at rows.now name) (context self.old) }
    {
        let number = declared_number(rows, name);
        let indicated = self.indicated(rows, number, of);
        let object = self.object_info(rows, constant, indicated, initial);
        self.with_indication(rows, number, of);
        self.with_entry(number, Entry::Object { object });
    }

    /// The objects of a list of identifiers. Their initial value is looked at once.
    pub fn objects(&mut self, rows: &Rows, names: usize, constant: bool, of: usize, value: usize)
        requires names { names < length rows.now.1 }
        requires of { of < length rows.now.1 }
        requires value { value < length rows.now.0 }
        ensures { let shared = constant_value (context self.old) constant (tree_at rows.now value) in
            context self.new ≡ each (with_object constant (code_at rows.now of) shared) (code_at rows.now names) (context self.old) }
    {
        let shared = self.constant_value(rows, constant, value);
        let mut i = names;
        'names: while let CodeNode::More { first, rest } = rows.code(i) {
            self.with_object(rows, constant, of, shared, *first);
            i = *rest;
        }
    }

    /// What a named number is.
    fn number_info(&self, initial: InitialValue) -> ObjectInfo
        ensures { result ≡ number_info (context self.now) initial }
    {
        ObjectInfo {
            of: INTEGER,
            kind: Kind::Constant,
            in_package: self.sub.is_none(),
            is_static: initial.is_static,
            value: value_as(INTEGER, initial.value),
        }
    }

    /// A named number.
    fn with_number(&mut self, rows: &Rows, initial: InitialValue, name: usize)
        requires { name < length rows.now.1 }
        ensures { context self.new ≡ with_number initial (code_at rows.now name) (context self.old) }
    {
        let number = declared_number(rows, name);
        let object = self.number_info(initial);
        self.with_entry(number, Entry::Object { object });
    }

    /// The named numbers of a list of identifiers. Their value is looked at once.
    pub fn numbers(&mut self, rows: &Rows, names: usize, value: usize)
        requires names { names < length rows.now.1 }
        requires value { value < length rows.now.0 }
        ensures { let shared = initial_value (context self.old) (tree_at rows.now value) in
            context self.new ≡ each (with_number shared) (code_at rows.now names) (context self.old) }
    {
        let shared = self.initial_value(rows, value);
        let mut i = names;
        'names: while let CodeNode::More { first, rest } = rows.code(i) {
            self.with_number(rows, shared, *first);
            i = *rest;
        }
    }

    /// The type of the parameter of a `for` loop: that of the mark of its range, where one stands
    /// there, else the type of its bounds.
    pub fn parameter_type(&self, rows: &Rows, range: usize) -> u32
        requires { range < length rows.now.1 }
        ensures { result ≡ parameter_type (context self.now) (code_at rows.now range) }
    {
        let reader = self.reader(rows);
        match rows.code(range) {
            CodeNode::Bounds { low, .. } => reader.base(type_or_integer(reader.own_type(*low))),
            CodeNode::Marked { mark } => reader.marked(*mark),
            CodeNode::Constrained { mark, .. } => reader.marked(*mark),
            _ => INTEGER,
        }
    }
}
