//! The type of an expression, by itself and where one is demanded.
ghost use Rattle.std.specs.Prelude.{◌≡◌, ◌<◌, length};
ghost use Rattle.resolved_tree.specs.Nodes.{tree_at};
ghost use Rattle.type_definitions.specs.Entries.{entry_of};
ghost use Rattle.type_definitions.specs.Expressions.{own_of, own_type, is_of, is_object, is_unknown, is_demanding, is_string, is_access_place, is_access_name, is_null, scalar_own, one_type, compares, is_variable_kind, is_variable, is_traversal_call, allocates, fits, suits, traverses, reading_access};
ghost use Rattle.expression_types.specs.Here.{here};

use crate::look_up::{BOOLEAN, INTEGER};
use crate::operators::{is_equality, operator_gives, unary_type};
use crate::reader::Reader;
use crate::views::{designated, is_access, is_composite, is_scalar, to_constant};
use resolved_tree::{Mark, Node, Operator};
use type_definitions::{Entry, Kind, Own, Reading};

impl<'p> Reader<'p> {
    /// What type a name has by itself.
    pub fn own_of(&self, reading: Reading) -> Own
        ensures { result ≡ own_of self.now.known.now reading }
    {
        match reading {
            Reading::Off => Own::Unknown,
            Reading::Place { of } => Own::Of { of },
            Reading::Value { of, .. } => Own::Of { of },
            Reading::Call { function } => Own::Of {
                of: self.result_type(function),
            },
            Reading::Image { .. } => Own::Text,
            Reading::EndOfFile => Own::Of { of: BOOLEAN },
        }
    }

    /// What type an expression has by itself.
    #[tactic(auto, unfolding(type_definitions::specs::Expressions::own_type))]
    pub fn own_type(&self, e: usize) -> Own
        requires { e < length self.now.rows.now.0 }
        ensures { result ≡ own_type (here self.now) (tree_at self.now.rows.now e) }
    {
        match self.rows.node(e) {
            Node::Number { .. } => Own::Of { of: INTEGER },
            Node::Text { .. } => Own::Text,
            Node::Named { decl, rest, .. } => self.own_of(self.reading_of(*decl, *rest)),
            Node::Parens { inner, .. } => self.own_type(*inner),
            Node::Unary { operator, .. } => Own::Of {
                of: unary_type(*operator),
            },
            Node::Binary { operator, .. } => operator_gives(*operator),
            _ => Own::Demanding,
        }
    }

    /// Whether an expression with a type of its own has the type that is demanded, or its type isn't
    /// known.
    pub fn is_of(&self, want: u32, own: Own) -> bool
        ensures { result ≡ is_of self.now.known.now want own }
    {
        match own {
            Own::Unknown | Own::Demanding => true,
            Own::Text => false,
            Own::Of { of } => self.is_untyped(of) || self.base(of) == self.base(want),
        }
    }

    /// Whether the mark of an allocator is the designated type that is demanded.
    pub fn allocates(&self, want: u32, mark: Mark) -> bool
        ensures { result ≡ allocates (here self.now) want mark }
    {
        is_access(self.seen(want))
            && (!self.denotes_type(mark.decl)
                || self.is_same(self.marked(mark), designated(self.full(want))))
    }

    /// Whether an expression has the type that its position demands, or that type isn't known.
    pub fn suits(&self, want: u32, e: usize) -> bool
        requires { e < length self.now.rows.now.0 }
        ensures { result ≡ suits (here self.now) want (tree_at self.now.rows.now e) }
    {
        self.is_untyped(want) || self.fits(want, e)
    }

    /// Whether an expression has the type that its position demands.
    pub fn fits(&self, want: u32, e: usize) -> bool
        requires { e < length self.now.rows.now.0 }
        ensures { result ≡ fits (here self.now) want (tree_at self.now.rows.now e) }
    {
        match self.rows.node(e) {
            Node::Null { .. } => is_access(self.seen(want)),
            Node::Aggregate { .. } | Node::Others { .. } => is_composite(self.seen(want)),
            Node::New { mark, .. } => self.allocates(want, *mark),
            Node::Parens { inner, .. } => self.fits(want, *inner),
            _ => self.is_of(want, self.own_type(e)),
        }
    }

    /// Whether a type by itself isn't known.
    pub fn is_unknown(&self, own: Own) -> bool
        ensures { result ≡ is_unknown self.now.known.now own }
    {
        match own {
            Own::Unknown => true,
            Own::Of { of } => self.is_untyped(of),
            _ => false,
        }
    }

    /// Whether a type by itself is scalar.
    pub fn scalar_own(&self, own: Own) -> bool
        ensures { result ≡ scalar_own (here self.now) own }
    {
        match own {
            Own::Unknown => true,
            Own::Demanding | Own::Text => false,
            Own::Of { of } => self.is_untyped(of) || is_scalar(self.seen(of)),
        }
    }

    /// Whether two types by themselves are one.
    fn one_type(&self, a: Own, b: Own) -> bool
        ensures { result ≡ one_type self.now.known.now a b }
    {
        match (a, b) {
            (Own::Of { of: s }, Own::Of { of: t }) => {
                self.is_untyped(s) || self.is_untyped(t) || self.base(s) == self.base(t)
            }
            _ => true,
        }
    }

    /// Whether an expression is a name of an object of an access type.
    fn is_access_name(&self, e: usize) -> bool
        requires { e < length self.now.rows.now.0 }
        ensures { result ≡ is_access_name (here self.now) (tree_at self.now.rows.now e) }
    {
        let Node::Named { decl, rest, .. } = self.rows.node(e) else {
            return false;
        };
        match self.reading_of(*decl, *rest) {
            Reading::Place { of } => self.is_untyped(of) || is_access(self.seen(of)),
            Reading::Off => true,
            _ => false,
        }
    }

    /// Whether an expression is `null`.
    pub fn is_null(&self, e: usize) -> bool
        requires { e < length self.now.rows.now.0 }
        ensures { result ≡ is_null (tree_at self.now.rows.now e) }
    {
        matches!(self.rows.node(e), Node::Null { .. })
    }

    /// Whether the operands of a relation may be compared.
    #[tactic(auto, unfolding(type_definitions::specs::Expressions::compares))]
    pub fn compares(&self, operator: Operator, a: usize, b: usize) -> bool
        requires a { a < length self.now.rows.now.0 }
        requires b { b < length self.now.rows.now.0 }
        ensures { result ≡ compares (here self.now) operator (tree_at self.now.rows.now a) (tree_at self.now.rows.now b) }
    {
        if is_equality(operator) && self.is_null(a) {
            return self.is_access_name(b);
        }
        if is_equality(operator) && self.is_null(b) {
            return self.is_access_name(a);
        }
        let first = self.own_type(a);
        let second = self.own_type(b);
        self.scalar_own(first) && self.scalar_own(second) && self.one_type(first, second)
    }

    /// Whether a name is that of a variable: of an object whose root is no constant and no `for`
    /// parameter.
    pub fn is_variable(&self, d: u32, reading: Reading) -> bool
        ensures { result ≡ is_variable (entry_of self.now.known.now d) reading }
    {
        match reading {
            Reading::Off => true,
            Reading::Place { .. } => match self.known.entries.as_slice().get(d as usize) {
                Some(Entry::Object { object }) => {
                    matches!(object.kind, Kind::Variable | Kind::Formal)
                }
                _ => false,
            },
            _ => false,
        }
    }

    /// Whether a name is a call of a traversal function.
    pub fn is_traversal_call(&self, reading: Reading) -> bool
        ensures { result ≡ is_traversal_call self.now.known.now reading }
    {
        match reading {
            Reading::Call { function } => self.is_traversal(function),
            _ => false,
        }
    }

    /// Whether a name of an access type may be traversed by a formal of another one.
    pub fn traverses(&self, want: u32, t: u32) -> bool
        ensures { result ≡ traverses (here self.now) want t }
    {
        self.is_same(designated(self.full(t)), designated(self.full(want)))
            && (to_constant(self.full(want)) || !to_constant(self.full(t)))
    }

    /// Whether a type by itself isn't known, or is an access type.
    pub fn reading_access(&self, own: Own) -> bool
        ensures { result ≡ reading_access (here self.now) own }
    {
        match own {
            Own::Of { of } => is_access(self.seen(of)),
            Own::Text => false,
            _ => true,
        }
    }
}

/// Whether it is that of the place.
pub fn is_demanding(own: Own) -> bool
    ensures { result ≡ is_demanding own }
{
    matches!(own, Own::Demanding)
}

/// Whether it is a string.
pub fn is_string(own: Own) -> bool
    ensures { result ≡ is_string own }
{
    matches!(own, Own::Text)
}

/// Whether a name is that of an object.
pub fn is_object(reading: Reading) -> bool
    ensures { result ≡ is_object reading }
{
    matches!(reading, Reading::Place { .. })
}
