//! The sentences within expressions.
ghost use Rattle.std.specs.Prelude.{◌≡◌, ◌<◌, length};
ghost use Rattle.resolved_tree.specs.Nodes.{tree_at};
ghost use Rattle.type_definitions.specs.Entries.{integer};
ghost use Rattle.type_definitions.specs.Faults.{noted};
ghost use Rattle.type_definitions.specs.Expressions.{inside, arguments, within_suffix, behind, faults, name_faults, loose_faults};
ghost use Rattle.expression_rules.specs.Around.{context};
ghost use Rattle.expression_rules.specs.Arguments.{argument};

use crate::checker::Checker;
use ada_tree::Word;
use expression_types::{INTEGER, operand_type, role_of, unary_type};
use resolved_tree::{Node, Operator, UnaryOperator};
use spark_base::Pos;
use type_definitions::{Fault, Role, Way, Where};
use type_settled::demand;

impl<'p> Checker<'p> {
    /// With the faults within an expression of which `want` is demanded, or nothing where it has a
    /// type of its own. `loose` says that a traversal call may stand here.
    #[cycle(inside)]
    #[tactic(auto, using(crate::proofs::Noted::noted_append), unfolding(type_definitions::specs::Expressions::inside))]
    pub fn inside(&self, found: Option<Fault>, loose: bool, want: u32, e: usize) -> Option<Fault>
        requires { e < length self.now.rows.now.0 }
        ensures { result ≡ noted found (inside (context self.now) loose want (tree_at self.now.rows.now e)) }
    {
        match self.rows.node(e) {
            Node::Number { pos, value } => demand(found, 7, *pos, *value <= 2_147_483_647),
            Node::Named { pos, decl, rest } => {
                let reading = self.reader().reading_of(*decl, *rest);
                let found = self.reading_faults(found, *pos, *decl, loose, *rest, reading);
                self.behind(found, self.reader().way_of(*decl), *rest)
            }
            Node::Parens { pos, inner } => {
                let found = self.around_parens(found, *pos, want, *inner);
                self.inside(found, false, want, *inner)
            }
            Node::Unary {
                operator,
                operand,
                ..
            } => {
                if self.reader().is_alone(*operator, *operand) {
                    return found;
                }
                let found = self.around(found, Where::Elsewhere, unary_type(*operator), *operand);
                self.inside(found, false, unary_type(*operator), *operand)
            }
            Node::Binary {
                pos,
                operator,
                left,
                right,
            } => {
                let found = self.around_operands(found, *pos, *operator, *left, *right);
                let found = self.inside(found, false, operand_type(*operator), *left);
                self.inside(found, false, operand_type(*operator), *right)
            }
            Node::Aggregate { pos, args } => {
                let holds = self.reader().aggregates(want, *args);
                let found = demand(found, 4, *pos, holds);
                self.arguments(found, self.reader().parts_role(want), *args)
            }
            Node::Others { pos, value } => {
                let of = self.reader().repeated_type(want);
                let found = demand(found, 4, *pos, self.reader().repeats(want));
                let found = self.around(found, Where::AfterOthers, of, *value);
                self.inside(found, false, of, *value)
            }
            Node::New { mark, value, .. } => {
                let found = self.mark_faults(found, *mark);
                let role = Role::Allocated {
                    of: self.reader().marked(*mark),
                };
                self.arguments(found, role, *value)
            }
            _ => found,
        }
    }

    /// With the faults around and within an argument.
    #[cycle(inside)]
    #[tactic(auto, using(crate::proofs::Noted::noted_append))]
    fn argument(
        &self,
        found: Option<Fault>,
        role: Role,
        i: usize,
        name: &Option<Word>,
        e: usize,
    ) -> Option<Fault>
        requires { e < length self.now.rows.now.0 }
        ensures { result ≡ noted found (argument (context self.now) role i name.now (tree_at self.now.rows.now e)) }
    {
        let found = self.around_role(found, role, i, name, e);
        let loose = self.reader().is_loose(role, i, name);
        let want = self.reader().role_type(role, i, name);
        self.inside(found, loose, want, e)
    }

    /// As `argument`, with the number that the index gives for its name.
    #[cycle(inside)]
    #[tactic(auto, using(crate::proofs::Steps::argument_number))]
    fn matched_argument(
        &self,
        found: Option<Fault>,
        role: Role,
        i: usize,
        name: &Option<Word>,
        e: usize,
    ) -> Option<Fault>
        requires { e < length self.now.rows.now.0 }
        ensures { result ≡ noted found (argument (context self.now) role i name.now (tree_at self.now.rows.now e)) }
    {
        match self.reader().argument_number(role, name) {
            Some(number) => self.argument(found, role, number, &None, e),
            None => self.argument(found, role, i, name, e),
        }
    }

    /// With the faults within the arguments of a list.
    #[cycle(inside)]
    #[tactic(auto, using(crate::proofs::Noted::noted_append), unfolding(type_definitions::specs::Expressions::arguments))]
    pub fn arguments(&self, found: Option<Fault>, role: Role, list: usize) -> Option<Fault>
        requires { list < length self.now.rows.now.0 }
        ensures { result ≡ noted found (arguments (context self.now) role 0 (tree_at self.now.rows.now list)) }
    {
        let mut found = found;
        let mut i = list;
        let mut n = 0;
        'arguments: while let Node::Argument { name, value, rest } = self.rows.node(i) {
            found = self.matched_argument(found, role, n, name, *value);
            n += 1;
            i = *rest;
        }
        found
    }

    /// With the faults within a selector, an index, a dereference or an attribute.
    #[cycle(inside)]
    #[tactic(auto, unfolding(type_definitions::specs::Expressions::within_suffix))]
    fn within_suffix(&self, found: Option<Fault>, way: Way, suffix: usize) -> Option<Fault>
        requires { suffix < length self.now.rows.now.0 }
        ensures { result ≡ noted found (within_suffix (context self.now) way (tree_at self.now.rows.now suffix)) }
    {
        match self.rows.node(suffix) {
            Node::Applied { args } => self.arguments(found, role_of(way), *args),
            _ => found,
        }
    }

    /// With the faults within what follows a name.
    #[cycle(inside)]
    #[tactic(auto, using(crate::proofs::Noted::noted_append), unfolding(type_definitions::specs::Expressions::behind))]
    pub fn behind(&self, found: Option<Fault>, way: Way, suffixes: usize) -> Option<Fault>
        requires { suffixes < length self.now.rows.now.0 }
        ensures { result ≡ noted found (behind (context self.now) way (tree_at self.now.rows.now suffixes)) }
    {
        let mut found = found;
        let mut i = suffixes;
        let mut way = way;
        'suffixes: while let Node::More { first, rest } = self.rows.node(i) {
            found = self.within_suffix(found, way, *first);
            way = self.reader().onward(*first, way);
            i = *rest;
        }
        found
    }

    /// With the faults of an expression where a type is demanded.
    #[tactic(auto, using(crate::proofs::Noted::noted_append))]
    pub fn faults(&self, found: Option<Fault>, at: Where, want: u32, e: usize) -> Option<Fault>
        requires { e < length self.now.rows.now.0 }
        ensures { result ≡ noted found (faults (context self.now) at want (tree_at self.now.rows.now e)) }
    {
        let found = self.around(found, at, want, e);
        self.inside(found, false, want, e)
    }

    /// With the faults of a name by itself.
    pub fn name_faults(&self, found: Option<Fault>, e: usize) -> Option<Fault>
        requires { e < length self.now.rows.now.0 }
        ensures { result ≡ noted found (name_faults (context self.now) (tree_at self.now.rows.now e)) }
    {
        self.inside(found, false, INTEGER, e)
    }

    /// The same, of one that may be a traversal call.
    pub fn loose_faults(&self, found: Option<Fault>, e: usize) -> Option<Fault>
        requires { e < length self.now.rows.now.0 }
        ensures { result ≡ noted found (loose_faults (context self.now) (tree_at self.now.rows.now e)) }
    {
        self.inside(found, true, INTEGER, e)
    }
}
