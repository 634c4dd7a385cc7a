//! What a name is as a value (Ada 2012, 4.1).
ghost use Rattle.std.specs.Prelude.{◌≡◌, ◌<◌, length, IfSome};
ghost use Rattle.resolved_tree.specs.Nodes.{tree_at};
ghost use Rattle.type_definitions.specs.Types.{fields};
ghost use Rattle.type_definitions.specs.Names.{component, seen, selected_component, is_index, through, reached, step, is_end, ended, along, is_call, is_imaged, scalar_attribute, of_type, reading_of};
ghost use Rattle.expression_types.specs.Here.{here};
ghost use Rattle.expression_types.specs.ComponentNames.{component_number};

use crate::look_up::{INTEGER, UNTYPED};
use crate::reader::Reader;
use crate::views::{array_attribute, component_number, dereferenced, indexed};
use ada_tree::Word;
use resolved_tree::{Attribute, Node};
use type_definitions::{Entry, Next, Predefined, Reading, View};

impl<'p> Reader<'p> {
    /// The number of the first component of a type with an identifier, where the type has an index
    /// and there is memory for the identifier in lower case.
    pub(crate) fn indexed_component(&self, t: u32, word: &Word) -> Option<usize>
        ensures { IfSome result (λ n. n ≡ component_number word.now (fields self.now.known.now.table t)) }
    {
        let Some(Some(index)) = self.components.get(self.meant_type(t) as usize) else {
            return None;
        };
        match index.occurrence(self.alloc, word) {
            Ok(Some(found)) => Some(found.first),
            Ok(None) => Some(self.fields(t).len()),
            Err(_) => None,
        }
    }

    /// The number of the first component of a type with an identifier, or how many it has.
    pub fn component_number(&self, t: u32, word: &Word) -> usize
        ensures { result ≡ component_number word.now (fields self.now.known.now.table t) }
    {
        match self.indexed_component(t, word) {
            Some(number) => number,
            None => component_number(word, self.fields(t)),
        }
    }

    /// Where the component of a record with an identifier leads.
    fn component(&self, t: u32, word: &Word) -> Next
        ensures { result ≡ component word.now (fields self.now.known.now.table t) }
    {
        match self.fields(t).get(self.component_number(t, word)) {
            Some(component) => Next::Goes { of: component.of },
            None => Next::Stops,
        }
    }

    /// The component of a type with an identifier.
    fn selected_component(&self, t: u32, word: &Word) -> Next
        ensures { result ≡ selected_component word.now (seen (here self.now) t) (fields self.now.known.now.table t) }
    {
        match self.seen(t) {
            View::Fields => self.component(t, word),
            _ => Next::Stops,
        }
    }

    /// What a selector or an index starts from: of an access value, what it designates.
    fn through(&self, t: u32) -> u32
        ensures { result ≡ through (seen (here self.now) t) t }
    {
        match self.seen(t) {
            View::Access { designated, .. } => designated,
            _ => t,
        }
    }

    /// Whether a list of arguments is one index.
    fn is_index(&self, args: usize) -> bool
        requires { args < length self.now.rows.now.0 }
        ensures { result ≡ is_index (tree_at self.now.rows.now args) }
    {
        match self.rows.node(args) {
            Node::Argument {
                name: None,
                rest,
                ..
            } => self.is_end(*rest),
            _ => false,
        }
    }

    /// Where something leads from a type: to no known one where that type isn't known.
    fn reached(&self, t: u32, next: Next) -> Next
        ensures { result ≡ reached self.now.known.now.table t next }
    {
        if self.is_untyped(t) {
            Next::Goes { of: UNTYPED }
        } else {
            next
        }
    }

    /// Where one selector, index, dereference or attribute leads from a type.
    #[tactic(auto, unfolding(type_definitions::specs::Names::step))]
    pub fn step(&self, suffix: usize, t: u32) -> Next
        requires { suffix < length self.now.rows.now.0 }
        ensures { result ≡ step (here self.now) (tree_at self.now.rows.now suffix) t }
    {
        match self.rows.node(suffix) {
            Node::Selected { selector } => {
                let through = self.through(t);
                self.reached(through, self.selected_component(through, selector))
            }
            Node::Applied { args } => {
                let is_index = self.is_index(*args);
                let through = self.through(t);
                self.reached(through, indexed(is_index, self.seen(through)))
            }
            Node::All => self.reached(t, dereferenced(self.seen(t))),
            Node::Attr { attribute } => {
                self.reached(t, array_attribute(*attribute, self.seen(t)))
            }
            _ => Next::Stops,
        }
    }

    /// The reading of the last suffix after a place of type `t`.
    #[tactic(auto, unfolding(type_definitions::specs::Names::along))]
    fn along(&self, t: u32, suffixes: usize) -> Reading
        requires { suffixes < length self.now.rows.now.0 }
        ensures { result ≡ along (here self.now) t (tree_at self.now.rows.now suffixes) }
    {
        let mut t = t;
        let mut i = suffixes;
        'suffixes: while let Node::More { first, rest } = self.rows.node(i) {
            match self.step(*first, t) {
                Next::Goes { of } => {
                    t = of;
                    i = *rest;
                }
                Next::Gives { value } => return self.ended(*rest, value),
                Next::Stops => return Reading::Off,
            }
        }
        Reading::Place { of: t }
    }

    /// A number, after which nothing may stand.
    fn ended(&self, rest: usize, value: i64) -> Reading
        requires { rest < length self.now.rows.now.0 }
        ensures { result ≡ ended (is_end (tree_at self.now.rows.now rest)) value }
    {
        if self.is_end(rest) {
            Reading::Value { of: INTEGER, value }
        } else {
            Reading::Off
        }
    }

    /// Whether nothing follows the name of a call, or its actuals alone.
    fn is_call(&self, rest: usize) -> bool
        requires { rest < length self.now.rows.now.0 }
        ensures { result ≡ is_call (tree_at self.now.rows.now rest) }
    {
        match self.rows.node(rest) {
            Node::NoMore => true,
            Node::More { first, rest } => {
                let is_last = self.is_end(*rest);
                matches!(self.rows.node(*first), Node::Applied { .. }) && is_last
            }
            _ => false,
        }
    }

    /// Whether one argument by position follows an attribute, and nothing after that.
    fn is_imaged(&self, rest: usize) -> bool
        requires { rest < length self.now.rows.now.0 }
        ensures { result ≡ is_imaged (tree_at self.now.rows.now rest) }
    {
        let Node::More { first, rest } = self.rows.node(rest) else {
            return false;
        };
        let is_last = self.is_end(*rest);
        match self.rows.node(*first) {
            Node::Applied { args } if is_last => self.is_index(*args),
            _ => false,
        }
    }

    /// What an attribute of a type is.
    fn of_type(&self, t: u32, rest: usize) -> Reading
        requires { rest < length self.now.rows.now.0 }
        ensures { result ≡ of_type (here self.now) t (tree_at self.now.rows.now rest) }
    {
        let Node::More { first, rest } = self.rows.node(rest) else {
            return Reading::Off;
        };
        let Node::Attr { attribute } = self.rows.node(*first) else {
            return Reading::Off;
        };
        match self.seen(t) {
            View::Whole { low, high } => {
                self.scalar_attribute(
                    self.base(t),
                    *attribute,
                    i64::from(low),
                    i64::from(high),
                    *rest,
                )
            }
            View::Listed { low, high } => {
                self.scalar_attribute(
                    self.base(t),
                    *attribute,
                    i64::from(low),
                    i64::from(high),
                    *rest,
                )
            }
            view => match array_attribute(*attribute, view) {
                Next::Gives { value } => self.ended(*rest, value),
                Next::Goes { .. } | Next::Stops => Reading::Off,
            },
        }
    }

    /// What an attribute of a scalar subtype is.
    fn scalar_attribute(
        &self,
        base: u32,
        attribute: Attribute,
        low: i64,
        high: i64,
        rest: usize,
    ) -> Reading
        requires { rest < length self.now.rows.now.0 }
        ensures { result ≡ scalar_attribute base attribute low high (tree_at self.now.rows.now rest) }
    {
        match attribute {
            Attribute::First if self.is_end(rest) => Reading::Value {
                of: base,
                value: low,
            },
            Attribute::Last if self.is_end(rest) => Reading::Value {
                of: base,
                value: high,
            },
            Attribute::Image if self.is_imaged(rest) => Reading::Image { of: base },
            _ => Reading::Off,
        }
    }

    /// What a name is that begins with this declaration.
    #[tactic(auto, unfolding(type_definitions::specs::Names::reading_of))]
    pub fn reading_of(&self, d: u32, rest: usize) -> Reading
        requires { rest < length self.now.rows.now.0 }
        ensures { result ≡ reading_of (here self.now) d (tree_at self.now.rows.now rest) }
    {
        let Some(entry) = self.known.entries.as_slice().get(d as usize) else {
            return Reading::Off;
        };
        match entry {
            Entry::Object { object } => self.along(object.of, rest),
            Entry::Subprogram { profile } if profile.result.is_some() && self.is_call(rest) => {
                Reading::Call { function: d }
            }
            Entry::Literal { of, position } if self.is_end(rest) => Reading::Value {
                of: *of,
                value: i64::from(*position),
            },
            Entry::Type => self.of_type(d, rest),
            Entry::Predefined {
                which: Predefined::EndOfFile,
            } if self.is_call(rest) => Reading::EndOfFile,
            _ => Reading::Off,
        }
    }
}
