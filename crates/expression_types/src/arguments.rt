//! Lists of arguments: whether they are one for each formal or component, and what each is for
//! (Ada 2012, 4.3.1 and 6.4.1).
ghost use Rattle.std.specs.Prelude.{◌≡◌, ◌<◌, length, map, nat_eq, IfOk};
ghost use Rattle.resolved_tree.specs.Nodes.{tree_at};
ghost use Rattle.type_definitions.specs.Types.{fields, is_bounded, is_nil};
ghost use Rattle.type_definitions.specs.Entries.{entry_of};
ghost use Rattle.type_definitions.specs.Names.{seen};
ghost use Rattle.type_definitions.specs.Expressions.{given_names, all_by_position, count_of, each_once, associates, meant, no_formal, no_component, formal, part, call_arguments, formal_names, profile_of, fits_aggregate, aggregates, repeats, repeated_type, parts_role};
ghost use Rattle.expression_types.specs.Here.{here};
ghost use Rattle.expression_types.specs.Formals.{demanded, is_given};
ghost use Rattle.expression_types.specs.Occurrences.{each_single};

use crate::formal::Formal;
use crate::look_up::INTEGER;
use crate::reader::Reader;
use crate::views::{element_type, fits_others, span};
use crate::word_index::{FEW, WordIndex};
use crate::words::same_word;
use ada_tree::Word;
use place_names::Mode;
use resolved_tree::Node;
use std::alloc::{AllocError, Global};
use type_definitions::{Component, FormalInfo, Role, View};

impl<'p> Reader<'p> {
    /// Whether each argument of a list stands by its position.
    pub fn by_position(&self, list: usize) -> bool
        requires { list < length self.now.rows.now.0 }
        ensures { result ≡ all_by_position (given_names (tree_at self.now.rows.now list)) }
    {
        let mut i = list;
        'arguments: while let Node::Argument { name, rest, .. } = self.rows.node(i) {
            if name.is_some() {
                return false;
            }
            i = *rest;
        }
        true
    }

    /// Whether a list has so many arguments.
    pub fn has_length(&self, list: usize, count: usize) -> bool
        requires { list < length self.now.rows.now.0 }
        ensures { result ≡ nat_eq (length (given_names (tree_at self.now.rows.now list))) count }
    {
        let mut i = list;
        let mut left = count;
        'arguments: while let Node::Argument { rest, .. } = self.rows.node(i) {
            if left == 0 {
                return false;
            }
            left -= 1;
            i = *rest;
        }
        left == 0
    }

    /// Whether an identifier stands once before a `=>`.
    pub fn is_once(&self, word: &[u8], list: usize) -> bool
        requires { list < length self.now.rows.now.0 }
        ensures { result ≡ nat_eq (count_of word.now (given_names (tree_at self.now.rows.now list))) 1 }
    {
        let mut i = list;
        let mut once = false;
        'arguments: while let Node::Argument { name, rest, .. } = self.rows.node(i) {
            if is_given(word, name) {
                if once {
                    return false;
                }
                once = true;
            }
            i = *rest;
        }
        once
    }

    /// Whether the arguments are one for each formal, all by position or all by name.
    pub fn fits_formals(&self, formals: &[FormalInfo], list: usize) -> bool
        requires { list < length self.now.rows.now.0 }
        ensures { result ≡ associates (map (λ f. f.name) formals.now) (given_names (tree_at self.now.rows.now list)) }
    {
        self.has_length(list, formals.len())
            && (self.by_position(list) || self.names_each_formal(formals, list))
    }

    /// Whether each formal is named once: by hash where there are many, if there is memory.
    fn names_each_formal(&self, formals: &[FormalInfo], list: usize) -> bool
        requires { list < length self.now.rows.now.0 }
        ensures { result ≡ each_once (map (λ f. f.name) formals.now) (given_names (tree_at self.now.rows.now list)) }
    {
        if formals.len() > FEW {
            if let Ok(once) = self.indexes_formals(formals, list) {
                return once;
            }
        }
        self.names_formals(formals, list)
    }

    /// The same, by hash.
    fn indexes_formals(&self, formals: &[FormalInfo], list: usize) -> Result<bool, AllocError>
        requires { list < length self.now.rows.now.0 }
        ensures { IfOk result (λ once. once
            ≡ each_once (map (λ f. f.name) formals.now) (given_names (tree_at self.now.rows.now list))) }
    {
        let index = self.given_index(list)?;
        each_formal(self.alloc, &index, formals)
    }

    /// The same, by comparing each with all arguments.
    fn names_formals(&self, formals: &[FormalInfo], list: usize) -> bool
        requires { list < length self.now.rows.now.0 }
        ensures { result ≡ each_once (map (λ f. f.name) formals.now) (given_names (tree_at self.now.rows.now list)) }
    {
        'formals: for formal in formals {
            if !self.is_once(formal.name.as_bytes(), list) {
                return false;
            }
        }
        true
    }

    /// Whether the arguments are one for each component, all by position or all by name.
    pub fn fits_components(&self, components: &[Component], list: usize) -> bool
        requires { list < length self.now.rows.now.0 }
        ensures { result ≡ associates (map (λ c. c.name) components.now) (given_names (tree_at self.now.rows.now list)) }
    {
        self.has_length(list, components.len())
            && (self.by_position(list) || self.names_each_component(components, list))
    }

    /// Whether each component is named once: by hash where there are many, if there is memory.
    fn names_each_component(&self, components: &[Component], list: usize) -> bool
        requires { list < length self.now.rows.now.0 }
        ensures { result ≡ each_once (map (λ c. c.name) components.now) (given_names (tree_at self.now.rows.now list)) }
    {
        if components.len() > FEW {
            if let Ok(once) = self.indexes_components(components, list) {
                return once;
            }
        }
        self.names_components(components, list)
    }

    /// The same, by hash.
    fn indexes_components(&self, components: &[Component], list: usize) -> Result<bool, AllocError>
        requires { list < length self.now.rows.now.0 }
        ensures { IfOk result (λ once. once
            ≡ each_once (map (λ c. c.name) components.now) (given_names (tree_at self.now.rows.now list))) }
    {
        let index = self.given_index(list)?;
        each_component(self.alloc, &index, components)
    }

    /// The same, by comparing each with all arguments.
    fn names_components(&self, components: &[Component], list: usize) -> bool
        requires { list < length self.now.rows.now.0 }
        ensures { result ≡ each_once (map (λ c. c.name) components.now) (given_names (tree_at self.now.rows.now list)) }
    {
        'components: for component in components {
            if !self.is_once(component.name.as_bytes(), list) {
                return false;
            }
        }
        true
    }

    /// Whether an aggregate has what the type that is demanded consists of. An array whose bounds
    /// aren't known has no count of elements.
    pub fn fits_aggregate(&self, want: u32, list: usize) -> bool
        requires { list < length self.now.rows.now.0 }
        ensures { result ≡ fits_aggregate (is_bounded self.now.known.now.table want) (seen (here self.now) want) (fields self.now.known.now.table want) (given_names (tree_at self.now.rows.now list)) }
    {
        match self.seen(want) {
            View::Fields => self.fits_components(self.fields(want), list),
            View::Elements { low, high, .. } => {
                self.by_position(list)
                    && (!self.is_bounded(want) || self.has_length(list, span(low, high)))
            }
            _ => true,
        }
    }

    /// The same, or the type that is demanded isn't known.
    pub fn aggregates(&self, want: u32, list: usize) -> bool
        requires { list < length self.now.rows.now.0 }
        ensures { result ≡ aggregates (here self.now) want (given_names (tree_at self.now.rows.now list)) }
    {
        self.is_untyped(want) || self.fits_aggregate(want, list)
    }

    /// Whether `(others => value)` may be of a type.
    pub fn repeats(&self, want: u32) -> bool
        ensures { result ≡ repeats (here self.now) want }
    {
        self.is_untyped(want) || fits_others(self.seen(want))
    }

    /// The type of that value.
    pub fn repeated_type(&self, want: u32) -> u32
        ensures { result ≡ repeated_type (here self.now) want }
    {
        if self.is_untyped(want) {
            want
        } else {
            element_type(self.seen(want))
        }
    }

    /// What the arguments of an aggregate of a type are for.
    pub fn parts_role(&self, want: u32) -> Role
        ensures { result ≡ parts_role (here self.now) want }
    {
        if self.is_untyped(want) {
            Role::Every { of: want }
        } else {
            Role::Parts { of: want }
        }
    }

    /// Whether the actuals after the name of a subprogram are one for each of its formals.
    pub fn fits_call(&self, f: u32, rest: usize) -> bool
        requires { rest < length self.now.rows.now.0 }
        ensures { result ≡ associates (formal_names (profile_of (entry_of self.now.known.now f))) (given_names (call_arguments (tree_at self.now.rows.now rest))) }
    {
        let formals = self.formals(f);
        if let Node::More { first, .. } = self.rows.node(rest) {
            if let Node::Applied { args } = self.rows.node(*first) {
                return self.fits_formals(formals, *args);
            }
        }
        formals.is_empty()
    }

    /// Whether there are no actuals after a name.
    pub fn has_no_actuals(&self, rest: usize) -> bool
        requires { rest < length self.now.rows.now.0 }
        ensures { result ≡ is_nil (given_names (call_arguments (tree_at self.now.rows.now rest))) }
    {
        if let Node::More { first, .. } = self.rows.node(rest) {
            if let Node::Applied { args } = self.rows.node(*first) {
                return !matches!(self.rows.node(*args), Node::Argument { .. });
            }
        }
        true
    }

    /// The formal that an actual of a subprogram is for.
    pub fn formal(&self, f: u32, i: usize, name: &Option<Word>) -> Formal
        ensures { result ≡ demanded (formal (here self.now) f i name.now) }
    {
        formal_for(self.formals(f), i, name)
    }

    /// The type of the component or element that an argument of an aggregate is for.
    pub fn part(&self, t: u32, i: usize, name: &Option<Word>) -> u32
        ensures { result ≡ part (here self.now) t i name.now }
    {
        match self.seen(t) {
            View::Fields => component_type(self.fields(t), i, name),
            View::Elements { element, .. } => element,
            _ => INTEGER,
        }
    }
}

/// Whether the name of each formal occurs once.
fn each_formal(alloc: Global, index: &WordIndex, formals: &[FormalInfo]) -> Result<bool, AllocError>
    ensures { IfOk result (λ once. once ≡ each_single index.now (map (λ f. f.name) formals.now)) }
{
    'formals: for formal in formals {
        if !index.is_single(alloc, &formal.name)? {
            return Ok(false);
        }
    }
    Ok(true)
}

/// Whether the name of each component occurs once.
fn each_component(
    alloc: Global,
    index: &WordIndex,
    components: &[Component],
) -> Result<bool, AllocError>
    ensures { IfOk result (λ once. once ≡ each_single index.now (map (λ c. c.name) components.now)) }
{
    'components: for component in components {
        if !index.is_single(alloc, &component.name)? {
            return Ok(false);
        }
    }
    Ok(true)
}

/// Whether an identifier stands before the `=>` of an argument.
fn is_given(word: &[u8], name: &Option<Word>) -> bool
    ensures { result ≡ is_given word.now name.now }
{
    match name {
        Some(given) => same_word(word, given.as_bytes()),
        None => false,
    }
}

/// The formal that an actual is for: by its position, or by its name.
fn formal_for(formals: &[FormalInfo], i: usize, name: &Option<Word>) -> Formal
    ensures { result ≡ demanded (meant (λ f. f.name) no_formal formals.now i name.now) }
{
    let Some(word) = name else {
        return match formals.get(i) {
            Some(formal) => demanded(formal),
            None => nothing(),
        };
    };
    'formals: for formal in formals {
        if same_word(word.as_bytes(), formal.name.as_bytes()) {
            return demanded(formal);
        }
    }
    nothing()
}

/// What a formal demands.
fn demanded(formal: &FormalInfo) -> Formal
    ensures { result ≡ demanded formal.now }
{
    Formal {
        mode: formal.mode,
        of: formal.of,
        traversed: formal.traversed,
    }
}

/// What is demanded where there is no such formal.
fn nothing() -> Formal
    ensures { result ≡ demanded no_formal }
{
    Formal {
        mode: Mode::In,
        of: INTEGER,
        traversed: false,
    }
}

/// The type of the component that an argument is for: by its position, or by its name.
fn component_type(components: &[Component], i: usize, name: &Option<Word>) -> u32
    ensures { result ≡ (meant (λ c. c.name) no_component components.now i name.now).of }
{
    let Some(word) = name else {
        return match components.get(i) {
            Some(component) => component.of,
            None => INTEGER,
        };
    };
    'components: for component in components {
        if same_word(word.as_bytes(), component.name.as_bytes()) {
            return component.of;
        }
    }
    INTEGER
}
