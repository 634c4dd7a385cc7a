//! What the arguments of a list are for, found by hash where there are many.
ghost use Rattle.std.specs.Prelude.{◌≡◌, ◌<◌, ℕ, Some, IfOk, IfSome, length};
ghost use Rattle.resolved_tree.specs.Nodes.{tree_at};
ghost use Rattle.type_definitions.specs.Entries.{entry_of};
ghost use Rattle.type_definitions.specs.Expressions.{given_names, profile_of, role_type};
ghost use Rattle.expression_types.specs.Here.{here};
ghost use Rattle.expression_types.specs.Occurrences.{formal_names, names_for, number_for, Indexes};

use crate::reader::Reader;
use crate::word_index::WordIndex;
use ada_tree::Word;
use resolved_tree::Node;
use std::alloc::AllocError;
use type_definitions::Role;

impl<'p> Reader<'p> {
    /// The number of the first formal of a subprogram with an identifier, or how many it has, where
    /// the subprogram has an index and there is memory for the identifier in lower case.
    fn indexed_formal(&self, f: u32, word: &Word) -> Option<usize>
        ensures { IfSome result (λ n. (i : ℕ)
            → n ≡ number_for (formal_names (profile_of (entry_of self.now.known.now f)).formals) i (Some word.now)) }
    {
        let Some(Some(index)) = self.formals.get(f as usize) else {
            return None;
        };
        match index.occurrence(self.alloc, word) {
            Ok(Some(found)) => Some(found.first),
            Ok(None) => Some(self.formals(f).len()),
            Err(_) => None,
        }
    }

    /// The number of what an argument is for, where it stands by name and an index finds it.
    pub fn argument_number(&self, role: Role, name: &Option<Word>) -> Option<usize>
        ensures { IfSome result (λ n. (i : ℕ) → n ≡ number_for (names_for (here self.now) role) i name.now) }
    {
        let Some(word) = name else {
            return None;
        };
        match role {
            Role::Parts { of } => self.indexed_component(of, word),
            Role::Actuals { of } => self.indexed_formal(of, word),
            Role::Allocated { .. } | Role::Every { .. } => None,
        }
    }

    /// The type that is demanded of an argument, found by its name where there is an index.
    pub fn matched_type(&self, role: Role, i: usize, name: &Option<Word>) -> u32
        ensures { result ≡ role_type (here self.now) role i name.now }
    {
        match self.argument_number(role, name) {
            Some(number) => self.role_type(role, number, &None),
            None => self.role_type(role, i, name),
        }
    }

    /// The index of the identifiers before the `=>` of the arguments of a list.
    pub fn given_index(&self, list: usize) -> Result<WordIndex, AllocError>
        requires { list < length self.now.rows.now.0 }
        ensures { IfOk result (λ made. Indexes made (given_names (tree_at self.now.rows.now list))) }
    {
        let mut made = WordIndex::new(self.alloc);
        let mut i = list;
        let mut n = 0;
        'arguments: while let Node::Argument { name, rest, .. } = self.rows.node(i) {
            made.add_given(self.alloc, name, n)?;
            n += 1;
            i = *rest;
        }
        Ok(made)
    }
}
