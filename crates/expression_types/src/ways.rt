//! What the arguments of a list are for.
ghost use Rattle.std.specs.Prelude.{◌≡◌, ◌<◌, length};
ghost use Rattle.resolved_tree.specs.Nodes.{tree_at};
ghost use Rattle.type_definitions.specs.Entries.{entry_of};
ghost use Rattle.type_definitions.specs.Expressions.{role_type, is_loose, way_of, role_of, onward};
ghost use Rattle.expression_types.specs.Here.{here};

use crate::look_up::INTEGER;
use crate::reader::Reader;
use ada_tree::Word;
use type_definitions::{Entry, Next, Role, Way};

impl<'p> Reader<'p> {
    /// The type that is demanded of an argument.
    pub fn role_type(&self, role: Role, i: usize, name: &Option<Word>) -> u32
        ensures { result ≡ role_type (here self.now) role i name.now }
    {
        match role {
            Role::Parts { of } => self.part(of, i, name),
            Role::Actuals { of } => self.formal(of, i, name).of,
            Role::Allocated { of } | Role::Every { of } => of,
        }
    }

    /// Whether an argument may be a traversal call: the traversed actual may.
    pub fn is_loose(&self, role: Role, i: usize, name: &Option<Word>) -> bool
        ensures { result ≡ is_loose (here self.now) role i name.now }
    {
        match role {
            Role::Actuals { of } => self.formal(of, i, name).traversed,
            _ => false,
        }
    }

    /// What the arguments after the name of a declaration are.
    pub fn way_of(&self, d: u32) -> Way
        ensures { result ≡ way_of self.now.known.now d (entry_of self.now.known.now d) }
    {
        match self.known.entries.as_slice().get(d as usize) {
            Some(Entry::Object { object }) => Way::Along { of: object.of },
            Some(Entry::Subprogram { .. }) => Way::Giving {
                role: Role::Actuals { of: d },
            },
            Some(Entry::Type) => Way::Giving {
                role: Role::Every { of: self.base(d) },
            },
            _ => Way::Giving {
                role: Role::Every { of: INTEGER },
            },
        }
    }

    /// What the arguments mean after one more suffix.
    pub fn onward(&self, suffix: usize, way: Way) -> Way
        requires { suffix < length self.now.rows.now.0 }
        ensures { result ≡ onward (here self.now) (tree_at self.now.rows.now suffix) way }
    {
        match way {
            Way::Along { of } => match self.step(suffix, of) {
                Next::Goes { of } => Way::Along { of },
                _ => Way::Along { of: INTEGER },
            },
            Way::Giving { .. } => way,
        }
    }
}

/// What the arguments are for.
pub fn role_of(way: Way) -> Role
    ensures { result ≡ role_of way }
{
    match way {
        Way::Along { .. } => Role::Every { of: INTEGER },
        Way::Giving { role } => role,
    }
}
