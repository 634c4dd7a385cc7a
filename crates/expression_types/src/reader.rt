//! Where an expression is read.
ghost use Rattle.std.specs.Prelude.{◌≡◌, ◌<◌, length};
ghost use Rattle.resolved_tree.specs.Nodes.{tree_at};
ghost use Rattle.resolved_tree.specs.Trees.{position};
ghost use Rattle.type_definitions.specs.Names.{is_end};
ghost use Rattle.expression_types.specs.ComponentNames.{FindAllComponents};
ghost use Rattle.expression_types.specs.FormalNames.{FindAllFormals};

use crate::word_index::WordIndex;
use resolved_tree::{Node, Rows};
use spark_base::Pos;
use std::alloc::Global;
use type_definitions::Known;

/// The trees of a program, what is known of its declarations, and where an expression stands.
#[derive(Clone, Copy)]
pub struct Reader<'p> {
    /// Where memory comes from, for what is looked up by hash.
    pub alloc: Global,
    /// The trees.
    pub rows: &'p Rows,
    /// What is known.
    pub known: &'p Known,
    /// For each type, the index of the names of its components, where it has one.
    pub components: &'p [Option<WordIndex>],
    /// For each subprogram, the index of the names of its formals, where it has one.
    pub formals: &'p [Option<WordIndex>],
    /// The package whose declarations these are, in any of its parts.
    pub home: Option<u32>,
    /// The package whose private part or body this is.
    pub within: Option<u32>,
    /// The subprogram whose body this is.
    pub sub: Option<u32>,
    /// Whether a loop stands around.
    pub in_loop: bool,
    /// Whether this is the initial value of a package object.
    pub starts: bool,
    ghost found: { FindAllComponents components.now known.now.table },
    ghost formals_found: { FindAllFormals formals.now known.now.entries },
}

impl<'p> Reader<'p> {
    /// Whether a list ends here.
    pub fn is_end(&self, e: usize) -> bool
        requires { e < length self.now.rows.now.0 }
        ensures { result ≡ is_end (tree_at self.now.rows.now e) }
    {
        matches!(self.rows.node(e), Node::NoMore)
    }

    /// The position of the first token of an expression.
    pub fn position(&self, e: usize) -> Pos
        requires { e < length self.now.rows.now.0 }
        ensures { result ≡ position (tree_at self.now.rows.now e) }
    {
        match self.rows.node(e) {
            Node::Number { pos, .. }
            | Node::Text { pos, .. }
            | Node::Null { pos }
            | Node::Named { pos, .. }
            | Node::Parens { pos, .. }
            | Node::Unary { pos, .. }
            | Node::Binary { pos, .. }
            | Node::Aggregate { pos, .. }
            | Node::Others { pos, .. }
            | Node::New { pos, .. } => *pos,
            Node::Argument { .. }
            | Node::Selected { .. }
            | Node::All
            | Node::Applied { .. }
            | Node::Attr { .. }
            | Node::NoMore
            | Node::More { .. } => Pos {
                file: 0,
                line: 0,
                column: 0,
            },
        }
    }
}
