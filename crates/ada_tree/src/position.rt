//! The position of the first token of a tree.
ghost use Rattle.std.specs.Prelude.{◌≡◌};
ghost use Rattle.ada_tree.specs.Positions.{expr_position, rel_position, sum_position, term_position, factor_position, primary_position, aggregate_position, arg_position, name_position, range_position, choice_position, indication_position, item_position, stmts_position, stmt_position, subspec_position, decl_position, body_part_position, context_position, source_unit_position};

use crate::declaration::{Indication, Item};
use crate::expression::{Aggregate, Arg, Expr, Factor, Name, Primary, Rel, Sum, Term};
use crate::range::{Choice, Range};
use crate::statement::{Stmt, Stmts};
use crate::subprogram::{Decl, Subspec};
use crate::unit::{BodyPart, Context, SourceUnit};
use spark_base::Pos;

impl Expr {
    /// The position of the first token of an expression.
    pub fn pos(&self) -> Pos
        ensures { result ≡ expr_position self.now }
    {
        match self {
            Expr::LoneRelation { pos, .. }
            | Expr::And { pos, .. }
            | Expr::Or { pos, .. }
            | Expr::Xor { pos, .. }
            | Expr::AndThen { pos, .. }
            | Expr::OrElse { pos, .. } => *pos,
        }
    }
}

impl Rel {
    /// The position of the first token of a relation.
    pub fn pos(&self) -> Pos
        ensures { result ≡ rel_position self.now }
    {
        match self {
            Rel::LoneSum { pos, .. } | Rel::Compared { pos, .. } => *pos,
        }
    }
}

impl Sum {
    /// The position of the first token of a sum.
    pub fn pos(&self) -> Pos
        ensures { result ≡ sum_position self.now }
    {
        match self {
            Sum::Unsigned { pos, .. } | Sum::Signed { pos, .. } => *pos,
        }
    }
}

impl Term {
    /// The position of the first token of a term.
    pub fn pos(&self) -> Pos
        ensures { result ≡ term_position self.now }
    {
        match self {
            Term::Product { pos, .. } => *pos,
        }
    }
}

impl Factor {
    /// The position of the first token of a factor.
    pub fn pos(&self) -> Pos
        ensures { result ≡ factor_position self.now }
    {
        match self {
            Factor::LonePrimary { pos, .. } | Factor::Abs { pos, .. } | Factor::Not { pos, .. } =>
                *pos,
        }
    }
}

impl Primary {
    /// The position of the first token of a primary.
    pub fn pos(&self) -> Pos
        ensures { result ≡ primary_position self.now }
    {
        match self {
            Primary::Number { pos, .. }
            | Primary::Text { pos, .. }
            | Primary::Null { pos, .. }
            | Primary::Named { pos, .. }
            | Primary::Parenthesized { pos, .. }
            | Primary::Aggregated { pos, .. }
            | Primary::Allocated { pos, .. }
            | Primary::AllocatedAggregate { pos, .. }
            | Primary::AllocatedValue { pos, .. } => *pos,
        }
    }
}

impl Aggregate {
    /// The position of the first token of an aggregate.
    pub fn pos(&self) -> Pos
        ensures { result ≡ aggregate_position self.now }
    {
        match self {
            Aggregate::Several { pos, .. }
            | Aggregate::Single { pos, .. }
            | Aggregate::Others { pos, .. } => *pos,
        }
    }
}

impl Arg {
    /// The position of the first token of an arg.
    pub fn pos(&self) -> Pos
        ensures { result ≡ arg_position self.now }
    {
        match self {
            Arg::Positional { pos, .. } | Arg::Association { pos, .. } => *pos,
        }
    }
}

impl Name {
    /// The position of the first token of a name.
    pub fn pos(&self) -> Pos
        ensures { result ≡ name_position self.now }
    {
        match self {
            Name::Prefixed { pos, .. } => *pos,
        }
    }
}

impl Range {
    /// The position of the first token of a range.
    pub fn pos(&self) -> Pos
        ensures { result ≡ range_position self.now }
    {
        match self {
            Range::Bounds { pos, .. }
            | Range::Marked { pos, .. }
            | Range::Constrained { pos, .. }
            | Range::RangeOf { pos, .. } => *pos,
        }
    }
}

impl Choice {
    /// The position of the first token of a choice.
    pub fn pos(&self) -> Pos
        ensures { result ≡ choice_position self.now }
    {
        match self {
            Choice::Value { pos, .. } | Choice::Interval { pos, .. } | Choice::Others { pos, .. } =>
                *pos,
        }
    }
}

impl Indication {
    /// The position of the first token of what an object or result is of.
    pub fn pos(&self) -> Pos
        ensures { result ≡ indication_position self.now }
    {
        match self {
            Indication::Mark { pos, .. } | Indication::Anonymous { pos, .. } => *pos,
        }
    }
}

impl Item {
    /// The position of the first token of an item.
    pub fn pos(&self) -> Pos
        ensures { result ≡ item_position self.now }
    {
        match self {
            Item::IncompleteType { pos, .. }
            | Item::PrivateType { pos, .. }
            | Item::EnumerationType { pos, .. }
            | Item::RecordType { pos, .. }
            | Item::ArrayType { pos, .. }
            | Item::AccessType { pos, .. }
            | Item::Subtype { pos, .. }
            | Item::ConstrainedSubtype { pos, .. }
            | Item::Objects { pos, .. }
            | Item::InitializedObjects { pos, .. }
            | Item::Numbers { pos, .. }
            | Item::Instance { pos, .. }
            | Item::Use { pos, .. }
            | Item::Pragma { pos, .. } => *pos,
        }
    }
}

impl Stmts {
    /// The position of the first token of a sequence of statements.
    pub fn pos(&self) -> Pos
        ensures { result ≡ stmts_position self.now }
    {
        match self {
            Stmts::Sequence { pos, .. } => *pos,
        }
    }
}

impl Stmt {
    /// The position of the first token of a statement.
    pub fn pos(&self) -> Pos
        ensures { result ≡ stmt_position self.now }
    {
        match self {
            Stmt::Null { pos, .. }
            | Stmt::Assign { pos, .. }
            | Stmt::Call { pos, .. }
            | Stmt::Exit { pos, .. }
            | Stmt::ExitWhen { pos, .. }
            | Stmt::Return { pos, .. }
            | Stmt::ReturnValue { pos, .. }
            | Stmt::If { pos, .. }
            | Stmt::IfElse { pos, .. }
            | Stmt::Case { pos, .. }
            | Stmt::Loop { pos, .. }
            | Stmt::While { pos, .. }
            | Stmt::For { pos, .. }
            | Stmt::Block { pos, .. }
            | Stmt::DeclareBlock { pos, .. } => *pos,
        }
    }
}

impl Subspec {
    /// The position of the first token of a specification of a subprogram.
    pub fn pos(&self) -> Pos
        ensures { result ≡ subspec_position self.now }
    {
        match self {
            Subspec::Procedure { pos, .. } | Subspec::Function { pos, .. } => *pos,
        }
    }
}

impl Decl {
    /// The position of the first token of a declaration.
    pub fn pos(&self) -> Pos
        ensures { result ≡ decl_position self.now }
    {
        match self {
            Decl::OfItem { pos, .. } | Decl::Subprogram { pos, .. } => *pos,
        }
    }
}

impl BodyPart {
    /// The position of the first token of a part of a body.
    pub fn pos(&self) -> Pos
        ensures { result ≡ body_part_position self.now }
    {
        match self {
            BodyPart::Declared { pos, .. } | BodyPart::Completed { pos, .. } => *pos,
        }
    }
}

impl Context {
    /// The position of the first token of a context clause.
    pub fn pos(&self) -> Pos
        ensures { result ≡ context_position self.now }
    {
        match self {
            Context::With { pos, .. } | Context::Use { pos, .. } | Context::Pragma { pos, .. } =>
                *pos,
        }
    }
}

impl SourceUnit {
    /// The position of the first token of a unit.
    pub fn pos(&self) -> Pos
        ensures { result ≡ source_unit_position self.now }
    {
        match self {
            SourceUnit::OfPackage { pos, .. }
            | SourceUnit::OfBody { pos, .. }
            | SourceUnit::OfSubprogram { pos, .. } => *pos,
        }
    }
}
