//! Nodes of declarations and statements. A part of a node is named by its number: among the nodes
//! of expressions where it is an expression or a list of expressions, else among these.

use crate::node::Mark;
use ada_tree::Word;
use place_names::Mode;
use spark_base::Pos;

/// A node of a declaration, a statement, a part of these, or a list of these.
#[derive(Drop)]
pub enum CodeNode {
    /// An identifier that is declared: its position, the number of the declaration that it makes or
    /// completes, and its text.
    Declared {
        pos: Pos,
        number: u32,
        text: Word,
    },
    /// mark
    Plain {
        mark: Mark,
    },
    /// `access` [`constant`] mark
    Anonymous {
        pos: Pos,
        constant: bool,
        mark: Mark,
    },
    /// low `..` high
    Bounds {
        low: usize,
        high: usize,
    },
    /// A mark as a range, or a name whose mark typing has to find.
    Marked {
        mark: Mark,
    },
    /// mark `range` low `..` high
    Constrained {
        mark: Mark,
        low: usize,
        high: usize,
    },
    /// name `'` `range`: the name.
    RangeOf {
        name: usize,
    },
    /// The list of the literals of an enumeration.
    Enumeration {
        literals: usize,
    },
    /// The list of the components of a record.
    Record {
        components: usize,
    },
    /// A list of identifiers of components, and their mark.
    Components {
        names: usize,
        mark: Mark,
    },
    /// The range of an array and the mark of its elements.
    Array {
        range: usize,
        mark: Mark,
    },
    /// The mark of a named access type.
    Access {
        mark: Mark,
    },
    /// `type` id
    Incomplete {
        name: usize,
    },
    /// `type` id `is` `private`
    Private {
        name: usize,
    },
    /// `type` id `is` definition, and the position of its `;`.
    TypeDecl {
        name: usize,
        definition: usize,
        end: Pos,
    },
    /// `subtype` id `is` mark
    Subtype {
        name: usize,
        mark: Mark,
    },
    /// `subtype` id `is` mark `range` low `..` high
    ConstrainedSubtype {
        name: usize,
        mark: Mark,
        low: usize,
        high: usize,
    },
    /// Objects: the list of their identifiers, whether they are constants, what they are of, and a
    /// list of no value or one.
    Objects {
        names: usize,
        constant: bool,
        of: usize,
        value: usize,
    },
    /// Named numbers: the list of their identifiers, and their value.
    Numbers {
        names: usize,
        value: usize,
    },
    /// An instance: what follows `new`, and the list of its actuals.
    Instance {
        name: usize,
        generic: Mark,
        args: usize,
    },
    /// Formals: the list of their identifiers, their mode, and what they are of.
    Formals {
        names: usize,
        mode: Mode,
        of: usize,
    },
    /// The front of a subprogram: its identifier, the list of its formals, and a list of no result
    /// or one.
    Front {
        name: usize,
        formals: usize,
        result: usize,
    },
    /// A subprogram without its body: its front.
    SubDecl {
        front: usize,
    },
    /// The body of a subprogram: its front, the list of its items, the list of its statements, and
    /// the position of its `end`.
    SubBody {
        front: usize,
        items: usize,
        stmts: usize,
        end: Pos,
    },
    /// A specification of a package: its identifier, and the lists of its visible and its private
    /// part.
    Package {
        name: usize,
        visible: usize,
        hidden: usize,
    },
    /// The body of a package: its identifier, and the list of its declarations.
    PackageBody {
        name: usize,
        parts: usize,
    },
    /// `null;`
    Skip {
        pos: Pos,
    },
    /// target `:=` value
    Assign {
        target: usize,
        value: usize,
    },
    /// A call statement: its name.
    Call {
        name: usize,
    },
    /// `exit`, with a list of no condition or one.
    Exit {
        pos: Pos,
        condition: usize,
    },
    /// `return`, with a list of no value or one.
    Return {
        pos: Pos,
        value: usize,
    },
    /// `if`: the list of its branches, and the list of the statements after `else`.
    If {
        pos: Pos,
        branches: usize,
        otherwise: usize,
    },
    /// `if` or `elsif`: the condition and the list of statements.
    Branch {
        pos: Pos,
        condition: usize,
        stmts: usize,
    },
    /// `case`: its expression and the list of its alternatives.
    Case {
        pos: Pos,
        selector: usize,
        alternatives: usize,
    },
    /// A choice that is a value.
    Value {
        value: usize,
    },
    /// A choice low `..` high.
    Interval {
        low: usize,
        high: usize,
    },
    /// `others`
    OthersChoice {
        pos: Pos,
    },
    /// `when`: the list of choices and the list of statements.
    When {
        choices: usize,
        stmts: usize,
    },
    /// A plain `loop`.
    Loop {
        pos: Pos,
        stmts: usize,
    },
    /// `while`
    While {
        pos: Pos,
        condition: usize,
        stmts: usize,
    },
    /// `for`: its parameter, whether the order is reversed, its range and the list of its
    /// statements.
    For {
        pos: Pos,
        parameter: usize,
        reverse: bool,
        range: usize,
        stmts: usize,
    },
    /// A block: the lists of its items and of its statements, and the position of its `end`.
    Block {
        pos: Pos,
        items: usize,
        stmts: usize,
        end: Pos,
    },
    /// The end of a list.
    NoMore,
    /// The first of a list, and those after it.
    More {
        first: usize,
        rest: usize,
    },
}
