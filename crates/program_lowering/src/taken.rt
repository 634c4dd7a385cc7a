//! The types of the values that points take.
ghost use Rattle.std.specs.Prelude.{◌≡◌, ◌<◌, ℕ, ◌∷◌, [], ◌++◌, IfSome, if◌then◌else◌};
ghost use Rattle.type_definitions.specs.Entries.{boolean};
ghost use Rattle.typed_tree.specs.Trees.{TypedCode};
ghost use Rattle.flow_paths.specs.Instructions.{instruction_of};
ghost use Rattle.flow_paths.specs.Laid.{result_of};
ghost use Rattle.flow_paths.specs.Names.{has_call};
ghost use Rattle.flow_paths.specs.Objects.{sub_at};
ghost use Rattle.typed_tree.specs.Nodes.{typed_at};
ghost use Rattle.run_codes.specs.Programs.{taken_types, point_takes};
ghost use Rattle.run_lowering.specs.Takes.{IsTakes};
ghost use Rattle.program_lowering.specs.Taken.{known, tree, turn_types, IsTurnBelow};

use crate::trees::Trees;
use flow_paths::Instr;
use run_lowering::Takes;
use typed_tree::TypedNode;

/// The declaration of Integer.
const INTEGER: u32 = 0;

/// The declaration of Boolean.
const BOOLEAN: u32 = 3;

/// What the types of the values that a tree takes are made of.
#[derive(Clone, Copy)]
pub(crate) enum Turn {
    /// It takes none.
    Ends,
    /// One of a type.
    Takes { of: u32 },
    /// Those of a part.
    Goes { rest: usize },
    /// Those of a part, and then those of another one.
    Both { head: usize, rest: usize },
}

impl<'p> Trees<'p> {
    /// The type of what a subprogram gives. A procedure counts as a function that gives Integer.
    fn given(&self, sub: u32) -> u32
        ensures { result ≡ result_of (sub_at (known self.now) sub).result }
    {
        match self.typing.result(sub) {
            Some(of) => of,
            None => INTEGER,
        }
    }

    /// The operands of a short circuit. With a call on the right, its value waits.
    fn operands(&self, left: usize, right: usize) -> Turn
        ensures types { turn_types self.now result ≡ (if has_call (tree self.now right) then boolean ∷ [] else taken_types (known self.now) (tree self.now left) ++ taken_types (known self.now) (tree self.now right)) }
        ensures below { (e : ℕ) → left < e → right < e → IsTurnBelow e result }
    {
        if self.rows.has_call(right) {
            return Turn::Takes { of: BOOLEAN };
        }
        Turn::Both {
            head: left,
            rest: right,
        }
    }

    /// What the types of the values that a tree takes are made of.
    #[tactic(auto, unfolding(run_codes::specs::Programs::taken_types))]
    fn turn(&self, e: usize) -> Turn
        ensures types { taken_types (known self.now) (tree self.now e) ≡ turn_types self.now result }
        ensures below { IsTurnBelow e result }
    {
        match self.rows.node(e) {
            TypedNode::Call { sub, .. } => Turn::Takes {
                of: self.given(*sub),
            },
            TypedNode::Short { left, right, .. } => self.operands(*left, *right),
            TypedNode::Name { steps, .. } => Turn::Goes { rest: *steps },
            TypedNode::Component { rest, .. } | TypedNode::Designated { rest } => {
                Turn::Goes { rest: *rest }
            }
            TypedNode::Parens { inner } => Turn::Goes { rest: *inner },
            TypedNode::Unary { operand, .. } => Turn::Goes { rest: *operand },
            TypedNode::IsNull { name, .. } => Turn::Goes { rest: *name },
            TypedNode::Aggregate { parts, .. } => Turn::Goes { rest: *parts },
            TypedNode::Image { value, .. }
            | TypedNode::Alike { value, .. }
            | TypedNode::New { value, .. } => Turn::Goes { rest: *value },
            TypedNode::Element { index, rest, .. } => Turn::Both {
                head: *index,
                rest: *rest,
            },
            TypedNode::Binary { left, right, .. } => Turn::Both {
                head: *left,
                rest: *right,
            },
            TypedNode::More { first, rest } => Turn::Both {
                head: *first,
                rest: *rest,
            },
            _ => Turn::Ends,
        }
    }

    /// Adds the types of the values that an expression takes.
    #[cycle(taken)]
    fn taken(&self, e: usize, found: &mut Takes) -> Option<()>
        requires { IsTakes self.now.typing.table.now found.old }
        ensures takes { IfSome result (λ _. IsTakes self.now.typing.table.now found.new) }
        ensures types { IfSome result (λ _. found.new.types.items ≡ found.old.types.items ++ taken_types (known self.now) (tree self.now e)) }
    {
        let mut at = e;
        'parts: loop {
            match self.turn(at) {
                Turn::Ends => return Some(()),
                Turn::Takes { of } => return found.push(self.typing.table, of),
                Turn::Goes { rest } => at = rest,
                Turn::Both { head, rest } => {
                    self.taken(head, found)?;
                    at = rest;
                }
            }
        }
    }

    /// Adds the types of the values that two expressions take.
    fn both(&self, a: usize, b: usize, found: &mut Takes) -> Option<()>
        requires { IsTakes self.now.typing.table.now found.old }
        ensures takes { IfSome result (λ _. IsTakes self.now.typing.table.now found.new) }
        ensures types { IfSome result (λ _. found.new.types.items ≡ found.old.types.items ++ (taken_types (known self.now) (tree self.now a) ++ taken_types (known self.now) (tree self.now b))) }
    {
        self.taken(a, found)?;
        self.taken(b, found)
    }

    /// Adds the types of the values that a point with this instruction takes.
    fn point_taken(&self, instr: &Instr, found: &mut Takes) -> Option<()>
        requires { IsTakes self.now.typing.table.now found.old }
        ensures takes { IfSome result (λ _. IsTakes self.now.typing.table.now found.new) }
        ensures types { (code : ℕ → TypedCode) → IfSome result (λ _. found.new.types.items ≡ found.old.types.items ++ point_takes (known self.now) (instruction_of (typed_at self.now.rows.now) code instr.now)) }
    {
        match instr {
            Instr::Declare { value: e, .. }
            | Instr::Call { actuals: e, .. }
            | Instr::Output { text: e, .. }
            | Instr::Input { target: e }
            | Instr::Release { name: e }
            | Instr::Test { condition: e }
            | Instr::Choose { selector: e, .. }
            | Instr::Evaluate { operand: e, .. }
            | Instr::LeaveLoop { condition: e }
            | Instr::Hold { value: e } => self.taken(*e, found),
            Instr::Assign { target, source } => self.both(*source, *target, found),
            Instr::Start { low, high, .. } => self.both(*low, *high, found),
            Instr::Skip
            | Instr::Next { .. }
            | Instr::EndScope { .. }
            | Instr::Finish
            | Instr::Fall => Some(()),
        }
    }

    /// The types of the values that a point with this instruction takes, the first one first.
    pub(crate) fn point_takes(&self, instr: &Instr) -> Option<Takes>
        ensures takes { IfSome result (λ found. IsTakes self.now.typing.table.now found) }
        ensures types { (code : ℕ → TypedCode) → IfSome result (λ found. found.types.items ≡ point_takes (known self.now) (instruction_of (typed_at self.now.rows.now) code instr.now)) }
    {
        let mut found = Takes::new(self.alloc);
        self.point_taken(instr, &mut found)?;
        Some(found)
    }
}
