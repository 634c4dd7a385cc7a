//! The sentences on code that holds no other code.
ghost use Rattle.std.specs.Prelude.{◌≡◌, ◌<◌, length};
ghost use Rattle.resolved_tree.specs.Nodes.{code_at};
ghost use Rattle.type_definitions.specs.Faults.{noted};
ghost use Rattle.type_definitions.specs.Declarations.{declaration_faults, plain_faults};
ghost use Rattle.expression_rules.specs.Around.{context};

use crate::instances::instance_faults;
use crate::objects::object_faults;
use crate::places::starting;
use crate::profiles::front_faults;
use crate::types::{bound_faults, renamed_faults, subtype_faults, type_faults};
use expression_rules::Checker;
use expression_types::INTEGER;
use resolved_tree::CodeNode;
use statement_rules::{assign_faults, call_faults, condition, returned, target_faults};
use type_definitions::Fault;
use type_settled::demand;

/// With the faults of a declaration.
fn declaration_faults(checker: &Checker<'_>, found: Option<Fault>, code: usize) -> Option<Fault>
    requires { code < length checker.now.rows.now.1 }
    ensures { result ≡ noted found (declaration_faults (context checker.now) (code_at checker.now.rows.now code)) }
{
    match checker.rows.code(code) {
        CodeNode::TypeDecl {
            name,
            definition,
            ..
        } => type_faults(checker, found, *name, *definition),
        CodeNode::Subtype { mark, .. } => renamed_faults(checker, found, *mark),
        CodeNode::ConstrainedSubtype {
            mark,
            low,
            high,
            ..
        } => subtype_faults(checker, found, *mark, *low, *high),
        CodeNode::Objects {
            names,
            constant,
            of,
            value,
        } => object_faults(checker, found, *names, *constant, *of, *value),
        CodeNode::Numbers { value, .. } => bound_faults(&starting(checker), found, INTEGER, *value),
        CodeNode::Instance {
            name,
            generic,
            args,
        } => instance_faults(checker, found, *name, *generic, *args),
        CodeNode::SubDecl { front } => front_faults(checker, found, *front),
        _ => found,
    }
}

/// With the faults of a statement or declaration that holds no other code.
#[tactic(auto, using(expression_rules::proofs::Noted::noted_append))]
pub fn plain_faults(checker: &Checker<'_>, found: Option<Fault>, code: usize) -> Option<Fault>
    requires { code < length checker.now.rows.now.1 }
    ensures { result ≡ noted found (plain_faults (context checker.now) (code_at checker.now.rows.now code)) }
{
    match checker.rows.code(code) {
        CodeNode::Assign { target, value } => {
            let found = target_faults(checker, found, *target);
            assign_faults(checker, found, *target, *value)
        }
        CodeNode::Call { name } => call_faults(checker, found, *name),
        CodeNode::Exit {
            pos,
            condition: list,
        } => {
            let found = demand(found, 3, *pos, checker.in_loop);
            condition(checker, found, *list)
        }
        CodeNode::Return { pos, value } => returned(checker, found, *pos, *value),
        _ => declaration_faults(checker, found, code),
    }
}
