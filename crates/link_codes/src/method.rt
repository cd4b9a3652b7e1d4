//! The code of a method.
ghost use Rattle.std.specs.Prelude.{◌≡◌, ℕ, All, IfOk, IsSome, OnOk, flat_map};
ghost use Rattle.lists.specs.Lists.{Has};
ghost use Rattle.link_classes.specs.Classes.{IsKnown};
ghost use Rattle.link_classes.specs.Seen.{seen_method};
ghost use Rattle.link_rules.specs.declared.refusal.LinkKind.{LinkKind as AKind};
ghost use Rattle.link_rules.specs.Classes.{fields_of};
ghost use Rattle.link_rules.specs.Reach.{IsTarget, RefusesAt};
ghost use Rattle.link_rules.specs.Statements.{operands};
ghost use Rattle.link_codes.specs.Contexts.{context_of};
ghost use Rattle.link_codes.specs.Constants.{Uses};
ghost use Rattle.link_codes.specs.Fields.{field_numbers};
ghost use Rattle.link_codes.specs.Made.{MakesCatch, MakesCatches, MakesCodes};
ghost use Rattle.link_codes.specs.Methods.{IsMethodCode, UsesMethod};
ghost use Rattle.link_codes.specs.Needs.{HasParts, HasTrap};

use super::constants::Constants;
use super::elements::elements;
use super::fields::FieldNumbers;
use super::scope::MethodScope;
use super::stmts::statement;
use jim_ast::{Stmt, Trap};
use link_bodies::BodyIndex;
use link_calls::Targets;
use link_classes::MethodIn;
use link_program::{ElementText, Numbering};
use link_rules::{Catch, Code};
use lists::NoMemory;
use std::alloc::Global;

/// The code of a method: its statements, its handlers, and the arrays that it makes.
#[derive(Drop)]
pub struct MethodCode {
    pub code: Vec<Code>,
    pub catches: Vec<Catch>,
    pub elements: Vec<ElementText>,
}

// The code of statements, in order.
fn statements(
    alloc: Global,
    scope: &MethodScope,
    targets: &mut Targets,
    constants: &mut Constants,
    stmts: &[Stmt],
) -> Result<Vec<Code>, NoMemory>
    requires classes { targets.old ≡ scope.now.classes.now }
    requires parts { All (HasParts (context_of scope.now)) stmts.now }
    ensures code { IfOk result (λ code. MakesCodes (context_of scope.now) constants.new stmts.now code.items) }
    ensures uses { OnOk result (Uses (context_of scope.now).names (flat_map operands stmts.now) constants.old constants.new) }
    ensures same { targets.new ≡ targets.old }
{
    let mut code = Vec::with_capacity(alloc, stmts.len())?;
    for stmt in stmts {
        code.push(statement(alloc, scope, targets, constants, stmt)?)?;
    }
    Ok(code)
}

// The handler of a trap.
fn catch(scope: &MethodScope, trap: Trap) -> Catch
    requires { HasTrap (context_of scope.now) trap }
    ensures { MakesCatch (context_of scope.now) trap result }
{
    Catch {
        class: scope.class(trap.class),
        from: scope.jump(trap.from),
        to: scope.jump(trap.to),
        handler: scope.jump(trap.with),
    }
}

// The handlers of traps, in order.
fn catches(alloc: Global, scope: &MethodScope, traps: &[Trap]) -> Result<Vec<Catch>, NoMemory>
    requires { All (HasTrap (context_of scope.now)) traps.now }
    ensures { IfOk result (λ catches. MakesCatches (context_of scope.now) traps.now catches.items) }
{
    let mut catches = Vec::with_capacity(alloc, traps.len())?;
    for trap in traps {
        catches.push(catch(scope, *trap))?;
    }
    Ok(catches)
}

/// The code of a method that no rule refuses, whose targets are all numbered. Constants that it is the first to use are put last.
///
/// Nothing but memory can be wanting. Where it is, `constants` may have got some of the method's constants.
pub fn method_code(
    alloc: Global,
    targets: &mut Targets,
    fields: &FieldNumbers,
    numbering: &Numbering,
    constants: &mut Constants,
    method: &MethodIn,
) -> Result<MethodCode, NoMemory>
    requires known { IsKnown targets.old.texts method.now }
    requires fields { fields.now ≡ field_numbers (fields_of targets.old.world.classes) }
    requires body { IsSome method.now.decl.now.body }
    requires accepted { (index : ℕ) (kind : AKind) → RefusesAt targets.old.world (seen_method method.now) index kind → ⊥ }
    requires numbered { (index row : ℕ) → IsTarget targets.old.world (seen_method method.now) index row → Has numbering.now row }
    ensures code { IfOk result (IsMethodCode targets.old.world numbering.now (seen_method method.now) constants.new) }
    ensures uses { OnOk result (UsesMethod (seen_method method.now) constants.old constants.new) }
    ensures same { targets.new ≡ targets.old }
{
    let Some(body) = &method.decl.body else {
        unreachable!();
    };
    let scope = MethodScope {
        classes: targets.classes(),
        fields,
        numbering,
        ids: method.ids,
        body: BodyIndex::new(alloc, body)?,
    };
    let stmts = body.stmts.as_slice();
    let code = statements(alloc, &scope, targets, constants, stmts)?;
    let catches = catches(alloc, &scope, body.traps.as_slice())?;
    let elements = elements(alloc, &scope, stmts)?;
    Ok(MethodCode {
        code,
        catches,
        elements,
    })
}
