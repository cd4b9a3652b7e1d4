//! The parts of the linked program of an accepted one.
ghost use Rattle.std.specs.Prelude.{◌≡◌, IfOk};
ghost use Rattle.link_reach.specs.Reaches.{AreReached};
ghost use Rattle.link_rules.specs.Reach.{AreInitialized};
ghost use Rattle.link_rules.specs.Refusals.{IsAccepted};
ghost use Rattle.jim_link.specs.Members.{AreMembers};
ghost use Rattle.jim_link.specs.Rows.{AreCodes, ArePartsOf, IsCodeOf};

use super::made::{Made, make_all};
use super::members::member_part;
use super::texts::owned_all;
use link_calls::Targets;
use link_codes::Constants;
use link_program::{CodePart, ConstantTexts, MemberPart, Numbering};
use link_reach::Reachable;
use lists::NoMemory;
use std::alloc::Global;

/// The parts of a linked program.
#[derive(Drop)]
pub struct Parts {
    pub code: CodePart,
    pub members: MemberPart,
}

// Copies of the constants.
fn constant_texts(alloc: Global, constants: &Constants) -> Result<ConstantTexts, NoMemory>
    ensures texts { IfOk result (λ t. t.texts ≡ constants.now.texts) }
    ensures class_texts { IfOk result (λ t. t.class_texts ≡ constants.now.class_texts) }
{
    let texts = owned_all(alloc, &constants.texts)?;
    Ok(ConstantTexts {
        texts,
        class_texts: owned_all(alloc, &constants.class_texts)?,
    })
}

// The methods that are made, with their rows and constants.
fn code_of(alloc: Global, rows: Numbering, made: Made) -> Result<CodePart, NoMemory>
    ensures { IfOk result (IsCodeOf rows made) }
{
    let constants = constant_texts(alloc, &made.constants)?;
    let Made { methods, .. } = made;
    Ok(CodePart {
        methods,
        rows,
        constants,
    })
}

// The methods of these rows, and the root that initializes these classes.
fn code_part(
    alloc: Global,
    targets: &mut Targets,
    rows: Numbering,
    initialized: &[u32],
) -> Result<CodePart, NoMemory>
    requires reached { AreReached targets.old.world rows }
    requires accepted { IsAccepted targets.old.world }
    requires initialized { AreInitialized targets.old.world initialized.now }
    ensures { IfOk result (AreCodes targets.old.world initialized.now) }
{
    let made = make_all(alloc, targets, &rows, initialized)?;
    code_of(alloc, rows, made)
}

// The code of what a run may reach.
fn reached_part(
    alloc: Global,
    targets: &mut Targets,
    reachable: Reachable,
) -> Result<CodePart, NoMemory>
    requires reached { AreReached targets.old.world reachable.rows.items }
    requires accepted { IsAccepted targets.old.world }
    requires initialized { AreInitialized targets.old.world reachable.initialized.items }
    ensures { IfOk result (AreCodes targets.old.world reachable.initialized.items) }
{
    let Reachable { rows, initialized } = reachable;
    let rows = Numbering::new(alloc, rows, targets.classes().method_count())?;
    code_part(alloc, targets, rows, initialized.as_slice())
}

/// The parts of the linked program of an accepted one, by what a run may reach.
pub fn accepted_parts(
    alloc: Global,
    targets: &mut Targets,
    reachable: Reachable,
) -> Result<Parts, NoMemory>
    requires reached { AreReached targets.old.world reachable.rows.items }
    requires accepted { IsAccepted targets.old.world }
    requires initialized { AreInitialized targets.old.world reachable.initialized.items }
    ensures { IfOk result (ArePartsOf targets.old.world) }
{
    let members = member_part(alloc, targets.classes())?;
    let code = reached_part(alloc, targets, reachable)?;
    Ok(Parts { code, members })
}
