//! How a method is examined, statement by statement.
ghost use Rattle.std.specs.Prelude.{◌≡◌, ◌+◌, ◌^◌, ◌<◌, ◌⊎◌, ◌↔◌, ℕ, Some, IfOk, OnOk, length, slice_get};
ghost use Rattle.lists.specs.Lists.{Has};
ghost use Rattle.jim_ast.specs.declared.names.NameId.{NameId as ANameId};
ghost use Rattle.link_rules.specs.Classes.{IsNamed};
ghost use Rattle.link_rules.specs.Names.{text_of};
ghost use Rattle.link_rules.specs.Statements.{HasBody};
ghost use Rattle.link_classes.specs.Classes.{IsKnown};
ghost use Rattle.link_classes.specs.Seen.{seen_method};
ghost use Rattle.link_faults.specs.AtSite.{AsksFor, HasTargetHere, IsFaultHere, IsSite, IsSiteOf};
ghost use Rattle.link_faults.specs.Callees.{IsCallWithin, IsCalleeIf};
ghost use Rattle.link_faults.specs.Examined.{IsExamined};
ghost use Rattle.link_faults.specs.Progress.{AsksForName, IsExaminedTo, IsNothing};

use super::beside::{end_of, fault_beside};
use super::callees::{Callee, callee_of};
use super::examined::{Examined, Fault};
use super::faults::earlier;
use super::mentioned::class_number;
use super::parts::{Called, access_of, new_of, plain_call};
use super::site::Site;
use jim_ast::{Body, Mode, NameId, Stmt};
use link_bodies::BodyIndex;
use link_calls::Targets;
use link_classes::{Classes, MethodIn};
use lists::NoMemory;
use std::alloc::{AllocError, Global};

// Puts the targets of the statement's call last.
fn add_targets(site: &Site, rows: &mut Vec<u32>) -> Result<(), NoMemory>
    requires { IsSite site.now }
    ensures { OnOk result ((row : ℕ) → Has rows.new.items row ↔ (Has rows.old.items row ⊎ HasTargetHere site.now row)) }
{
    if let Some(callee) = &site.callee
        && site.keeps_targets()
    {
        rows.extend_from_slice(callee.rows.as_slice())?;
    }
    Ok(())
}

// Puts the number of the class last, if it is declared.
fn add_class(
    classes: &Classes,
    method: &MethodIn,
    class: NameId,
    touched: &mut Vec<u32>,
) -> Result<(), NoMemory>
    requires known { IsKnown classes.now.texts method.now }
    requires within { class.0 < length (seen_method method.now).names }
    ensures { OnOk result ((number : ℕ) → Has touched.new.items number
        ↔ (Has touched.old.items number ⊎ IsNamed classes.now.world.classes (text_of (seen_method method.now).names class) number)) }
{
    if let Some(number) = class_number(classes, method, class) {
        touched.push(number)?;
    }
    Ok(())
}

// The class that the statement asks to be initialized: that of a `new`, of a static field or of a static call.
fn asked(stmt: &Stmt) -> Option<NameId>
    ensures { (class : ANameId) → (result ≡ Some class) ↔ AsksForName stmt.now class }
{
    if let Some(class) = new_of(stmt) {
        return Some(class);
    }
    if let Some(access) = access_of(stmt)
        && access.is_static
    {
        return Some(access.sig.class);
    }
    match plain_call(stmt) {
        Some(call) if call.mode == Mode::Static => Some(call.sig.class),
        _ => None,
    }
}

// Puts the class that the statement asks to be initialized last.
fn add_touched(site: &Site, touched: &mut Vec<u32>) -> Result<(), NoMemory>
    requires { IsSite site.now }
    ensures { OnOk result ((class : ℕ) → Has touched.new.items class ↔ (Has touched.old.items class ⊎ AsksFor site.now class)) }
{
    match asked(site.stmt) {
        Some(class) => add_class(site.classes, site.method, class, touched),
        None => Ok(()),
    }
}

// What refuses the statement first.
fn fault_at(site: &Site) -> Option<Fault>
    requires { IsSite site.now }
    ensures { IsFaultHere site.now result }
{
    let kind = site.first_refusal()?;
    Some(Fault {
        index: site.index,
        kind,
    })
}

// The statement with this index.
fn stmt_at<'a>(body: &BodyIndex<'a>, index: u32) -> &'a Stmt
    requires { index < length body.now.stmts }
    ensures { slice_get body.now.stmts index ≡ Some result.now }
{
    &body.body().stmts.as_slice()[index as usize]
}

// What the statement's call names and may run, if it has one.
fn callee_if(
    alloc: Global,
    targets: &mut Targets,
    method: &MethodIn,
    call: &Option<Called>,
) -> Result<Option<Callee>, NoMemory>
    requires known { IsKnown targets.old.texts method.now }
    requires within { IsCallWithin (seen_method method.now).names call.now }
    ensures same { targets.new ≡ targets.old }
    ensures callee { IfOk result (IsCalleeIf targets.old.world (seen_method method.now).names call.now) }
{
    match call {
        Some(call) => callee_of(alloc, targets, method, call),
        None => Ok(None),
    }
}

// The statement in its place.
fn site<'a, 'c>(
    alloc: Global,
    targets: &mut Targets<'c>,
    method: &'a MethodIn<'a>,
    body: &'a BodyIndex<'a>,
    index: u32,
) -> Result<Site<'a, 'c>, NoMemory>
    requires known { IsKnown targets.old.texts method.now }
    requires in_body { HasBody (seen_method method.now) body.now }
    requires few { length body.now.stmts < 2 ^ 32 }
    requires index { index < length body.now.stmts }
    ensures same { targets.new ≡ targets.old }
    ensures site { IfOk result IsSite }
    ensures parts { IfOk result (λ site. IsSiteOf targets.old method.now body.now index site) }
{
    let stmt = stmt_at(body, index);
    let call = plain_call(stmt);
    let callee = callee_if(alloc, targets, method, &call)?;
    Ok(Site {
        classes: targets.classes(),
        method,
        body,
        index,
        stmt,
        call,
        callee,
    })
}

// Goes on by a statement.
fn examine_stmt(
    alloc: Global,
    targets: &mut Targets,
    method: &MethodIn,
    body: &BodyIndex,
    index: u32,
    examined: &mut Examined,
) -> Result<(), NoMemory>
    requires known { IsKnown targets.old.texts method.now }
    requires in_body { HasBody (seen_method method.now) body.now }
    requires few { length body.now.stmts < 2 ^ 32 }
    requires index { index < length body.now.stmts }
    requires so_far { IsExaminedTo targets.old.world (seen_method method.now) body.now index examined.old }
    ensures same { targets.new ≡ targets.old }
    ensures examined { OnOk result (IsExaminedTo targets.old.world (seen_method method.now) body.now (index + 1) examined.new) }
{
    let site = site(alloc, targets, method, body, index)?;
    add_targets(&site, &mut examined.rows)?;
    add_touched(&site, &mut examined.touched)?;
    examined.fault = earlier(examined.fault, fault_at(&site));
    Ok(())
}

// All statements of a body.
fn examine_stmts(
    alloc: Global,
    targets: &mut Targets,
    method: &MethodIn,
    body: &BodyIndex,
) -> Result<Examined, NoMemory>
    requires known { IsKnown targets.old.texts method.now }
    requires in_body { HasBody (seen_method method.now) body.now }
    requires few { length body.now.stmts < 2 ^ 32 }
    ensures same { targets.new ≡ targets.old }
    ensures examined { IfOk result (IsExaminedTo targets.old.world (seen_method method.now) body.now (length body.now.stmts)) }
{
    let mut examined = nothing(alloc);
    let end = end_of(body);
    for index in 0..end {
        examine_stmt(alloc, targets, method, body, index, &mut examined)?;
    }
    Ok(examined)
}

// What is known before the first statement.
fn nothing(alloc: Global) -> Examined
    ensures { IsNothing result }
{
    Examined {
        fault: None,
        rows: Vec::new(alloc),
        touched: Vec::new(alloc),
    }
}

// Examines a method with this body.
fn examine_body(
    alloc: Global,
    targets: &mut Targets,
    method: &MethodIn,
    body: &Body,
) -> Result<Examined, NoMemory>
    requires known { IsKnown targets.old.texts method.now }
    requires in_body { HasBody (seen_method method.now) body.now }
    ensures same { targets.new ≡ targets.old }
    ensures examined { IfOk result (IsExamined targets.old.world (seen_method method.now)) }
{
    if body.stmts.as_slice().len() > u32::MAX as usize {
        return Err(AllocError);
    }
    let body = BodyIndex::new(alloc, body)?;
    let mut examined = examine_stmts(alloc, targets, method, &body)?;
    let beside = fault_beside(targets.classes(), method, &body);
    examined.fault = earlier(beside, examined.fault);
    Ok(examined)
}

/// Examines a method. A method without a body has no fault, calls nothing and asks for nothing. There is room for 4,294,967,295 statements and as
/// many locals; past that no memory is found.
pub fn examine(
    alloc: Global,
    targets: &mut Targets,
    method: &MethodIn,
) -> Result<Examined, NoMemory>
    requires known { IsKnown targets.old.texts method.now }
    ensures same { targets.new ≡ targets.old }
    ensures examined { IfOk result (IsExamined targets.old.world (seen_method method.now)) }
{
    match &method.decl.body {
        Some(body) => examine_body(alloc, targets, method, body),
        None => Ok(nothing(alloc)),
    }
}
