//! Statements.
ghost use Rattle.std.specs.Prelude.{◌≡◌, ◌≢◌, ◌<◌, ◌≤◌, List, length, map, IfOk, OnOk};
ghost use Rattle.jim_text.specs.declared.lead.Lead.TheVariants as lead;
ghost use Rattle.jim_signs.specs.declared.seen.Sign.{Sign};
ghost use Rattle.jim_grammar.specs.Expressions.{Tree, Star, spell};
ghost use Rattle.jim_grammar.specs.Forms.{ThisStmt, ParamStmt, CaughtStmt, AssignStmt, PutFieldStmt, PutStaticStmt, PutCellStmt, CallStmt, IfStmt, GotoStmt, SwitchStmt, ReturnStmt, RetStmt, ThrowStmt, MonitorStmt, SkipStmt};
ghost use Rattle.jim_grammar.specs.Grammar as grammar;
ghost use Rattle.jim_stmts.specs.Leads.{lead_at, second_at};
ghost use Rattle.jim_stmts.specs.Meanings.{case_of, stmt_of};

use super::calls::invoke;
use super::exprs::expr;
use super::operands::{imm, maybe_imm};
use super::reader::Reader;
use super::signatures::{field_sig, ty};
use jim_ast::{List, NameId, Stmt};
use jim_signs::Lead;
use lists::NoMemory;
use std::alloc::Global;

fn this(reader: &mut Reader) -> Stmt
    ensures stmt { (x : Tree (grammar.by_stmt ThisStmt)) (r : List Sign) → reader.old ≡ spell (grammar.by_stmt ThisStmt) x r →
        result ≡ stmt_of (ThisStmt, x) }
    ensures rest { (x : Tree (grammar.by_stmt ThisStmt)) (r : List Sign) → reader.old ≡ spell (grammar.by_stmt ThisStmt) x r →
        reader.new ≡ r }
    ensures shorter { 0 < length reader.old → length reader.new < length reader.old }
{
    let local = reader.name();
    reader.skip();
    reader.skip();
    reader.skip();
    ty(reader);
    reader.skip();
    Stmt::This(local)
}

fn param(reader: &mut Reader) -> Stmt
    ensures stmt { (x : Tree (grammar.by_stmt ParamStmt)) (r : List Sign) → reader.old ≡ spell (grammar.by_stmt ParamStmt) x r →
        result ≡ stmt_of (ParamStmt, x) }
    ensures rest { (x : Tree (grammar.by_stmt ParamStmt)) (r : List Sign) → reader.old ≡ spell (grammar.by_stmt ParamStmt) x r →
        reader.new ≡ r }
    ensures shorter { 0 < length reader.old → length reader.new < length reader.old }
{
    let local = reader.name();
    reader.skip();
    let number = reader.number();
    reader.skip();
    ty(reader);
    reader.skip();
    Stmt::Param(local, number)
}

fn caught(reader: &mut Reader) -> Stmt
    ensures stmt { (x : Tree (grammar.by_stmt CaughtStmt)) (r : List Sign) → reader.old ≡ spell (grammar.by_stmt CaughtStmt) x r →
        result ≡ stmt_of (CaughtStmt, x) }
    ensures rest { (x : Tree (grammar.by_stmt CaughtStmt)) (r : List Sign) → reader.old ≡ spell (grammar.by_stmt CaughtStmt) x r →
        reader.new ≡ r }
    ensures shorter { 0 < length reader.old → length reader.new < length reader.old }
{
    let local = reader.name();
    reader.skip();
    reader.skip();
    reader.skip();
    Stmt::Caught(local)
}

fn assign(alloc: Global, reader: &mut Reader) -> Result<Stmt, NoMemory>
    ensures stmt { (x : Tree (grammar.by_stmt AssignStmt)) (r : List Sign) → reader.old ≡ spell (grammar.by_stmt AssignStmt) x r →
        IfOk result (λ found. found ≡ stmt_of (AssignStmt, x)) }
    ensures rest { (x : Tree (grammar.by_stmt AssignStmt)) (r : List Sign) → reader.old ≡ spell (grammar.by_stmt AssignStmt) x r →
        OnOk result (reader.new ≡ r) }
    ensures shorter { 0 < length reader.old → OnOk result (length reader.new < length reader.old) }
{
    let local = reader.name();
    reader.skip();
    let value = expr(alloc, reader)?;
    reader.skip();
    Ok(Stmt::Assign(local, value))
}

fn put_field(reader: &mut Reader) -> Stmt
    ensures stmt { (x : Tree (grammar.by_stmt PutFieldStmt)) (r : List Sign) → reader.old ≡ spell (grammar.by_stmt PutFieldStmt) x r →
        result ≡ stmt_of (PutFieldStmt, x) }
    ensures rest { (x : Tree (grammar.by_stmt PutFieldStmt)) (r : List Sign) → reader.old ≡ spell (grammar.by_stmt PutFieldStmt) x r →
        reader.new ≡ r }
    ensures shorter { 0 < length reader.old → length reader.new < length reader.old }
{
    let local = reader.name();
    reader.skip();
    let sig = field_sig(reader);
    reader.skip();
    let value = imm(reader);
    reader.skip();
    Stmt::PutField(local, sig, value)
}

fn put_static(reader: &mut Reader) -> Stmt
    ensures stmt { (x : Tree (grammar.by_stmt PutStaticStmt)) (r : List Sign) → reader.old ≡ spell (grammar.by_stmt PutStaticStmt) x r →
        result ≡ stmt_of (PutStaticStmt, x) }
    ensures rest { (x : Tree (grammar.by_stmt PutStaticStmt)) (r : List Sign) → reader.old ≡ spell (grammar.by_stmt PutStaticStmt) x r →
        reader.new ≡ r }
    ensures shorter { 0 < length reader.old → length reader.new < length reader.old }
{
    let sig = field_sig(reader);
    reader.skip();
    let value = imm(reader);
    reader.skip();
    Stmt::PutStatic(sig, value)
}

fn put_cell(reader: &mut Reader) -> Stmt
    ensures stmt { (x : Tree (grammar.by_stmt PutCellStmt)) (r : List Sign) → reader.old ≡ spell (grammar.by_stmt PutCellStmt) x r →
        result ≡ stmt_of (PutCellStmt, x) }
    ensures rest { (x : Tree (grammar.by_stmt PutCellStmt)) (r : List Sign) → reader.old ≡ spell (grammar.by_stmt PutCellStmt) x r →
        reader.new ≡ r }
    ensures shorter { 0 < length reader.old → length reader.new < length reader.old }
{
    let local = reader.name();
    reader.skip();
    imm(reader);
    reader.skip();
    reader.skip();
    let value = imm(reader);
    reader.skip();
    Stmt::PutCell(local, value)
}

fn call(alloc: Global, reader: &mut Reader) -> Result<Stmt, NoMemory>
    ensures stmt { (x : Tree (grammar.by_stmt CallStmt)) (r : List Sign) → reader.old ≡ spell (grammar.by_stmt CallStmt) x r →
        IfOk result (λ found. found ≡ stmt_of (CallStmt, x)) }
    ensures rest { (x : Tree (grammar.by_stmt CallStmt)) (r : List Sign) → reader.old ≡ spell (grammar.by_stmt CallStmt) x r →
        OnOk result (reader.new ≡ r) }
    ensures shorter { 0 < length reader.old → OnOk result (length reader.new < length reader.old) }
{
    let call = invoke(alloc, reader)?;
    reader.skip();
    Ok(Stmt::Call(call))
}

fn branch(reader: &mut Reader) -> Stmt
    ensures stmt { (x : Tree (grammar.by_stmt IfStmt)) (r : List Sign) → reader.old ≡ spell (grammar.by_stmt IfStmt) x r →
        result ≡ stmt_of (IfStmt, x) }
    ensures rest { (x : Tree (grammar.by_stmt IfStmt)) (r : List Sign) → reader.old ≡ spell (grammar.by_stmt IfStmt) x r →
        reader.new ≡ r }
    ensures shorter { 0 < length reader.old → length reader.new < length reader.old }
{
    reader.skip();
    imm(reader);
    reader.skip();
    imm(reader);
    reader.skip();
    let label = reader.name();
    reader.skip();
    Stmt::If(label)
}

fn goto(reader: &mut Reader) -> Stmt
    ensures stmt { (x : Tree (grammar.by_stmt GotoStmt)) (r : List Sign) → reader.old ≡ spell (grammar.by_stmt GotoStmt) x r →
        result ≡ stmt_of (GotoStmt, x) }
    ensures rest { (x : Tree (grammar.by_stmt GotoStmt)) (r : List Sign) → reader.old ≡ spell (grammar.by_stmt GotoStmt) x r →
        reader.new ≡ r }
    ensures shorter { 0 < length reader.old → length reader.new < length reader.old }
{
    reader.skip();
    let label = reader.name();
    reader.skip();
    Stmt::Goto(label)
}

// A case of a switch: its label.
fn case(reader: &mut Reader) -> NameId
    ensures label { (x : Tree grammar.case_line) (r : List Sign) → reader.old ≡ spell grammar.case_line x r → result ≡ case_of x }
    ensures rest { (x : Tree grammar.case_line) (r : List Sign) → reader.old ≡ spell grammar.case_line x r → reader.new ≡ r }
    ensures shorter { 0 < length reader.old → length reader.new < length reader.old }
{
    reader.skip();
    if reader.is_at(Lead::Minus) {
        reader.skip();
    }
    reader.skip();
    reader.skip();
    reader.skip();
    let label = reader.name();
    reader.skip();
    label
}

// The labels of the cases of a switch.
fn cases(alloc: Global, reader: &mut Reader) -> Result<Vec<NameId>, NoMemory>
    ensures labels { (xs : Tree (Star grammar.case_line)) (r : List Sign) → reader.old ≡ spell (Star grammar.case_line) xs r →
        lead_at r ≢ lead.Case → IfOk result (λ labels. labels.items ≡ map case_of xs) }
    ensures rest { (xs : Tree (Star grammar.case_line)) (r : List Sign) → reader.old ≡ spell (Star grammar.case_line) xs r →
        lead_at r ≢ lead.Case → OnOk result (reader.new ≡ r) }
    ensures no_longer { OnOk result (length reader.new ≤ length reader.old) }
{
    let mut labels = Vec::new(alloc);
    while reader.is_at(Lead::Case) {
        labels.push(case(reader))?;
    }
    Ok(labels)
}

fn switch(alloc: Global, reader: &mut Reader) -> Result<Stmt, NoMemory>
    ensures stmt { (x : Tree (grammar.by_stmt SwitchStmt)) (r : List Sign) → reader.old ≡ spell (grammar.by_stmt SwitchStmt) x r →
        IfOk result (λ found. found ≡ stmt_of (SwitchStmt, x)) }
    ensures rest { (x : Tree (grammar.by_stmt SwitchStmt)) (r : List Sign) → reader.old ≡ spell (grammar.by_stmt SwitchStmt) x r →
        OnOk result (reader.new ≡ r) }
    ensures shorter { 0 < length reader.old → OnOk result (length reader.new < length reader.old) }
{
    reader.skip();
    reader.skip();
    imm(reader);
    reader.skip();
    reader.skip();
    let mut labels = cases(alloc, reader)?;
    reader.skip();
    reader.skip();
    reader.skip();
    labels.push(reader.name())?;
    reader.skip();
    reader.skip();
    reader.skip();
    Ok(Stmt::Switch(List::from_vec(labels)))
}

fn return_value(reader: &mut Reader) -> Stmt
    ensures stmt { (x : Tree (grammar.by_stmt ReturnStmt)) (r : List Sign) → reader.old ≡ spell (grammar.by_stmt ReturnStmt) x r →
        result ≡ stmt_of (ReturnStmt, x) }
    ensures rest { (x : Tree (grammar.by_stmt ReturnStmt)) (r : List Sign) → reader.old ≡ spell (grammar.by_stmt ReturnStmt) x r →
        reader.new ≡ r }
    ensures shorter { 0 < length reader.old → length reader.new < length reader.old }
{
    reader.skip();
    let value = maybe_imm(reader);
    reader.skip();
    Stmt::Return(value)
}

fn ret(reader: &mut Reader) -> Stmt
    ensures stmt { (x : Tree (grammar.by_stmt RetStmt)) (r : List Sign) → reader.old ≡ spell (grammar.by_stmt RetStmt) x r →
        result ≡ stmt_of (RetStmt, x) }
    ensures rest { (x : Tree (grammar.by_stmt RetStmt)) (r : List Sign) → reader.old ≡ spell (grammar.by_stmt RetStmt) x r →
        reader.new ≡ r }
    ensures shorter { 0 < length reader.old → length reader.new < length reader.old }
{
    reader.skip();
    maybe_imm(reader);
    reader.skip();
    Stmt::Ret
}

fn throw(reader: &mut Reader) -> Stmt
    ensures stmt { (x : Tree (grammar.by_stmt ThrowStmt)) (r : List Sign) → reader.old ≡ spell (grammar.by_stmt ThrowStmt) x r →
        result ≡ stmt_of (ThrowStmt, x) }
    ensures rest { (x : Tree (grammar.by_stmt ThrowStmt)) (r : List Sign) → reader.old ≡ spell (grammar.by_stmt ThrowStmt) x r →
        reader.new ≡ r }
    ensures shorter { 0 < length reader.old → length reader.new < length reader.old }
{
    reader.skip();
    let value = imm(reader);
    reader.skip();
    Stmt::Throw(value)
}

fn monitor(reader: &mut Reader) -> Stmt
    ensures stmt { (x : Tree (grammar.by_stmt MonitorStmt)) (r : List Sign) → reader.old ≡ spell (grammar.by_stmt MonitorStmt) x r →
        result ≡ stmt_of (MonitorStmt, x) }
    ensures rest { (x : Tree (grammar.by_stmt MonitorStmt)) (r : List Sign) → reader.old ≡ spell (grammar.by_stmt MonitorStmt) x r →
        reader.new ≡ r }
    ensures shorter { 0 < length reader.old → length reader.new < length reader.old }
{
    reader.skip();
    let value = imm(reader);
    reader.skip();
    Stmt::Monitor(value)
}

fn no_operation(reader: &mut Reader) -> Stmt
    ensures stmt { (x : Tree (grammar.by_stmt SkipStmt)) (r : List Sign) → reader.old ≡ spell (grammar.by_stmt SkipStmt) x r →
        result ≡ stmt_of (SkipStmt, x) }
    ensures rest { (x : Tree (grammar.by_stmt SkipStmt)) (r : List Sign) → reader.old ≡ spell (grammar.by_stmt SkipStmt) x r →
        reader.new ≡ r }
    ensures shorter { 0 < length reader.old → length reader.new < length reader.old }
{
    reader.skip();
    reader.skip();
    Stmt::Skip
}

// A statement that begins with a name and `:=`.
fn identity(reader: &mut Reader) -> Stmt
    ensures stmt { (x : Tree grammar.stmt) (r : List Sign) → reader.old ≡ spell grammar.stmt x r →
        lead_at reader.old ≡ lead.Name → second_at reader.old ≡ lead.Define → result ≡ stmt_of x }
    ensures rest { (x : Tree grammar.stmt) (r : List Sign) → reader.old ≡ spell grammar.stmt x r →
        lead_at reader.old ≡ lead.Name → second_at reader.old ≡ lead.Define → reader.new ≡ r }
    ensures shorter { 0 < length reader.old → length reader.new < length reader.old }
{
    match reader.third() {
        Lead::This => this(reader),
        Lead::Parameter => param(reader),
        _ => caught(reader),
    }
}

// A statement that a name begins.
fn name_first(alloc: Global, reader: &mut Reader) -> Result<Stmt, NoMemory>
    ensures stmt { (x : Tree grammar.stmt) (r : List Sign) → reader.old ≡ spell grammar.stmt x r →
        lead_at reader.old ≡ lead.Name → IfOk result (λ found. found ≡ stmt_of x) }
    ensures rest { (x : Tree grammar.stmt) (r : List Sign) → reader.old ≡ spell grammar.stmt x r →
        lead_at reader.old ≡ lead.Name → OnOk result (reader.new ≡ r) }
    ensures shorter { 0 < length reader.old → OnOk result (length reader.new < length reader.old) }
{
    match reader.second() {
        Lead::Define => Ok(identity(reader)),
        Lead::Assign => assign(alloc, reader),
        Lead::Dot => Ok(put_field(reader)),
        _ => Ok(put_cell(reader)),
    }
}

/// A statement.
pub fn stmt(alloc: Global, reader: &mut Reader) -> Result<Stmt, NoMemory>
    ensures stmt { (x : Tree grammar.stmt) (r : List Sign) → reader.old ≡ spell grammar.stmt x r →
        IfOk result (λ found. found ≡ stmt_of x) }
    ensures rest { (x : Tree grammar.stmt) (r : List Sign) → reader.old ≡ spell grammar.stmt x r → OnOk result (reader.new ≡ r) }
    ensures shorter { 0 < length reader.old → OnOk result (length reader.new < length reader.old) }
{
    match reader.lead() {
        Lead::Name => name_first(alloc, reader),
        Lead::Less => Ok(put_static(reader)),
        Lead::If => Ok(branch(reader)),
        Lead::Goto => Ok(goto(reader)),
        Lead::TableSwitch | Lead::LookupSwitch => switch(alloc, reader),
        Lead::Return => Ok(return_value(reader)),
        Lead::Ret => Ok(ret(reader)),
        Lead::Throw => Ok(throw(reader)),
        Lead::EnterMonitor | Lead::ExitMonitor => Ok(monitor(reader)),
        Lead::Nop | Lead::Breakpoint => Ok(no_operation(reader)),
        _ => call(alloc, reader),
    }
}
