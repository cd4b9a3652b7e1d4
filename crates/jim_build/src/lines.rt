//! Lines of a body: labels and statements.
ghost use Rattle.std.specs.Prelude.{◌≡◌, ◌≢◌, ◌<◌, ◌≤◌, ◌++◌, List as Items, [], ◌∷◌, length, false, true, IfOk, OnOk, ◌↔◌, IsTrue};
ghost use Rattle.jim_text.specs.declared.lead.Lead.TheVariants as lead;
ghost use Rattle.jim_signs.specs.declared.seen.Sign.{Sign};
ghost use Rattle.jim_grammar.specs.Expressions.{Star, Tree, spell};
ghost use Rattle.jim_grammar.specs.Grammar.{line};
ghost use Rattle.jim_stmts.specs.Leads.{lead_at, second_at};
ghost use Rattle.jim_build.specs.Splits as split;
ghost use Rattle.jim_build.specs.Bodies.{stmts_of, labels_from};

use jim_ast::{Label, List, NameId, Stmt};
use jim_signs::Lead;
use jim_stmts::{Reader, stmt};
use lists::NoMemory;
use std::alloc::{AllocError, Global};

fn begins_line(lead: Lead) -> bool
    ensures { result ≡ split.begins_line lead }
{
    !matches!(lead, Lead::Catch | Lead::CloseBrace | Lead::Other)
}

// Whether a label is next, where a label or a statement is. A colon may be second in a `dynamicinvoke` as well.
fn begins_label(reader: &Reader) -> bool
    ensures { IsTrue result ↔ ((lead_at reader.now ≡ lead.Name) × (second_at reader.now ≡ lead.Colon)) }
{
    reader.is_at(Lead::Name) && reader.second() == Lead::Colon
}

// The label with this name behind so many statements. More than a `u32` counts are more than there is memory for.
fn label(name: NameId, before: usize) -> Result<Label, NoMemory>
    ensures { IfOk result (λ label. label ≡ record { name = name; index = before }) }
{
    let Ok(index) = u32::try_from(before) else {
        return Err(AllocError);
    };
    Ok(Label { name, index })
}

// Puts a label or a statement behind those before it.
fn line(
    alloc: Global,
    reader: &mut Reader,
    stmts: &mut Vec<Stmt>,
    labels: &mut Vec<Label>,
) -> Result<(), NoMemory>
    ensures stmts { (x : Tree line) (r : Items Sign) → reader.old ≡ spell line x r →
        OnOk result (stmts.new.items ≡ stmts.old.items ++ stmts_of (x ∷ [])) }
    ensures labels { (x : Tree line) (r : Items Sign) → reader.old ≡ spell line x r →
        OnOk result (labels.new.items ≡ labels.old.items ++ labels_from (length stmts.old.items) (x ∷ [])) }
    ensures rest { (x : Tree line) (r : Items Sign) → reader.old ≡ spell line x r → OnOk result (reader.new ≡ r) }
    ensures shorter { 0 < length reader.old → OnOk result (length reader.new < length reader.old) }
{
    if begins_label(reader) {
        let name = reader.name();
        reader.skip();
        labels.push(label(name, stmts.len())?)?;
        return Ok(());
    }
    stmts.push(stmt(alloc, reader)?)?;
    Ok(())
}

/// The statements and the labels of a body, each in order.
pub(crate) fn lines(
    alloc: Global,
    reader: &mut Reader,
) -> Result<(List<Stmt>, List<Label>), NoMemory>
    ensures stmts { (x : Tree (Star line)) (r : Items Sign) → reader.old ≡ spell (Star line) x r →
        split.begins_line (lead_at r) ≡ false → IfOk result (λ found. found.0 ≡ stmts_of x) }
    ensures labels { (x : Tree (Star line)) (r : Items Sign) → reader.old ≡ spell (Star line) x r →
        split.begins_line (lead_at r) ≡ false → IfOk result (λ found. found.1 ≡ labels_from 0 x) }
    ensures rest { (x : Tree (Star line)) (r : Items Sign) → reader.old ≡ spell (Star line) x r → split.begins_line (lead_at r) ≡ false →
        OnOk result (reader.new ≡ r) }
    ensures no_longer { OnOk result (length reader.new ≤ length reader.old) }
{
    let mut stmts = Vec::new(alloc);
    let mut labels = Vec::new(alloc);
    while begins_line(reader.lead()) {
        line(alloc, reader, &mut stmts, &mut labels)?;
    }
    Ok((List::from_vec(stmts), List::from_vec(labels)))
}
