//! Lists of names.
ghost use Rattle.std.specs.Prelude.{◌≡◌, ◌≢◌, ◌≤◌, List, length, IfOk, OnOk};
ghost use Rattle.jim_text.specs.declared.lead.Lead.TheVariants as lead;
ghost use Rattle.jim_signs.specs.declared.seen.Sign.{Sign};
ghost use Rattle.jim_grammar.specs.Expressions.{Tree, spell};
ghost use Rattle.jim_grammar.specs.Grammar as grammar;
ghost use Rattle.jim_stmts.specs.Leads.{lead_at};
ghost use Rattle.jim_stmts.specs.Meanings.{names_of};

use super::reader::Reader;
use jim_ast::{List, NameId};
use jim_signs::Lead;
use lists::NoMemory;
use std::alloc::Global;

/// Names with commas between them, one at least, that no `,` follows.
pub fn names(alloc: Global, reader: &mut Reader) -> Result<List<NameId>, NoMemory>
    ensures names { (x : Tree grammar.names) (r : List Sign) → reader.old ≡ spell grammar.names x r →
        lead_at r ≢ lead.Comma → IfOk result (λ found. found ≡ names_of x) }
    ensures rest { (x : Tree grammar.names) (r : List Sign) → reader.old ≡ spell grammar.names x r →
        lead_at r ≢ lead.Comma → OnOk result (reader.new ≡ r) }
    ensures no_longer { OnOk result (length reader.new ≤ length reader.old) }
{
    let mut found = Vec::new(alloc);
    found.push(reader.name())?;
    while reader.is_at(Lead::Comma) {
        reader.skip();
        found.push(reader.name())?;
    }
    Ok(List::from_vec(found))
}
