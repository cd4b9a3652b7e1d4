ghost use Rattle.std.specs.Prelude.{◌≡◌, ◌↔◌, IsTrue};
ghost use Rattle.post_star.specs.Derivations.{Leads, IsSumOf};
ghost use Rattle.post_star.specs.Readings.{Reads, IsTableValue};

use super::bases::{BaseStep, Bases};
use auto_table::{Entry, Table};
use weight_laws::Weight;

/// Whether base steps lead from the base to the last one by the word.
fn leads(steps: &[BaseStep], base: u32, word: &[u32], last: u32) -> bool
    ensures { IsTrue result ↔ Leads steps.now base word.now last }
{
    match word.split_first() {
        None => base == last,
        Some((mark, rest)) => {
            for step in steps {
                if step.leads_from(base, *mark) && leads(steps, step.below, rest, last) {
                    return true;
                }
            }
            false
        }
    }
}

/// What the links of the readings that begin with the entry weigh together.
fn reading_of<W: Weight>(table: &Table<W>, bases: &Bases<'_>, entry: Entry, word: &[u32]) -> W
    ensures { IsSumOf W.domain (Reads W.domain bases.now.steps.now bases.now.last table.now entry word.now) result }
{
    let parents = table.parents(entry);
    match entry {
        Entry::Base(base) => {
            if leads(bases.steps, base, word, bases.last) {
                W::one()
            } else {
                W::zero()
            }
        }
        Entry::Pushed { node: _, mark } => match word.split_first() {
            None => W::zero(),
            Some((first, rest)) => {
                if *first != mark {
                    return W::zero();
                }
                let mut sum = W::zero();
                for linked in parents {
                    let product = reading_of(table, bases, linked.parent, rest).extend(
                        linked.weight,
                    );
                    sum = sum.combine(product);
                }
                sum
            }
        },
    }
}

/// The combination of the weights of all readings of the node and the word, of any table. It takes no memory. Its time
/// can double with each mark of the word.
pub fn value<W: Weight>(table: &Table<W>, bases: &Bases<'_>, node: u32, word: &[u32]) -> W
    ensures { IsTableValue W.domain bases.now.steps.now bases.now.last table.now node word.now result }
{
    let entries = table.entries();
    let mut sum = W::zero();
    for entry in entries {
        let product = reading_of(table, bases, *entry, word).extend(table.at(*entry, node));
        sum = sum.combine(product);
    }
    sum
}
