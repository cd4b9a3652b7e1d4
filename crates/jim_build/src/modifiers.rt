//! Modifiers.
ghost use Rattle.std.specs.Prelude.{◌≡◌, ◌≤◌, List, length, IsTrue, false, ◌||◌};
ghost use Rattle.jim_signs.specs.declared.seen.Sign.{Sign};
ghost use Rattle.jim_grammar.specs.declared.set.LeadSet.TheVariants.{Modifiers};
ghost use Rattle.jim_grammar.specs.Sets.{is_modifier};
ghost use Rattle.jim_grammar.specs.Expressions.{Star, One, Tree, spell};
ghost use Rattle.jim_stmts.specs.Leads.{lead_at};
ghost use Rattle.jim_build.specs.Members as meaning;
ghost use Rattle.jim_build.specs.Splits.{flags_of};

use jim_grammar::LeadSet;
use jim_signs::Lead;
use jim_stmts::Reader;

/// Which of the modifiers that count stand before a member or a class.
#[derive(Clone, Copy)]
pub(crate) struct Flags {
    pub(crate) is_static: bool,
    pub(crate) is_native: bool,
    pub(crate) is_abstract: bool,
}

fn is_modifier(lead: Lead) -> bool
    ensures { result ≡ is_modifier lead }
{
    LeadSet::Modifiers.contains(lead)
}

// The flags with those of one more modifier.
fn with(flags: Flags, lead: Lead) -> Flags
    ensures statics { result.is_static ≡ flags.is_static || meaning.is_static lead }
    ensures natives { result.is_native ≡ flags.is_native || meaning.is_native lead }
    ensures abstracts { result.is_abstract ≡ flags.is_abstract || meaning.is_abstract lead }
{
    Flags {
        is_static: flags.is_static || lead == Lead::Static,
        is_native: flags.is_native || lead == Lead::Native,
        is_abstract: flags.is_abstract || lead == Lead::Abstract,
    }
}

/// The flags of all modifiers that are next.
pub(crate) fn modifiers(reader: &mut Reader) -> Flags
    ensures flags { (x : Tree (Star (One Modifiers))) (r : List Sign) → reader.old ≡ spell (Star (One Modifiers)) x r →
        is_modifier (lead_at r) ≡ false → result ≡ flags_of x }
    ensures rest { (x : Tree (Star (One Modifiers))) (r : List Sign) → reader.old ≡ spell (Star (One Modifiers)) x r →
        is_modifier (lead_at r) ≡ false → reader.new ≡ r }
    ensures no_longer { length reader.new ≤ length reader.old }
{
    let mut flags = Flags {
        is_static: false,
        is_native: false,
        is_abstract: false,
    };
    while is_modifier(reader.lead()) {
        flags = with(flags, reader.lead());
        reader.skip();
    }
    flags
}
