//! The sets of classes that the grammar names.

ghost use Rattle.std.specs.Prelude.{◌≡◌};
ghost use Rattle.jim_grammar.specs.Sets.{is_base, is_in, is_modifier, is_operator, is_relation};

use jim_signs::Lead;

/// A named set of classes of tokens. `Lead::Other`, which no token has, is in none.
#[derive(Clone, Copy, Debug, PartialEq, Eq, Hash)]
pub enum LeadSet {
    /// The words that may stand before a class or a member.
    Modifiers,
    /// What a type without its brackets may be: a primitive type or a name.
    Bases,
    /// `class` and `interface`.
    ClassWords,
    /// The six comparisons.
    Relations,
    /// What may stand between two operands: the comparisons, the arithmetic and bitwise operators, and `cmp`, `cmpg`, `cmpl`.
    Operators,
    /// The invokes with a receiver.
    PlainInvokes,
    /// `tableswitch` and `lookupswitch`.
    SwitchWords,
    /// `entermonitor` and `exitmonitor`.
    MonitorWords,
    /// `nop` and `breakpoint`.
    SkipWords,
    /// The types that only a declaration may have.
    OddTypes,
    /// What may stand in a `dynamicinvoke`: any token but `;`, `{` and `}`.
    NotEnds,
}

fn is_modifier(lead: Lead) -> bool
    ensures { result ≡ is_modifier lead }
{
    matches!(
        lead,
        Lead::Abstract
            | Lead::Final
            | Lead::Native
            | Lead::Public
            | Lead::Protected
            | Lead::Private
            | Lead::Static
            | Lead::Synchronized
            | Lead::Transient
            | Lead::Volatile
            | Lead::Strictfp
            | Lead::Enum
            | Lead::Annotation
    )
}

fn is_base(lead: Lead) -> bool
    ensures { result ≡ is_base lead }
{
    matches!(
        lead,
        Lead::Boolean
            | Lead::Byte
            | Lead::Short
            | Lead::Char
            | Lead::Int
            | Lead::Long
            | Lead::Float
            | Lead::Double
            | Lead::Name
    )
}

fn is_relation(lead: Lead) -> bool
    ensures { result ≡ is_relation lead }
{
    matches!(
        lead,
        Lead::Equal
            | Lead::NotEqual
            | Lead::Less
            | Lead::LessEqual
            | Lead::Greater
            | Lead::GreaterEqual
    )
}

fn is_operator(lead: Lead) -> bool
    ensures { result ≡ is_operator lead }
{
    matches!(
        lead,
        Lead::Equal
            | Lead::NotEqual
            | Lead::Less
            | Lead::LessEqual
            | Lead::Greater
            | Lead::GreaterEqual
            | Lead::Plus
            | Lead::Minus
            | Lead::Times
            | Lead::Slash
            | Lead::Percent
            | Lead::And
            | Lead::Or
            | Lead::Xor
            | Lead::ShiftLeft
            | Lead::ShiftRight
            | Lead::ShiftRightUnsigned
            | Lead::Cmp
            | Lead::Cmpg
            | Lead::Cmpl
    )
}

impl LeadSet {
    /// Whether the class is in the set.
    pub fn contains(self, lead: Lead) -> bool
        ensures { result ≡ is_in self lead }
    {
        match self {
            LeadSet::Modifiers => is_modifier(lead),
            LeadSet::Bases => is_base(lead),
            LeadSet::ClassWords => matches!(lead, Lead::Class | Lead::Interface),
            LeadSet::Relations => is_relation(lead),
            LeadSet::Operators => is_operator(lead),
            LeadSet::PlainInvokes => matches!(
                lead,
                Lead::SpecialInvoke | Lead::VirtualInvoke | Lead::InterfaceInvoke
            ),
            LeadSet::SwitchWords => matches!(lead, Lead::TableSwitch | Lead::LookupSwitch),
            LeadSet::MonitorWords => matches!(lead, Lead::EnterMonitor | Lead::ExitMonitor),
            LeadSet::SkipWords => matches!(lead, Lead::Nop | Lead::Breakpoint),
            LeadSet::OddTypes => matches!(lead, Lead::Unknown | Lead::NullType),
            LeadSet::NotEnds => !matches!(
                lead,
                Lead::Semicolon | Lead::OpenBrace | Lead::CloseBrace | Lead::Other
            ),
        }
    }
}
