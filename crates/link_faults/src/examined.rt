//! What linking has to know of a method.
use link_rules::LinkKind;

/// A rule that refuses a method, and the index of the statement. The index is 0 where two locals have one name or there is no statement, that
/// of the label where two labels have one name, and the number of statements for what is said of a trap.
#[derive(Clone, Copy, Debug, PartialEq, Eq)]
pub struct Fault {
    pub index: u32,
    pub kind: LinkKind,
}

/// What linking has to know of a method: the first refusal, if a rule refuses it; the rows of the methods that its calls may run where no rule
/// forbids it; and the numbers of the classes that it asks to be initialized. Both lists are read as sets: in which order a number stands
/// there, and how often, isn't said.
#[derive(Drop)]
pub struct Examined {
    pub fault: Option<Fault>,
    pub rows: Vec<u32>,
    pub touched: Vec<u32>,
}
