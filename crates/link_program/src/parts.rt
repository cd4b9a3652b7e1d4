//! The parts of a linked program.
use super::classes::ClassTable;
use super::heads::Heads;
use super::methods::Methods;
use super::numbering::Numbering;
use class_tree::Tree;
use default_turns::Selections;
use jim_ast::{List, Name};

/// The constants, each kind in the order of first use.
#[derive(Drop)]
pub struct ConstantTexts {
    pub texts: List<Name>,
    pub class_texts: List<Name>,
}

/// The methods, the root last, of each but the root its row, and the constants that they use.
#[derive(Drop)]
pub struct CodePart {
    pub methods: Methods,
    pub rows: Numbering,
    pub constants: ConstantTexts,
}

/// A key of methods: the name, and whether it is of static methods.
#[derive(Drop)]
pub struct KeyEntry {
    pub name: Name,
    pub is_static: bool,
}

/// An instance field: the number of the class that declares it, and its name.
#[derive(Drop)]
pub struct FieldEntry {
    pub class: u32,
    pub name: Name,
}

/// The classes, the keys of methods, the instance fields in order, fewer than 4,294,967,296, and how many static fields there are.
#[derive(Drop)]
pub struct MemberPart {
    pub classes: ClassTable,
    pub keys: List<KeyEntry>,
    pub fields: List<FieldEntry>,
    pub static_count: u32,
}

/// All of a linked program but the code of its methods: what narrowed programs have in common.
#[derive(Drop)]
pub struct Shared {
    pub heads: Heads,
    pub rows: Numbering,
    pub constants: ConstantTexts,
    pub members: MemberPart,
    pub tree: Tree,
    pub selections: Selections,
}
