//! Fields of interfaces, over rows of which the answers were found by hand.
ghost use Rattle.std.specs.Prelude.{◌≡◌, length, IfOk};

use class_rules::{ClassRow, FieldRow};
use class_tree::{Tree, TreeError, build};
use std::alloc::Global;
use std::test::Fail;

const TOP: ClassRow = ClassRow {
    parent: None,
    interface: false,
};

const CLASS: ClassRow = ClassRow {
    parent: Some(0),
    interface: false,
};

const BELOW_1: ClassRow = ClassRow {
    parent: Some(1),
    interface: false,
};

const INTERFACE: ClassRow = ClassRow {
    parent: Some(0),
    interface: true,
};

// Each of the interfaces 2 to 4 extends the next, and 6 extends 5 too. 12 to 15 stand alone.
const SIXTEEN: [ClassRow; 16] = [
    TOP, CLASS, INTERFACE, INTERFACE, INTERFACE, INTERFACE, INTERFACE, CLASS, CLASS, CLASS, CLASS,
    BELOW_1, INTERFACE, INTERFACE, INTERFACE, INTERFACE,
];

// 9 is a class, and named as an interface of 10.
const IMPLEMENT: [(u32, u32); 10] = [
    (1, 2),
    (2, 3),
    (3, 4),
    (4, 5),
    (6, 5),
    (7, 2),
    (7, 6),
    (8, 6),
    (8, 2),
    (10, 9),
];

const FIELDS: [FieldRow; 17] = [
    FieldRow { class: 5, key: 60 },
    FieldRow { class: 5, key: 60 },
    FieldRow { class: 4, key: 61 },
    FieldRow { class: 6, key: 61 },
    FieldRow { class: 9, key: 62 },
    FieldRow { class: 1, key: 63 },
    FieldRow { class: 5, key: 63 },
    FieldRow { class: 2, key: 64 },
    FieldRow { class: 3, key: 64 },
    FieldRow { class: 4, key: 64 },
    FieldRow { class: 5, key: 64 },
    FieldRow { class: 6, key: 64 },
    FieldRow { class: 6, key: 65 },
    FieldRow { class: 12, key: 65 },
    FieldRow { class: 13, key: 65 },
    FieldRow { class: 14, key: 65 },
    FieldRow { class: 15, key: 65 },
];

fn of_sixteen(alloc: Global) -> Result<Tree, TreeError>
    ensures { IfOk result (λ tree. length tree.classes ≡ 16) }
{
    build(alloc, &SIXTEEN, &IMPLEMENT, &[], &FIELDS)
}

// The key 60 is that of the last of the chain alone, to which two ways lead from 7.
fn is_at_the_end(tree: &Tree) -> bool
    requires { length tree.now.classes ≡ 16 }
{
    let along = tree.field(1, 60) == Some(0) && tree.field(3, 60) == Some(0);
    let itself = tree.field(5, 60) == Some(0) && tree.field(7, 60) == Some(0);
    along && itself && tree.field(11, 60) == Some(0) && tree.field(0, 60).is_none()
}

// The key 61 is that of two interfaces.
fn is_first_in_order(tree: &Tree) -> bool
    requires { length tree.now.classes ≡ 16 }
{
    let both = tree.field(7, 61) == Some(2) && tree.field(8, 61) == Some(3);
    let one = tree.field(1, 61) == Some(2) && tree.field(6, 61) == Some(3);
    both && one && tree.field(5, 61).is_none()
}

// The key 62 is that of a class, and 63 that of a class and an interface.
fn is_in_a_class(tree: &Tree) -> bool
    requires { length tree.now.classes ≡ 16 }
{
    let class = tree.field(10, 62) == Some(4) && tree.field(1, 62).is_none();
    let hides = tree.field(1, 63) == Some(5) && tree.field(11, 63) == Some(5);
    class && hides && tree.field(2, 63) == Some(6) && tree.field(8, 63) == Some(6)
}

// The keys 64 and 65 are those of five interfaces.
fn is_of_many(tree: &Tree) -> bool
    requires { length tree.now.classes ≡ 16 }
{
    let first = tree.field(1, 64) == Some(7) && tree.field(8, 64) == Some(11);
    let later = tree.field(3, 64) == Some(8) && tree.field(8, 65) == Some(12);
    first && later && tree.field(7, 65) == Some(12) && tree.field(1, 65).is_none()
}

fn sixteen_hold(alloc: Global) -> Result<bool, TreeError> {
    match of_sixteen(alloc) {
        Ok(tree) => {
            let few = is_at_the_end(&tree) && is_first_in_order(&tree);
            Ok(few && is_in_a_class(&tree) && is_of_many(&tree))
        }
        Err(error) => Err(error),
    }
}

#[test]
fn fields_of_interfaces(rt: HostRuntime) -> Result<(), Fail> {
    assert!(rt; sixteen_hold(rt.alloc())?);
    Ok(())
}
