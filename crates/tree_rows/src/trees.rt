//! Sub-classing and look-ups, over rows of which the answers were found by hand.
ghost use Rattle.std.specs.Prelude.{◌≡◌, ◌^◌, ◌<◌, length, All, IfOk};

use class_rules::{BodyKind, ClassRow, FieldRow, MethodRow};
use class_tree::{Defaults, Tree, TreeError, build};
use default_turns::{DefaultTurn, default_turns};
use std::alloc::{AllocError, Global};
use std::test::Fail;

const TOP: ClassRow = ClassRow {
    parent: None,
    interface: false,
};

const UNDER_0: ClassRow = ClassRow {
    parent: Some(0),
    interface: false,
};

const UNDER_1: ClassRow = ClassRow {
    parent: Some(1),
    interface: false,
};

const UNDER_3: ClassRow = ClassRow {
    parent: Some(3),
    interface: false,
};

const UNDER_5: ClassRow = ClassRow {
    parent: Some(5),
    interface: false,
};

const UNDER_6: ClassRow = ClassRow {
    parent: Some(6),
    interface: false,
};

const UNDER_7: ClassRow = ClassRow {
    parent: Some(7),
    interface: false,
};

fn class(parent: u32) -> ClassRow {
    ClassRow {
        parent: Some(parent),
        interface: false,
    }
}

fn of_steps(
    alloc: Global,
    classes: &[ClassRow],
    implements: &[(u32, u32)],
) -> Result<Tree, TreeError>
    requires classes { length classes.now < 2 ^ 32 }
    requires implements { All (λ p. p.0 < length classes.now) implements.now }
    ensures { IfOk result (λ tree. tree.classes ≡ classes.now) }
{
    build(alloc, classes, implements, &[], &[])
}

// What is read of a tree is read where it is borrowed, since the prover goes over a tree at each way out of a function that owns one.
fn is_a_chain(tree: &Tree) -> bool
    requires { length tree.now.classes ≡ 3 }
{
    let below = tree.sub(2, 0) && !tree.sub(0, 2) && tree.sub(1, 1);
    let steps = tree.parent(2) == Some(1) && tree.parent(0).is_none();
    below && steps && tree.interfaces(2).is_empty()
}

const CHAIN: [ClassRow; 3] = [TOP, UNDER_0, UNDER_1];

fn chain_holds(alloc: Global) -> Result<bool, TreeError> {
    match of_steps(alloc, &CHAIN, &[]) {
        Ok(tree) => Ok(is_a_chain(&tree)),
        Err(error) => Err(error),
    }
}

#[test]
fn parents_alone(rt: HostRuntime) -> Result<(), Fail> {
    assert!(rt; chain_holds(rt.alloc())?);
    Ok(())
}

// What is refused, where there are few classes and each pair begins with one.
fn refusal(alloc: Global, classes: &[ClassRow], implements: &[(u32, u32)]) -> Option<TreeError> {
    if classes.len() > 9 {
        return None;
    }
    for (class, _) in implements {
        if *class as usize >= classes.len() {
            return None;
        }
    }
    of_steps(alloc, classes, implements).err()
}

#[test]
fn unknown_classes(rt: HostRuntime) {
    let alloc = rt.alloc();
    let alone = refusal(alloc, &[class(5)], &[]);
    assert_eq!(rt; alone, Some(TreeError::UnknownParent { class: 0 }));
    let two = [TOP, class(0), class(9), class(8)];
    let least = refusal(alloc, &two, &[]);
    assert_eq!(rt; least, Some(TreeError::UnknownParent { class: 2 }));
    let interfaces = refusal(alloc, &two, &[(3, 7), (1, 4)]);
    assert_eq!(rt; interfaces, Some(TreeError::UnknownParent { class: 1 }));
    let before_cycles = refusal(alloc, &[class(1), class(0), class(3)], &[]);
    assert_eq!(rt; before_cycles, Some(TreeError::UnknownParent { class: 2 }));
}

#[test]
fn cycles(rt: HostRuntime) {
    let alloc = rt.alloc();
    let parents = refusal(alloc, &[class(1), class(0)], &[]);
    assert_eq!(rt; parents, Some(TreeError::Cyclic { class: 0 }));
    let alone = refusal(alloc, &[TOP], &[(0, 0)]);
    assert_eq!(rt; alone, Some(TreeError::Cyclic { class: 0 }));
    let interfaces = refusal(alloc, &[TOP, class(0), class(0)], &[(1, 2), (2, 1)]);
    assert_eq!(rt; interfaces, Some(TreeError::Cyclic { class: 1 }));
    let both = refusal(alloc, &[TOP, class(2), TOP], &[(2, 1)]);
    assert_eq!(rt; both, Some(TreeError::Cyclic { class: 1 }));
    // The class 0 comes to a cycle and isn't on it.
    let above = refusal(alloc, &[class(2), TOP, class(3), class(2)], &[]);
    assert_eq!(rt; above, Some(TreeError::Cyclic { class: 2 }));
}

// 0 is the top and 3 is below it. The interface 2 extends the interface 1, and its parent is 6.
// 4 is below 3 and implements 5 and then 2.
const SEVEN: [ClassRow; 7] = [TOP, UNDER_0, UNDER_6, UNDER_0, UNDER_3, UNDER_0, UNDER_0];

const IMPLEMENTS: [(u32, u32); 3] = [(2, 1), (4, 5), (4, 2)];

fn of_members(alloc: Global, methods: &[MethodRow], fields: &[FieldRow]) -> Result<Tree, TreeError>
    requires few_methods { length methods.now < 2 ^ 32 }
    requires few_fields { length fields.now < 2 ^ 32 }
    requires methods { All (λ m. m.class < 7) methods.now }
    requires fields { All (λ f. f.class < 7) fields.now }
    ensures { IfOk result (λ tree. length tree.classes ≡ 7) }
{
    build(alloc, &SEVEN, &IMPLEMENTS, methods, fields)
}

fn are_bodies(tree: &Tree) -> bool
    requires { length tree.now.classes ≡ 7 }
{
    let below = tree.sub(4, 6) && !tree.sub(3, 2);
    let resolved = tree.resolve(4, 7) == Some(1) && tree.resolve(4, 8).is_none();
    let above = tree.resolve(4, 9) == Some(5) && tree.resolve(4, 6).is_none();
    let own = tree.own_body(3, 7) == Some(1) && tree.own_body(4, 7).is_none();
    let declared = tree.declared(4, 8) && tree.declared(4, 6) && !tree.declared(3, 8);
    below && resolved && above && own && declared
}

fn are_fields(tree: &Tree) -> bool
    requires { length tree.now.classes ≡ 7 }
{
    let near = tree.field(4, 20) == Some(1) && tree.field(3, 20) == Some(0);
    let above = tree.field(4, 21) == Some(2) && tree.field(4, 22) == Some(4);
    let parents = tree.field(4, 23).is_none() && tree.field(2, 23) == Some(5);
    near && above && parents && tree.field(4, 24) == Some(6)
}

const METHODS: [MethodRow; 7] = [
    MethodRow {
        class: 4,
        key: 7,
        body: BodyKind::Missing,
    },
    MethodRow {
        class: 3,
        key: 7,
        body: BodyKind::Native,
    },
    MethodRow {
        class: 3,
        key: 7,
        body: BodyKind::Plain,
    },
    MethodRow {
        class: 1,
        key: 8,
        body: BodyKind::Missing,
    },
    MethodRow {
        class: 0,
        key: 9,
        body: BodyKind::Missing,
    },
    MethodRow {
        class: 0,
        key: 9,
        body: BodyKind::Plain,
    },
    MethodRow {
        class: 5,
        key: 6,
        body: BodyKind::Plain,
    },
];

fn methods_hold(alloc: Global) -> Result<bool, TreeError> {
    match of_members(alloc, &METHODS, &[]) {
        Ok(tree) => Ok(are_bodies(&tree)),
        Err(error) => Err(error),
    }
}

#[test]
fn methods(rt: HostRuntime) -> Result<(), Fail> {
    assert!(rt; methods_hold(rt.alloc())?);
    Ok(())
}

const FIELDS: [FieldRow; 8] = [
    FieldRow { class: 3, key: 20 },
    FieldRow { class: 1, key: 20 },
    FieldRow { class: 0, key: 21 },
    FieldRow { class: 2, key: 22 },
    FieldRow { class: 5, key: 22 },
    FieldRow { class: 6, key: 23 },
    FieldRow { class: 4, key: 24 },
    FieldRow { class: 4, key: 24 },
];

fn fields_hold(alloc: Global) -> Result<bool, TreeError> {
    match of_members(alloc, &[], &FIELDS) {
        Ok(tree) => Ok(are_fields(&tree)),
        Err(error) => Err(error),
    }
}

#[test]
fn fields(rt: HostRuntime) -> Result<(), Fail> {
    assert!(rt; fields_hold(rt.alloc())?);
    Ok(())
}

// 0 is the top. The interfaces 2 and 4 extend the interface 1, and 3 extends none. 5 implements 1 and
// 2, and 6 is below it. 7 implements 2, 3 and 4, and 8 is below it.
const NINE: [ClassRow; 9] = [
    TOP, INTERFACE, INTERFACE, INTERFACE, INTERFACE, UNDER_0, UNDER_5, UNDER_0, UNDER_7,
];

const INTERFACE: ClassRow = ClassRow {
    parent: Some(0),
    interface: true,
};

const NINE_IMPLEMENT: [(u32, u32); 7] = [(2, 1), (4, 1), (5, 1), (5, 2), (7, 2), (7, 3), (7, 4)];

fn of_interfaces(alloc: Global, methods: &[MethodRow]) -> Result<Tree, TreeError>
    requires few { length methods.now < 2 ^ 32 }
    requires methods { All (λ m. m.class < 9) methods.now }
    ensures { IfOk result (λ tree. length tree.classes ≡ 9) }
{
    build(alloc, &NINE, &NINE_IMPLEMENT, methods, &[])
}

// Key 10 is in 1 and in 2, 11 in 1 and without a body in 2, 12 in 2 and in 3.
fn are_lowest(tree: &Tree) -> bool
    requires { length tree.now.classes ≡ 9 }
{
    let lowest = tree.resolve(5, 10) == Some(1) && tree.resolve(7, 10) == Some(1);
    let inherited = tree.resolve(6, 10) == Some(1) && tree.resolve(1, 10) == Some(0);
    let hidden = tree.resolve(5, 11).is_none() && !tree.ambiguous(5, 11);
    let two = tree.resolve(7, 12).is_none() && tree.ambiguous(7, 12);
    let above_two = tree.resolve(8, 12) == Some(6) && !tree.ambiguous(8, 12);
    lowest && inherited && hidden && two && above_two
}

// The same rows by their lists.
fn are_listed(tree: &Tree) -> bool
    requires { length tree.now.classes ≡ 9 }
{
    let one = matches!(tree.defaults(5, 10), Defaults::One(1));
    let hidden = matches!(tree.defaults(5, 11), Defaults::Nothing);
    let two = matches!(tree.defaults(7, 12), Defaults::Several);
    one && hidden && two
}

// Key 13 is twice in 1, to which two ways lead from 8. 14 is native, 15 is in 5 without a body, and 16
// stands for a static method.
fn are_alone(tree: &Tree) -> bool
    requires { length tree.now.classes ≡ 9 }
{
    let diamond = tree.resolve(8, 13) == Some(7) && !tree.ambiguous(8, 13);
    let native = tree.resolve(5, 14) == Some(9);
    let bodiless_in_class = tree.resolve(5, 15) == Some(10);
    let off_path = tree.on_path(5, 16).is_none() && tree.on_path(1, 16) == Some(12);
    let nowhere = tree.resolve(5, 17).is_none() && !tree.ambiguous(5, 17);
    diamond && native && bodiless_in_class && off_path && nowhere
}

fn are_same(one: Defaults, other: Defaults) -> bool {
    match (one, other) {
        (Defaults::Nothing, Defaults::Nothing) | (Defaults::Several, Defaults::Several) => true,
        (Defaults::One(row), Defaults::One(other_row)) => row == other_row,
        _ => false,
    }
}

// What turns tell at a place.
fn told(turns: &[DefaultTurn], place: u32) -> Defaults {
    let mut last = Defaults::Nothing;
    for turn in turns {
        if turn.at <= place {
            last = turn.defaults;
        }
    }
    last
}

// By places the same is told as class by class.
fn are_told(alloc: Global, tree: &Tree, key: u32) -> Result<bool, AllocError>
    requires { length tree.now.classes ≡ 9 }
{
    let layout = tree.layout();
    let turns = default_turns(alloc, tree, layout, key)?;
    for class in 0..9 {
        let by_place = told(turns.as_slice(), layout.places[class as usize]);
        if !are_same(by_place, tree.defaults(class, key)) {
            return Ok(false);
        }
    }
    Ok(true)
}

const DEFAULTS: [MethodRow; 13] = [
    MethodRow {
        class: 1,
        key: 10,
        body: BodyKind::Plain,
    },
    MethodRow {
        class: 2,
        key: 10,
        body: BodyKind::Plain,
    },
    MethodRow {
        class: 1,
        key: 11,
        body: BodyKind::Plain,
    },
    MethodRow {
        class: 2,
        key: 11,
        body: BodyKind::Missing,
    },
    MethodRow {
        class: 2,
        key: 12,
        body: BodyKind::Plain,
    },
    MethodRow {
        class: 3,
        key: 12,
        body: BodyKind::Plain,
    },
    MethodRow {
        class: 8,
        key: 12,
        body: BodyKind::Plain,
    },
    MethodRow {
        class: 1,
        key: 13,
        body: BodyKind::Plain,
    },
    MethodRow {
        class: 1,
        key: 13,
        body: BodyKind::Plain,
    },
    MethodRow {
        class: 1,
        key: 14,
        body: BodyKind::Native,
    },
    MethodRow {
        class: 1,
        key: 15,
        body: BodyKind::Plain,
    },
    MethodRow {
        class: 5,
        key: 15,
        body: BodyKind::Missing,
    },
    MethodRow {
        class: 1,
        key: 16,
        body: BodyKind::Plain,
    },
];

fn defaults_hold(alloc: Global) -> Result<bool, TreeError> {
    match of_interfaces(alloc, &DEFAULTS) {
        Ok(tree) => Ok(are_lowest(&tree) && are_listed(&tree) && are_alone(&tree)),
        Err(error) => Err(error),
    }
}

#[test]
fn defaults(rt: HostRuntime) -> Result<(), Fail> {
    assert!(rt; defaults_hold(rt.alloc())?);
    Ok(())
}

fn all_are_told(alloc: Global, tree: &Tree) -> Result<bool, AllocError>
    requires { length tree.now.classes ≡ 9 }
{
    for key in 10..18 {
        if !are_told(alloc, tree, key)? {
            return Ok(false);
        }
    }
    Ok(true)
}

fn turns_hold(alloc: Global) -> Result<bool, TreeError> {
    match of_interfaces(alloc, &DEFAULTS) {
        Ok(tree) => Ok(all_are_told(alloc, &tree)?),
        Err(error) => Err(error),
    }
}

#[test]
fn defaults_by_places(rt: HostRuntime) -> Result<(), Fail> {
    assert!(rt; turns_hold(rt.alloc())?);
    Ok(())
}

const ALONG_THE_CHAIN: [MethodRow; 3] = [
    MethodRow {
        class: 0,
        key: 7,
        body: BodyKind::Plain,
    },
    MethodRow {
        class: 5,
        key: 8,
        body: BodyKind::Plain,
    },
    MethodRow {
        class: 3,
        key: 7,
        body: BodyKind::Plain,
    },
];

// Each is below the one before it, but the last, which is below the top.
fn of_chain(alloc: Global) -> Result<Tree, TreeError>
    ensures { IfOk result (λ tree. length tree.classes ≡ 13) }
{
    let chain = [
        TOP,
        class(0),
        class(1),
        class(2),
        class(3),
        class(4),
        class(5),
        class(6),
        class(7),
        class(8),
        class(9),
        class(10),
        class(0),
    ];
    build(alloc, &chain, &[], &ALONG_THE_CHAIN, &[])
}

// The class 12 stands after the chain in the order of numbers, and below its top alone.
fn is_found_along(tree: &Tree) -> bool
    requires { length tree.now.classes ≡ 13 }
{
    let below = tree.on_path(11, 7) == Some(2) && tree.on_path(3, 7) == Some(2);
    let above = tree.on_path(2, 7) == Some(0) && tree.on_path(12, 7) == Some(0);
    let fifth = tree.on_path(11, 8) == Some(1) && tree.on_path(5, 8) == Some(1);
    let not_there = tree.on_path(4, 8).is_none() && tree.on_path(12, 8).is_none();
    below && above && fifth && not_there && tree.on_path(11, 9).is_none()
}

fn long_ways_hold(alloc: Global) -> Result<bool, TreeError> {
    match of_chain(alloc) {
        Ok(tree) => Ok(is_found_along(&tree)),
        Err(error) => Err(error),
    }
}

#[test]
fn long_ways(rt: HostRuntime) -> Result<(), Fail> {
    assert!(rt; long_ways_hold(rt.alloc())?);
    Ok(())
}

const IN_A_FOREST: [FieldRow; 6] = [
    FieldRow { class: 0, key: 30 },
    FieldRow { class: 2, key: 30 },
    FieldRow { class: 3, key: 30 },
    FieldRow { class: 4, key: 31 },
    FieldRow { class: 6, key: 31 },
    FieldRow { class: 0, key: 31 },
];

// Two chains, 0 to 2 and 3 to 5. The interface 6 stands alone, and 7 is below 2 and implements it.
fn of_forest(alloc: Global) -> Result<Tree, TreeError>
    ensures { IfOk result (λ tree. length tree.classes ≡ 8) }
{
    let forest = [
        TOP,
        class(0),
        class(1),
        TOP,
        class(3),
        class(4),
        TOP,
        class(2),
    ];
    build(alloc, &forest, &[(7, 6)], &[], &IN_A_FOREST)
}

// No interface has a field with the key 30, one has a field with the key 31, and nothing has the
// key 32.
fn is_found_in_forest(tree: &Tree) -> bool
    requires { length tree.now.classes ≡ 8 }
{
    let hidden = tree.field(7, 30) == Some(1) && tree.field(2, 30) == Some(1);
    let above = tree.field(1, 30) == Some(0) && tree.field(5, 30) == Some(2);
    let interface = tree.field(7, 31) == Some(4) && tree.field(2, 31) == Some(5);
    let other = tree.field(5, 31) == Some(3) && tree.field(3, 31).is_none();
    let nowhere = tree.field(6, 30).is_none() && tree.field(7, 32).is_none();
    hidden && above && interface && other && nowhere
}

fn forest_holds(alloc: Global) -> Result<bool, TreeError> {
    match of_forest(alloc) {
        Ok(tree) => Ok(is_found_in_forest(&tree)),
        Err(error) => Err(error),
    }
}

#[test]
fn forests(rt: HostRuntime) -> Result<(), Fail> {
    assert!(rt; forest_holds(rt.alloc())?);
    Ok(())
}

// Under the top 0 stand the classes 1 to 4, of which 1 and 3 implement the interface 5, and 2
// implements the last of the interfaces 6 to 22.
const SCATTERED: [ClassRow; 23] = [
    TOP, UNDER_0, UNDER_0, UNDER_0, UNDER_0, INTERFACE, INTERFACE, INTERFACE, INTERFACE, INTERFACE,
    INTERFACE, INTERFACE, INTERFACE, INTERFACE, INTERFACE, INTERFACE, INTERFACE, INTERFACE,
    INTERFACE, INTERFACE, INTERFACE, INTERFACE, INTERFACE,
];

const BODILESS: [MethodRow; 2] = [
    MethodRow {
        class: 5,
        key: 50,
        body: BodyKind::Missing,
    },
    MethodRow {
        class: 4,
        key: 50,
        body: BodyKind::Missing,
    },
];

// One interface has the key 40, and more than few have the key 41.
const OF_MANY: [FieldRow; 18] = [
    FieldRow { class: 5, key: 40 },
    FieldRow { class: 6, key: 41 },
    FieldRow { class: 7, key: 41 },
    FieldRow { class: 8, key: 41 },
    FieldRow { class: 9, key: 41 },
    FieldRow { class: 10, key: 41 },
    FieldRow { class: 11, key: 41 },
    FieldRow { class: 12, key: 41 },
    FieldRow { class: 13, key: 41 },
    FieldRow { class: 14, key: 41 },
    FieldRow { class: 15, key: 41 },
    FieldRow { class: 16, key: 41 },
    FieldRow { class: 17, key: 41 },
    FieldRow { class: 18, key: 41 },
    FieldRow { class: 19, key: 41 },
    FieldRow { class: 20, key: 41 },
    FieldRow { class: 21, key: 41 },
    FieldRow { class: 22, key: 41 },
];

fn of_scattered(alloc: Global) -> Result<Tree, TreeError>
    ensures { IfOk result (λ tree. length tree.classes ≡ 23) }
{
    let implements = [(1, 5), (3, 5), (2, 22)];
    build(alloc, &SCATTERED, &implements, &BODILESS, &OF_MANY)
}

fn is_found_of_scattered(tree: &Tree) -> bool
    requires { length tree.now.classes ≡ 23 }
{
    let declared = tree.declared(1, 50) && tree.declared(3, 50) && tree.declared(4, 50);
    let apart = !tree.declared(0, 50) && !tree.declared(2, 50) && !tree.declared(6, 50);
    let of_one = tree.field(1, 40) == Some(0) && tree.field(3, 40) == Some(0);
    let of_many = tree.field(2, 41) == Some(17) && tree.field(6, 41) == Some(1);
    let nowhere = tree.field(2, 40).is_none() && tree.field(3, 41).is_none();
    declared && apart && of_one && of_many && nowhere
}

fn scattered_holds(alloc: Global) -> Result<bool, TreeError> {
    match of_scattered(alloc) {
        Ok(tree) => Ok(is_found_of_scattered(&tree)),
        Err(error) => Err(error),
    }
}

#[test]
fn scattered(rt: HostRuntime) -> Result<(), Fail> {
    assert!(rt; scattered_holds(rt.alloc())?);
    Ok(())
}
