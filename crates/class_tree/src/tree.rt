ghost use Rattle.std.specs.Prelude.{◌≡◌, ℕ, ◌^◌, ◌<◌, ◌↔◌, length, All, Contains, IsTrue, IfOk, IfNone, IfSome, Some, Err};
ghost use Rattle.class_tree.specs.Defaults.{AreDefaults, HasDefault, IsDefaultFrom};
ghost use Rattle.class_tree.specs.Indexed.{AreReached, HasFieldNear, HoldsMethod, IsFirstNear, TellFields};
ghost use Rattle.class_tree.specs.Layouts.{LaysOut};
ghost use Rattle.lists.specs.Lists.{IsLeast};
ghost use Rattle.class_rules.specs.Rows.{rows_of, NameClasses, NamesUnknown, IsOwnAncestor, Step, Sub, HasParent, interfaces_of};
ghost use Rattle.class_order.specs.Tables.{IsFinishing, Under};
ghost use Rattle.class_rules.specs.Lookups.{own_body, Declared, FieldHere, FieldOf, IsAmbiguous, IsDefault, IsHolder, IsLowestHolder, OnPath, Resolve};

use super::errors::TreeError;
use super::field_owners::FieldOwners;
use super::first_fields::FirstFields;
use super::inherited::Inherited;
use super::kept::KeptRows;
use super::layout::Layout;
use super::members::Members;
use super::near::near_spans;
use super::numbering::Numbering;
use super::steps::{interface_lists, interfaces_first, steps_down, steps_up};
use super::unknown::first_unknown;
use class_order::{Groups, Span, finish_order, holds, least_cyclic, places_of, reach_spans};
use class_rules::{ClassRow, FieldRow, MethodRow};
use std::alloc::{AllocError, Global};
use std::marker::Model;

/// The hierarchy of the classes of some rows. Contracts see it as these rows. Its look-ups take no
/// memory. They search in sorted lists and ordered maps, each time in as many steps as the logarithm
/// of how many rows there are, whichever numbers the classes and keys have. `sub` and `own_body` take
/// one search, and `on_path` two. `declared` takes three, and one more for each interface that has the
/// key, where these are at most four. `field` looks the owners of its key up once, which takes two
/// searches. Each run of parents that it goes by, of which there are at most as many as the logarithm
/// of the number of classes, takes one among the places of those that reach an owner, and one more for
/// each of the few interfaces. From the class that it comes to so, two searches find the field where it
/// is the first on the way that goes from class to first interface, however long this is; and two where
/// interfaces lead to one owner alone, and this is one of at most four interfaces with the key. Only
/// else it goes step by step, and takes as many searches as for a run for each interface that it looks
/// at. `resolve` and `ambiguous` go on from `on_path` to the
/// interfaces that have a method with the key, where there are any.
#[derive(Drop)]
pub struct Tree {
    rows: KeptRows,
    interfaces: Groups<u32>,
    // Higher than those of parents and interfaces: by them the look-up of a field ends.
    ranks: Vec<u32>,
    places: Vec<u32>,
    reach: Groups<Span>,
    near: Groups<Span>,
    members: Members,
    inherited: Inherited,
    first_fields: FirstFields,
}

impl Model for Tree {
    ghost use Rattle.class_rules.specs.Rows.{Rows};
    ghost use Rattle.class_tree.specs.Indexed.{IsIndexed, rows_in};

    ghost Value = { Rows };

    ghost view = { λ t. rows_in t.rows };

    ghost invariant = { λ t. IsIndexed (rows_in t.rows) t.interfaces t.ranks.items t.places.items t.reach t.near t.members t.inherited t.first_fields };
}

/// The default methods that a class reaches for a key, by their rows.
#[derive(Clone, Copy)]
pub enum Defaults {
    Nothing,
    One(u32),
    Several,
}

/// The tree of the rows. A class is named by its index in `classes`, and `implements` has pairs of a
/// class and one of its interfaces, in the order in which fields are looked for.
///
/// `UnknownParent` comes where a parent or an interface is no class, `Cyclic` where each is one and
/// a class is reached from itself, each with the least such class, and a tree where neither is so.
/// `NoMemory` can come in place of any of them.
pub fn build(
    alloc: Global,
    classes: &[ClassRow],
    implements: &[(u32, u32)],
    methods: &[MethodRow],
    fields: &[FieldRow],
) -> Result<Tree, TreeError>
    requires classes { length classes.now < 2 ^ 32 }
    requires methods { length methods.now < 2 ^ 32 }
    requires fields { length fields.now < 2 ^ 32 }
    requires named { NameClasses (rows_of classes.now implements.now methods.now fields.now) }

    ensures ok { IfOk result (λ tree. tree ≡ rows_of classes.now implements.now methods.now fields.now) }
    ensures known { IfOk result (λ _. (a : ℕ) → NamesUnknown classes.now implements.now a → ⊥) }
    ensures acyclic { IfOk result (λ _. (a : ℕ) → IsOwnAncestor classes.now implements.now a → ⊥) }

    // An unknown parent or interface comes first.
    ensures unknown_parent { (c : ℕ) → result ≡ Err (TreeError.UnknownParent c) → IsLeast (NamesUnknown classes.now implements.now) c }
    ensures cyclic { (c : ℕ) → result ≡ Err (TreeError.Cyclic c) → IsLeast (IsOwnAncestor classes.now implements.now) c }
    ensures cyclic_is_known { (c : ℕ) → result ≡ Err (TreeError.Cyclic c) → (a : ℕ) → NamesUnknown classes.now implements.now a → ⊥ }
{
    if let Some(class) = first_unknown(classes, implements) {
        return Err(TreeError::UnknownParent { class });
    }
    let starts = interfaces_first(alloc, classes)?;
    let below = steps_down(alloc, classes, implements, starts.as_slice())?;
    let finish = finish_order(alloc, &below, starts.as_slice())?;
    let order = finish.order.as_slice();
    if !finish.straight {
        let above = steps_up(alloc, classes, implements)?;
        let class = least_cyclic(alloc, &above, order)?;
        return Err(TreeError::Cyclic { class });
    }
    let tree = indexed(alloc, classes, implements, methods, fields, &below, order)?;
    Ok(tree)
}

// The tree of rows whose classes stand in an order, each after those below it.
fn indexed(
    alloc: Global,
    classes: &[ClassRow],
    implements: &[(u32, u32)],
    methods: &[MethodRow],
    fields: &[FieldRow],
    below: &Groups<u32>,
    order: &[u32],
) -> Result<Tree, AllocError>
    requires classes { length classes.now < 2 ^ 32 }
    requires methods { length methods.now < 2 ^ 32 }
    requires fields { length fields.now < 2 ^ 32 }
    requires named { NameClasses (rows_of classes.now implements.now methods.now fields.now) }
    requires known { (a : ℕ) → NamesUnknown classes.now implements.now a → ⊥ }
    requires len { length below.now ≡ length classes.now }
    requires steps { (a b : ℕ) → Under below.now a b ↔ Step classes.now implements.now a b }
    requires order { IsFinishing below.now order.now }
    ensures ok { IfOk result (λ tree. tree ≡ rows_of classes.now implements.now methods.now fields.now) }
    ensures acyclic { IfOk result (λ _. (a : ℕ) → IsOwnAncestor classes.now implements.now a → ⊥) }
{
    let ranks = places_of(alloc, below, order)?;
    let numbering = Numbering::new(alloc, classes, order)?;
    let places = numbering.numbers.as_slice();
    let reach = reach_spans(alloc, below, order, places)?;
    let near = near_spans(alloc, implements, below, order, places)?;
    let in_ranks = ranks.as_slice();
    let members = Members::new(alloc, classes, methods, fields, &reach, &near, in_ranks)?;
    let inherited = Inherited::new(alloc, classes, methods, &members.bodies, &numbering)?;
    let interfaces = interface_lists(alloc, classes.len(), implements)?;
    let first_fields = FirstFields::new(alloc, &interfaces, fields, &members.own_fields, order)?;
    let rows = KeptRows::copy_of(alloc, classes, implements, methods, fields)?;
    Ok(Tree {
        rows,
        interfaces,
        ranks,
        places: numbering.numbers,
        reach,
        near,
        members,
        inherited,
        first_fields,
    })
}

impl Tree {
    /// Whether `b` is reached from `a` by parents and interfaces in any number of steps, none
    /// included.
    pub fn sub(&self, a: u32, b: u32) -> bool
        requires a { a < length self.now.classes }
        requires b { b < length self.now.classes }
        ensures { IsTrue result ↔ Sub self.now a b }
    {
        holds(self.reach.get(b as usize), self.places[a as usize])
    }

    /// The places of the classes, and what they tell.
    pub fn layout(&self) -> Layout<'_>
        ensures { LaysOut self.now result }
    {
        Layout {
            places: self.places.as_slice(),
            reach: &self.reach,
            methods: &self.inherited.methods,
        }
    }

    /// The row of the first method with this key and a body, from the class upwards by parents;
    /// within one class the first row. A row is an index in the list of methods.
    pub fn on_path(&self, class: u32, key: u32) -> Option<u32>
        requires { class < length self.now.classes }
        ensures { OnPath self.now class key result }
    {
        self.inherited
            .methods
            .find(self.places[class as usize], key)
    }

    /// The interfaces that have a method with this key, with a body or without. One may stand there
    /// more than once.
    pub fn holders(&self, key: u32) -> &[u32]
        ensures { (interface : ℕ) → Contains result.now interface ↔ HoldsMethod self.now interface key }
    {
        self.members.declared.interfaces.of(key)
    }

    // The interfaces that have a method of this key, from the first on that the class reaches.
    fn reached(&self, class: u32, key: u32) -> &[u32]
        requires { class < length self.now.classes }
        ensures { AreReached self.now class key result.now }
    {
        let holders = self.members.declared.interfaces.of(key);
        let mut from = 0;
        while from < holders.len() && !self.sub(class, holders[from]) {
            from += 1;
        }
        &holders[from..]
    }

    // Whether none of the others is below this interface, among which are all with a method of this
    // key that the class reaches.
    fn is_lowest(&self, class: u32, key: u32, reached: &[u32], interface: u32) -> bool
        requires class { class < length self.now.classes }
        requires reached { AreReached self.now class key reached.now }
        requires holder { IsHolder self.now class key interface }
        ensures { IsTrue result ↔ IsLowestHolder self.now class key interface }
    {
        for other in reached {
            if *other != interface && self.sub(class, *other) && self.sub(*other, interface) {
                return false;
            }
        }
        true
    }

    /// The default method that an interface with a method of the key has itself: its first row of
    /// the key, where this has a body.
    pub fn own_default(&self, interface: u32, key: u32) -> Option<u32>
        requires { HoldsMethod self.now interface key }
        ensures { (row : ℕ) → (result ≡ Some row) ↔ HasDefault self.now interface key row }
    {
        let row = self.members.interface_rows.get(interface, key)?;
        if self.rows.methods[row as usize].body.has_body() {
            Some(row)
        } else {
            None
        }
    }

    // The row of the default method that comes from this interface, one of those reached.
    fn default_from(&self, class: u32, key: u32, reached: &[u32], interface: u32) -> Option<u32>
        requires class { class < length self.now.classes }
        requires reached { AreReached self.now class key reached.now }
        requires holder { HoldsMethod self.now interface key }
        ensures { (row : ℕ) → (result ≡ Some row) ↔ IsDefaultFrom self.now class key interface row }
    {
        if !self.sub(class, interface) {
            return None;
        }
        let row = self.own_default(interface, key)?;
        if self.is_lowest(class, key, reached, interface) {
            Some(row)
        } else {
            None
        }
    }

    /// The default methods of the key that the interfaces reached from the class have.
    pub fn defaults(&self, class: u32, key: u32) -> Defaults
        requires { class < length self.now.classes }
        ensures { AreDefaults (IsDefault self.now class key) result }
    {
        let mut found = Defaults::Nothing;
        let reached = self.reached(class, key);
        for interface in reached {
            if let Some(row) = self.default_from(class, key, reached, *interface) {
                match found {
                    Defaults::Nothing => found = Defaults::One(row),
                    Defaults::One(first) if first == row => {}
                    _ => return Defaults::Several,
                }
            }
        }
        found
    }

    /// The row of the method that a call on an object of the class runs: the one along the parents,
    /// or else the one default method that the interfaces reached from the class have. A row is an
    /// index in the list of methods.
    pub fn resolve(&self, class: u32, key: u32) -> Option<u32>
        requires { class < length self.now.classes }
        ensures { Resolve self.now class key result }
    {
        if let Some(row) = self.on_path(class, key) {
            return Some(row);
        }
        match self.defaults(class, key) {
            Defaults::One(row) => Some(row),
            Defaults::Nothing | Defaults::Several => None,
        }
    }

    /// Whether the parents have no method with this key and a body, and the interfaces more than one
    /// default method.
    pub fn ambiguous(&self, class: u32, key: u32) -> bool
        requires { class < length self.now.classes }
        ensures { IsTrue result ↔ IsAmbiguous self.now class key }
    {
        self.on_path(class, key).is_none() && matches!(self.defaults(class, key), Defaults::Several)
    }

    /// The row of the first method of the class itself with this key and a body.
    pub fn own_body(&self, class: u32, key: u32) -> Option<u32>
        ensures { result ≡ own_body self.now.methods class key }
    {
        self.members.bodies.get(class, key)
    }

    /// The parent of the class.
    pub fn parent(&self, class: u32) -> Option<u32>
        requires { class < length self.now.classes }
        ensures parent { (b : ℕ) → (result ≡ Some b) ↔ HasParent self.now.classes class b }
        ensures known { IfSome result (λ b. b < length self.now.classes) }
    {
        self.rows.classes[class as usize].parent
    }

    /// The interfaces that the class names, in order.
    pub fn interfaces(&self, class: u32) -> &[u32]
        requires { class < length self.now.classes }
        ensures interfaces { result.now ≡ interfaces_of self.now.implements class }
        ensures known { All (λ b. b < length self.now.classes) result.now }
    {
        self.interfaces.get(class as usize)
    }

    /// Whether the class or one that is reached from it has a method with this key.
    pub fn declared(&self, class: u32, key: u32) -> bool
        requires { class < length self.now.classes }
        ensures { IsTrue result ↔ Declared self.now class key }
    {
        self.members
            .declared
            .of(&self.reach, key)
            .holds(self.places[class as usize])
    }

    // Whether the class has a field with this key, or one of its interfaces with their own.
    fn has_field_near(&self, class: u32, fields: &FieldOwners<'_>) -> bool
        requires class { class < length self.now.classes }
        requires fields { TellFields self.now fields.now }
        ensures { IsTrue result ↔ HasFieldNear self.now class fields.now.key }
    {
        fields.owners.holds(fields.places[class as usize])
    }

    // The first of the classes that has a field near.
    fn first_near(&self, classes: &[u32], fields: &FieldOwners<'_>) -> Option<u32>
        requires classes { All (λ c. c < length self.now.classes) classes.now }
        requires fields { TellFields self.now fields.now }
        ensures some { IfSome result (IsFirstNear self.now classes.now fields.now.key) }
        ensures none { IfNone result (All (λ c. HasFieldNear self.now c fields.now.key → ⊥) classes.now) }
    {
        for class in classes {
            if self.has_field_near(*class, fields) {
                return Some(*class);
            }
        }
        None
    }

    // The field of the class, or else of its interfaces in order, each with its own. It goes on step by
    // step only where no first interface leads to it, and more than one owner may be reached.
    fn field_here(&self, class: u32, fields: &FieldOwners<'_>) -> Option<u32>
        requires class { class < length self.now.classes }
        requires fields { TellFields self.now fields.now }
        ensures here { FieldHere self.now fields.now.key class result }
        ensures near { IfNone result (HasFieldNear self.now class fields.now.key → ⊥) }
    {
        let mut at = class;
        loop {
            if let Some(row) = self.first_fields.find(at, fields.key) {
                return Some(row);
            }
            if let Some(owner) = fields.owners.sole(fields.places[at as usize]) {
                return self.members.own_fields.get(owner, fields.key);
            }
            match self.first_near(self.interfaces.get(at as usize), fields) {
                Some(interface) => at = interface,
                None => return None,
            }
        }
    }

    /// The row of the field with this key that the class has or inherits: its own first row, or
    /// else that of its interfaces in order, each with its own interfaces, or else its parent's. A
    /// row is an index in the list of fields.
    pub fn field(&self, class: u32, key: u32) -> Option<u32>
        requires { class < length self.now.classes }
        ensures { FieldOf self.now class key result }
    {
        let runs = &self.inherited.runs;
        let fields = FieldOwners {
            key,
            owners: self.members.near_fields.of(&self.near, key),
            places: self.places.as_slice(),
        };
        let mut at = class;
        loop {
            let place = self.places[at as usize];
            let start = runs.starts[place as usize];
            if let Some(near) = fields.owners.last(start, place) {
                return self.field_here(runs.tenants[near as usize], &fields);
            }
            let first = runs.tenants[start as usize];
            match self.rows.classes[first as usize].parent {
                Some(parent) => at = parent,
                None => return None,
            }
        }
    }
}
