//! The search for all that may be reached, from the root on.
ghost use Rattle.std.specs.Prelude.{◌≡◌, ◌<◌, ◌+◌, [], IfOk, OnOk, Ok, MatchOption, true, false, length};
ghost use Rattle.std.specs.Option.{option_to_list};
ghost use Rattle.link_rules.specs.Classes.{DeclaredMethod, methods_of};
ghost use Rattle.link_rules.specs.Root.{root_number};
ghost use Rattle.link_rules.specs.World.{World};
ghost use Rattle.link_faults.specs.Examined.{HasNoFault, IsExamined, IsFirstFault};
ghost use Rattle.link_reach.specs.Firsts.{IsRow};
ghost use Rattle.link_reach.specs.Graph.{Leads, method, class};
ghost use Rattle.link_reach.specs.Search.{Above, AddsAll, Finds, FromMethod, InitializedBy, IsBounded, IsSearched, left_of};

use super::firsts::{FaultIn, earlier};
use link_calls::Targets;
use link_classes::{Classes, root_method};
use link_faults::{Examined, Fault, examine};
use lists::NoMemory;
use number_sets::MarkedSet;
use std::alloc::Global;

/// The methods that a run may reach, by their rows, and the classes that they ask for, in the order in which they were found. A look-up takes one step,
/// whichever numbers are there; a set takes a byte for each method or class up to the largest.
#[derive(Drop)]
pub struct Found {
    pub methods: MarkedSet,
    pub classes: MarkedSet,
}

// Adds the numbers that aren't there.
fn add_all(set: &mut MarkedSet, numbers: &[u32]) -> Result<(), NoMemory>
    ensures { OnOk result (AddsAll numbers.now set.old set.new) }
{
    for number in numbers {
        set.insert(*number)?;
    }
    Ok(())
}

// Adds the number, if there is one.
fn add_one(set: &mut MarkedSet, number: Option<u32>) -> Result<(), NoMemory>
    ensures { OnOk result (AddsAll (option_to_list number) set.old set.new) }
{
    match number {
        Some(number) => add_all(set, &[number]),
        None => Ok(()),
    }
}

// Adds what an examined method runs and touches.
fn take_all(found: &mut Found, examined: &Examined) -> Result<(), NoMemory>
    ensures { OnOk result ((w : World) (m : DeclaredMethod) → IsExamined w m examined.now → Finds (FromMethod w m) found.old found.new) }
{
    add_all(&mut found.methods, &examined.rows)?;
    add_all(&mut found.classes, &examined.touched)
}

// Adds what the root leads to.
fn visit_root(alloc: Global, targets: &mut Targets, found: &mut Found) -> Result<(), NoMemory>
    ensures same { targets.new ≡ targets.old }
    ensures found { OnOk result (Finds (Leads targets.old.world (method (root_number targets.old.world))) found.old found.new) }
{
    let classes = targets.classes();
    let root = classes.root(alloc, &[])?;
    let examined = examine(alloc, targets, &root_method(classes, &root))?;
    take_all(found, &examined)
}

// Adds what a method leads to, and gives its first refusal.
fn visit_method(
    alloc: Global,
    targets: &mut Targets,
    found: &mut Found,
    row: u32,
) -> Result<Option<Fault>, NoMemory>
    requires row { row < length (methods_of targets.old.world.classes) }
    ensures same { targets.new ≡ targets.old }
    ensures found { OnOk result (Finds (Leads targets.old.world (method row)) found.old found.new) }
    ensures fault { IfOk result (λ fault. (m : DeclaredMethod) → IsRow targets.old.world row m
        → MatchOption fault (HasNoFault targets.old.world m) (IsFirstFault targets.old.world m)) }
{
    let row_method = targets.classes().method(row);
    let examined = examine(alloc, targets, &row_method)?;
    take_all(found, &examined)?;
    Ok(examined.fault)
}

// Adds the classes above a class.
fn climb(targets: &Targets, found: &mut Found, number: u32) -> Result<(), NoMemory>
    requires { number < length targets.now.world.classes }
    ensures { OnOk result (Finds (Above targets.now.world number) found.old found.new) }
{
    let tree = targets.classes().tree();
    add_one(&mut found.classes, tree.parent(number))?;
    add_all(&mut found.classes, tree.interfaces(number))
}

// Adds what the initializer of a class runs, if it has one.
fn initialize(
    alloc: Global,
    targets: &mut Targets,
    found: &mut Found,
    number: u32,
) -> Result<(), NoMemory>
    requires { number < length targets.old.world.classes }
    ensures same { targets.new ≡ targets.old }
    ensures found { OnOk result (Finds (InitializedBy targets.old.world number) found.old found.new) }
{
    let classes = targets.classes();
    if classes.initializer(number).is_none() {
        return Ok(());
    }
    let root = classes.root(alloc, &[number])?;
    let examined = examine(alloc, targets, &root_method(classes, &root))?;
    add_all(&mut found.methods, &examined.rows)
}

// Adds what a class leads to.
fn visit_class(
    alloc: Global,
    targets: &mut Targets,
    found: &mut Found,
    number: u32,
) -> Result<(), NoMemory>
    requires { number < length targets.old.world.classes }
    ensures same { targets.new ≡ targets.old }
    ensures found { OnOk result (Finds (Leads targets.old.world (class number)) found.old found.new) }
{
    climb(targets, found, number)?;
    initialize(alloc, targets, found, number)
}

/// The state of the search: what is found, how much of it is done, and the first refusal in the methods that are.
#[derive(Drop)]
pub struct Search {
    pub found: Found,
    pub methods_done: usize,
    pub classes_done: usize,
    pub first: Option<FaultIn>,
}

impl Search {
    // The search when the root is visited.
    fn begin(alloc: Global, targets: &mut Targets) -> Result<Self, NoMemory>
        ensures same { targets.new ≡ targets.old }
        ensures searched { IfOk result (IsSearched targets.old.world) }
    {
        let mut found = Found {
            methods: MarkedSet::new(alloc),
            classes: MarkedSet::new(alloc),
        };
        visit_root(alloc, targets, &mut found)?;
        Ok(Search {
            found,
            methods_done: 0,
            classes_done: 0,
            first: None,
        })
    }

    // Visits the next method, if there is one.
    fn turn_method(&mut self, alloc: Global, targets: &mut Targets) -> Result<bool, NoMemory>
        requires bounded { IsBounded targets.old.world }
        requires searched { IsSearched targets.old.world self.old }
        ensures same { targets.new ≡ targets.old }
        ensures searched { OnOk result (IsSearched targets.old.world self.new) }
        ensures turned { result ≡ Ok true → left_of targets.old.world self.new < left_of targets.old.world self.old }
        ensures ended { result ≡ Ok false → (self.new ≡ self.old) × (self.old.methods_done ≡ length self.old.found.methods) }
    {
        let Some(row) = self.found.methods.get(self.methods_done) else {
            return Ok(false);
        };
        let fault = visit_method(alloc, targets, &mut self.found, row)?;
        self.first = earlier(self.first, row, fault);
        self.methods_done += 1;
        Ok(true)
    }

    // Visits the next class, if there is one.
    fn turn_class(&mut self, alloc: Global, targets: &mut Targets) -> Result<bool, NoMemory>
        requires bounded { IsBounded targets.old.world }
        requires searched { IsSearched targets.old.world self.old }
        ensures same { targets.new ≡ targets.old }
        ensures searched { OnOk result (IsSearched targets.old.world self.new) }
        ensures turned { result ≡ Ok true → left_of targets.old.world self.new < left_of targets.old.world self.old }
        ensures ended { result ≡ Ok false → (self.new ≡ self.old) × (self.old.classes_done ≡ length self.old.found.classes) }
    {
        let Some(number) = self.found.classes.get(self.classes_done) else {
            return Ok(false);
        };
        visit_class(alloc, targets, &mut self.found, number)?;
        self.classes_done += 1;
        Ok(true)
    }
}

// The rows of methods and the classes above a class are those of the program.
fn tell_bounds(classes: &Classes)
    ensures { IsBounded classes.now.world }
{
    classes.tree();
}

/// Finds all that the root leads to, and the first refusal in the methods among it.
pub fn search_all(alloc: Global, targets: &mut Targets) -> Result<Search, NoMemory>
    ensures same { targets.new ≡ targets.old }
    ensures searched { IfOk result (IsSearched targets.old.world) }
    ensures bounded { IsBounded targets.old.world }
    ensures methods { IfOk result (λ s. s.methods_done ≡ length s.found.methods) }
    ensures classes { IfOk result (λ s. s.classes_done ≡ length s.found.classes) }
{
    tell_bounds(targets.classes());
    let mut search = Search::begin(alloc, targets)?;
    while search.turn_method(alloc, targets)? || search.turn_class(alloc, targets)? {}
    Ok(search)
}
