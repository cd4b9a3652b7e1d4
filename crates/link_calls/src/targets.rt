//! The methods that calls may run.
ghost use Rattle.std.specs.Prelude.{◌≡◌, ◌<◌, All, IfOk, IfSome, length};
ghost use Rattle.link_rules.specs.Targets.{AreTargetRows};
ghost use Rattle.jim_ast.specs.declared.syntax.Mode.TheVariants.{Special, Virtual};
ghost use Rattle.link_calls.specs.Known.{AreKnown, IsFound};
ghost use Rattle.link_calls.specs.Receivers.{AreKnownByKey, AreKnownDefaults, AreLeastsOf, ArePartsOf, AreReceivers};
ghost use Rattle.link_rules.specs.World.{AreRows, World as AWorld};
ghost use Rattle.link_rules.specs.Classes.{methods_of};

use super::finding::{Found, by_name, by_objects, by_path};
use super::receivers::Receivers;
use super::tables::KeyTables;
use default_turns::DefaultTurn;
use jim_ast::Mode;
use link_classes::Classes;
use lists::NoMemory;
use number_sets::NumberTable;
use object_ranges::{Minima, Part};
use std::alloc::Global;
use std::collections::BTreeMap;
use std::marker::Model;

/// The class and the key that a call on an object names.
#[derive(Clone, Copy, Debug, PartialEq, Eq, PartialOrd, Ord)]
struct Asked {
    class: u32,
    key: u32,
}

/// What is known of calls on objects. A look-up takes the logarithm of how many pairs are known, whichever they are.
#[derive(Drop)]
struct Known {
    found: BTreeMap<Asked, Found>,
}

impl Known {
    // Nothing is known.
    fn new(alloc: Global) -> Self
        ensures { (w : AWorld) → AreKnown w result }
    {
        Known {
            found: BTreeMap::new(alloc),
        }
    }

    // What is known of the pair.
    fn get(&self, class: u32, key: u32) -> Option<&Found>
        ensures { (w : AWorld) → AreKnown w self.now → IfSome result (λ found. IsFound w Virtual class key found.now) }
    {
        self.found.get(&Asked { class, key })
    }

    // Keeps what is known of the pair.
    fn put(&mut self, class: u32, key: u32, found: Found) -> Result<(), NoMemory>
        ensures { (w : AWorld) → AreKnown w self.old → IsFound w Virtual class key found → AreKnown w self.new }
    {
        self.found.insert(Asked { class, key }, found)?;
        Ok(())
    }
}

/// The methods that calls may run, by class and key: what calls on objects may run is worked out once for each pair. Contracts see what is
/// linked.
#[derive(Drop)]
pub struct Targets<'a> {
    alloc: Global,
    classes: &'a Classes<'a>,
    receivers: Receivers<'a>,
    keys: KeyTables,
    leasts: NumberTable<Minima>,
    known: Known,
}

impl<'a> Model for Targets<'a> {
    ghost use Rattle.link_classes.specs.Classes.{ClassTable};
    ghost use Rattle.link_calls.specs.Known.{AreKnown};
    ghost use Rattle.link_calls.specs.Receivers.{AreKnownByKey, AreKnownLeasts, AreReceivers};

    ghost Value = { ClassTable };

    ghost view = { λ t. t.classes.now };

    ghost invariant = { λ t. AreReceivers t.classes.now.world t.receivers × AreKnownByKey t.classes.now.world t.receivers t.keys × AreKnownLeasts t.receivers t.leasts
        × AreKnown t.classes.now.world t.known };
}

// The parts of a key, by its turns of default methods. Where these aren't known, they are worked out and kept no longer than the parts need them.
fn made_parts(
    alloc: Global,
    classes: &Classes,
    receivers: &Receivers,
    defaults: &NumberTable<Vec<DefaultTurn>>,
    key: u32,
) -> Result<Vec<Part>, NoMemory>
    requires receivers { AreReceivers classes.now.world receivers.now }
    requires defaults { AreKnownDefaults classes.now.world receivers.now defaults.now }
    ensures { IfOk result (λ parts. ArePartsOf classes.now.world receivers.now key parts.items) }
{
    if let Some(turns) = defaults.get(key) {
        return receivers.parts(alloc, turns.as_slice(), key);
    }
    let turns = receivers.defaults(alloc, classes, key)?;
    receivers.parts(alloc, turns.as_slice(), key)
}

// What a call on an object runs, by the least classes of the spans of the class that it names.
fn by_leasts(
    alloc: Global,
    classes: &Classes,
    receivers: &Receivers,
    keys: &mut KeyTables,
    leasts: &Minima,
    asked: Asked,
) -> Result<Found, NoMemory>
    requires class { asked.class < length classes.now.world.classes }
    requires receivers { AreReceivers classes.now.world receivers.now }
    requires keys { AreKnownByKey classes.now.world receivers.now keys.old }
    requires leasts { AreLeastsOf receivers.now asked.class leasts.now }
    ensures found { IfOk result (IsFound classes.now.world Virtual asked.class asked.key) }
    ensures kept { AreKnownByKey classes.now.world receivers.now keys.new }
{
    if let Some(known) = keys.parts.get(asked.key) {
        return by_objects(alloc, receivers, known.as_slice(), leasts, asked.class);
    }
    let made = made_parts(alloc, classes, receivers, &keys.defaults, asked.key)?;
    let found = by_objects(alloc, receivers, made.as_slice(), leasts, asked.class)?;
    keys.parts.put(asked.key, made)?;
    Ok(found)
}

// The rows are those of the classes.
fn tell_rows(classes: &Classes)
    ensures { AreRows classes.now.world.classes classes.now.world.rows }
{
    classes.tree();
}

impl<'a> Targets<'a> {
    /// No call is worked out yet. It takes time and memory in the number of the classes.
    pub fn new(alloc: Global, classes: &'a Classes<'a>) -> Result<Self, NoMemory>
        ensures { IfOk result (λ targets. targets ≡ classes.now) }
    {
        let receivers = Receivers::new(alloc, classes)?;
        Ok(Targets {
            alloc,
            classes,
            receivers,
            keys: KeyTables::new(alloc),
            leasts: NumberTable::new(alloc),
            known: Known::new(alloc),
        })
    }

    /// The classes.
    pub fn classes(&self) -> &'a Classes<'a>
        ensures { result.now ≡ self.now }
    {
        self.classes
    }

    // What a call on an object runs, where it isn't known.
    fn worked_out(&mut self, class: u32, key: u32) -> Result<Found, NoMemory>
        requires { class < length self.old.world.classes }
        ensures found { IfOk result (IsFound self.old.world Virtual class key) }
        ensures same { self.new ≡ self.old }
    {
        let (alloc, classes) = (self.alloc, self.classes);
        let asked = Asked { class, key };
        if let Some(leasts) = self.leasts.get(class) {
            return by_leasts(
                alloc,
                classes,
                &self.receivers,
                &mut self.keys,
                leasts,
                asked,
            );
        }
        let leasts = self.receivers.leasts(alloc, class)?;
        let found = by_leasts(
            alloc,
            classes,
            &self.receivers,
            &mut self.keys,
            &leasts,
            asked,
        )?;
        self.leasts.put(class, leasts)?;
        Ok(found)
    }

    // What a call on an object runs.
    fn of_objects(&mut self, class: u32, key: u32) -> Result<Found, NoMemory>
        requires { class < length self.old.world.classes }
        ensures found { IfOk result (IsFound self.old.world Virtual class key) }
        ensures same { self.new ≡ self.old }
    {
        if let Some(found) = self.known.get(class, key) {
            return found.copy();
        }
        let found = self.worked_out(class, key)?;
        let copy = found.copy()?;
        self.known.put(class, key, found)?;
        Ok(copy)
    }

    // What a special call runs.
    fn of_class(&mut self, class: u32, key: u32) -> Result<Found, NoMemory>
        requires { class < length self.old.world.classes }
        ensures found { IfOk result (IsFound self.old.world Special class key) }
        ensures same { self.new ≡ self.old }
    {
        by_name(
            self.alloc,
            self.classes,
            &self.receivers,
            &mut self.keys.defaults,
            class,
            key,
        )
    }

    /// What a call of this mode, class and key may run, and whether several default methods are there for it: the caller's own.
    pub fn found(&mut self, mode: Mode, class: u32, key: u32) -> Result<Found, NoMemory>
        requires { class < length self.old.world.classes }
        ensures found { IfOk result (IsFound self.old.world mode class key) }
        ensures within { IfOk result (λ found. All (λ row. row < length (methods_of self.old.world.classes)) found.rows.items) }
        ensures same { self.new ≡ self.old }
    {
        tell_rows(self.classes);
        match mode {
            Mode::Static => by_path(self.alloc, self.classes, class, key),
            Mode::Special => self.of_class(class, key),
            Mode::Virtual | Mode::Interface => self.of_objects(class, key),
        }
    }

    /// The rows of the methods that a call of this mode, class and key may run, each once, in the order of the classes that select them first: a
    /// list of the caller's own.
    pub fn rows(&mut self, mode: Mode, class: u32, key: u32) -> Result<Vec<u32>, NoMemory>
        requires { class < length self.old.world.classes }
        ensures rows { IfOk result (λ rows. AreTargetRows self.old.world mode class key rows.items) }
        ensures within { IfOk result (λ rows. All (λ row. row < length (methods_of self.old.world.classes)) rows.items) }
        ensures same { self.new ≡ self.old }
    {
        let found = self.found(mode, class, key)?;
        Ok(found.rows)
    }
}
