//! The classes in order.
ghost use Rattle.std.specs.Prelude.{◌≡◌, ◌<◌, ◌++◌, ◌∷◌, [], ℕ, List, None, Some, IfOk, OnOk, length, replicate, slice_get};
ghost use Rattle.link_rules.specs.Classes.{IsClassOrder, IsCompleted, class_name, classes_of};
ghost use Rattle.link_rules.specs.Conditions.{IsRead};
ghost use Rattle.link_rules.specs.Names.{text_of};
ghost use Rattle.link_rules.specs.World.{IsClassNumber};
ghost use Rattle.link_classes.specs.Numbered.{AreNumbers};
ghost use Rattle.link_classes.specs.Seen.{IsFirstNamed, IsOrder, IsPutIfNew, IsSeen, seen_class, seen_classes};

use super::names::AllNames;
use super::seen::ClassIn;
use jim_ast::{NameId, Program};
use lists::NoMemory;
use std::alloc::{AllocError, Global};

/// The classes in order, and for each of all names the number of the first class that has it.
#[derive(Drop)]
pub struct ClassOrder<'a> {
    pub all: &'a AllNames,
    pub classes: Vec<ClassIn<'a>>,
    pub numbers: Vec<Option<u32>>,
}

/// The number of the class's name among all names.
pub fn name_id(class: &ClassIn) -> NameId
    requires { class.now.class.now.name.0 < length class.now.ids.now }
    ensures { slice_get class.now.ids.now class.now.class.now.name.0 ≡ Some result }
{
    class.ids[class.class.name.0 as usize]
}

// The numbers of so many names that no class has.
fn no_numbers(alloc: Global, count: u32) -> Result<Vec<Option<u32>>, NoMemory>
    ensures { IfOk result (λ numbers. numbers.items ≡ replicate count None) }
{
    vec![in alloc; None; count as usize]
}

impl<'a> ClassOrder<'a> {
    // No class yet.
    fn new(alloc: Global, all: &'a AllNames) -> Result<Self, NoMemory>
        ensures none { IfOk result (λ order. order.classes.items ≡ []) }
        ensures order { IfOk result IsOrder }
        ensures names { IfOk result (λ order. order.all.now ≡ all.now) }
    {
        let numbers = no_numbers(alloc, all.texts.len())?;
        Ok(ClassOrder {
            all,
            classes: Vec::new(alloc),
            numbers,
        })
    }

    // The number of the first class with the name of this one.
    fn number(&self, class: &ClassIn) -> Option<u32>
        requires order { IsOrder self.now }
        requires class { IsSeen self.now.all.now.texts class.now }
        ensures { IsFirstNamed (seen_classes self.now.classes.items) (class_name (seen_class class.now)) result }
    {
        self.numbers[name_id(class).0 as usize]
    }

    /// The number of the first class with the name that has this number among all names.
    pub fn first(&self, name: NameId) -> Option<u32>
        requires order { IsOrder self.now }
        requires name { name.0 < length self.now.all.now.texts }
        ensures { IsFirstNamed (seen_classes self.now.classes.items) (text_of self.now.all.now.texts name) result }
    {
        self.numbers[name.0 as usize]
    }

    /// The number of the first class with this name.
    pub fn first_named(&self, name: &str) -> Option<u32>
        requires { IsOrder self.now }
        ensures { IsFirstNamed (seen_classes self.now.classes.items) name.now result }
    {
        match self.all.texts.find(name) {
            Some(id) => self.first(id),
            None => None,
        }
    }

    /// The number of the first class with a name that has this number among all names, or how many classes there are.
    pub fn number_or_end(&self, name: NameId) -> u32
        requires order { IsOrder self.now }
        requires name { name.0 < length self.now.all.now.texts }
        ensures { (text : List ℕ) → slice_get self.now.all.now.texts name.0 ≡ Some text → IsClassNumber (seen_classes self.now.classes.items) text result }
    {
        self.numbers[name.0 as usize].unwrap_or(self.classes.len() as u32)
    }

    /// The number of the first class with the name of this one, or how many classes there are.
    pub fn first_of_name(&self, class: &ClassIn) -> u32
        requires order { IsOrder self.now }
        requires class { IsSeen self.now.all.now.texts class.now }
        ensures { IsClassNumber (seen_classes self.now.classes.items) (class_name (seen_class class.now)) result }
    {
        self.number_or_end(name_id(class))
    }

    /// The number of the first class with this name, or how many classes there are.
    pub fn find(&self, name: &str) -> u32
        requires { IsOrder self.now }
        ensures { IsClassNumber (seen_classes self.now.classes.items) name.now result }
    {
        match self.all.texts.find(name) {
            Some(id) => self.number_or_end(id),
            None => self.classes.len() as u32,
        }
    }

    // Puts a class behind the others. There is room for 4,294,967,295.
    fn push(&mut self, class: ClassIn<'a>) -> Result<(), NoMemory>
        requires order { IsOrder self.old }
        requires class { IsSeen self.old.all.now.texts class }
        ensures put { OnOk result (seen_classes self.new.classes.items ≡ seen_classes self.old.classes.items ++ seen_class class.entry ∷ []) }
        ensures order { OnOk result (IsOrder self.new) }
        ensures names { OnOk result (self.new.all.now ≡ self.old.all.now) }
    {
        let number = self.classes.len();
        if number >= u32::MAX as usize {
            return Err(AllocError);
        }
        let name = name_id(&class).0 as usize;
        self.classes.push(class)?;
        self.numbers[name] = self.numbers[name].or(Some(number as u32));
        Ok(())
    }

    // Puts a class behind the others where none of them has its name.
    fn push_new(&mut self, class: ClassIn<'a>) -> Result<(), NoMemory>
        requires order { IsOrder self.old }
        requires class { IsSeen self.old.all.now.texts class }
        ensures put { OnOk result (IsPutIfNew (seen_classes self.old.classes.items) (seen_class class.entry) (seen_classes self.new.classes.items)) }
        ensures order { OnOk result (IsOrder self.new) }
        ensures names { OnOk result (self.new.all.now ≡ self.old.all.now) }
    {
        if self.number(&class).is_some() {
            return Ok(());
        }
        self.push(class)
    }

    // Puts all classes of a program behind the others.
    fn add_all(&mut self, program: &'a Program, ids: &'a [NameId]) -> Result<(), NoMemory>
        requires order { IsOrder self.old }
        requires read { IsRead program.now }
        requires numbered { AreNumbers self.old.all.now.texts program.now.names ids.now }
        ensures added { OnOk result (seen_classes self.new.classes.items ≡ seen_classes self.old.classes.items ++ classes_of program.now) }
        ensures order { OnOk result (IsOrder self.new) }
        ensures names { OnOk result (self.new.all.now ≡ self.old.all.now) }
    {
        let classes = program.classes.as_slice();
        for class in classes {
            self.push(ClassIn {
                names: &program.names,
                ids,
                class,
            })?;
        }
        Ok(())
    }

    // Puts those classes of a program behind the others whose name none before them has.
    fn add_new(&mut self, program: &'a Program, ids: &'a [NameId]) -> Result<(), NoMemory>
        requires order { IsOrder self.old }
        requires read { IsRead program.now }
        requires numbered { AreNumbers self.old.all.now.texts program.now.names ids.now }
        ensures completed { OnOk result (IsCompleted (seen_classes self.old.classes.items) (classes_of program.now) (seen_classes self.new.classes.items)) }
        ensures order { OnOk result (IsOrder self.new) }
        ensures names { OnOk result (self.new.all.now ≡ self.old.all.now) }
    {
        let classes = program.classes.as_slice();
        for class in classes {
            self.push_new(ClassIn {
                names: &program.names,
                ids,
                class,
            })?;
        }
        Ok(())
    }

    /// The classes of the input, and those of the prelude whose name no class before them has. Each is looked up by the number of its name.
    pub fn of_programs(
        alloc: Global,
        all: &'a AllNames,
        input: &'a Program,
        prelude: &'a Program,
    ) -> Result<Self, NoMemory>
        requires input { IsRead input.now }
        requires prelude { IsRead prelude.now }
        requires of_input { AreNumbers all.now.texts input.now.names all.now.input.items }
        requires of_prelude { AreNumbers all.now.texts prelude.now.names all.now.prelude.items }
        ensures classes { IfOk result (λ order. IsClassOrder input.now prelude.now (seen_classes order.classes.items)) }
        ensures order { IfOk result IsOrder }
        ensures names { IfOk result (λ order. order.all.now ≡ all.now) }
    {
        let mut order = ClassOrder::new(alloc, all)?;
        order.add_all(input, all.input.as_slice())?;
        order.add_new(prelude, all.prelude.as_slice())?;
        Ok(order)
    }
}
