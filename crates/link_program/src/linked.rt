//! The linked program, and what is read of it.
ghost use Rattle.std.specs.Prelude.{◌≡◌, ◌+◌, ◌<◌, ◌↔◌, ℕ, Some, IfNone, IfOk, IfSome, length, map, slice_get};
ghost use Rattle.lists.specs.Lists.{IsLeast, Has};
ghost use Rattle.class_rules.specs.Lookups.{Resolve};
ghost use Rattle.link_rules.specs.WellLinked.{IsInForm};
ghost use Rattle.link_indexes.specs.Facts.{Calls, Stores, StoresStatic};
ghost use Rattle.link_rules.specs.Flow.{IsRaised, IsReturn};
ghost use Rattle.link_indexes.specs.Rows.{AreTheIndexes, AreThePlaces};
ghost use Rattle.link_indexes.specs.Tables.{GoesOnIn, IsAt, IsInMethod};
ghost use Rattle.link_rules.specs.Accessed.{At, HasElementText, HasText, IsFieldNamed, MakesArray, codes_in, field_class, linked_class_names, IsFirstPlace};
ghost use Rattle.link_program.specs.Methods.{IsBodyOf, IsHeadOf};
ghost use Rattle.link_program.specs.Parts.{AreParts, program_of, with_code};

use super::elements::element_text;
use super::fields::find_field;
use super::heads::Heads;
use super::method::MethodHead;
use super::methods::Methods;
use super::parts::{CodePart, MemberPart, Shared};
use super::places::first_name;
use super::selecting::selections_of;
use class_tree::Tree;
use jim_ast::Name;
use link_indexes::{Indexes, MethodCode, Place};
use link_rules::{Catch, Code};
use lists::NoMemory;
use std::alloc::Global;
use std::marker::Model;
use std::sync::Arc;

/// A linked program: names are numbers. Its methods are numbered from 0 in class order and then in written order, the root being the last;
/// classes in class order; instance fields from 1 and static fields from 0 in class order; texts and class constants in the order of first use.
/// Contracts see all of it but its indexes. What is read of it takes no memory. Programs that are made of one by `with_code` share all but their code with
/// it.
#[derive(Drop)]
pub struct Linked {
    shared: Arc<Shared>,
    bodies: Vec<MethodCode>,
    indexes: Indexes,
}

impl Model for Linked {
    ghost use Rattle.link_rules.specs.Linked.{LinkedProgram};

    ghost Value = { LinkedProgram };

    ghost use Rattle.link_program.specs.Parts.{IsKept, program_with};

    ghost view = { λ l. program_with l.shared.value l.bodies.items };

    ghost invariant = { λ l. IsKept l.shared.value l.bodies.items l.indexes };
}

impl Linked {
    /// The linked program with these parts and this hierarchy. Its indexes take memory, and so do the default methods that its calls may run: those of keys that
    /// many interfaces have are worked out beforehand.
    pub fn of_parts(
        alloc: Global,
        code: CodePart,
        members: MemberPart,
        tree: Tree,
    ) -> Result<Self, NoMemory>
        requires parts { AreParts code members }
        requires form { IsInForm (program_of code members tree) }
        ensures { IfOk result (λ p. p ≡ program_of code members tree) }
    {
        let CodePart {
            methods,
            rows,
            constants,
        } = code;
        let Methods { heads, bodies } = methods;
        let indexes = Indexes::new(alloc, bodies.as_slice())?;
        let selections = selections_of(alloc, &tree, bodies.as_slice())?;
        let shared = Shared {
            heads: Heads { heads },
            rows,
            constants,
            members,
            tree,
            selections,
        };
        Ok(Linked {
            shared: Arc::new(alloc, shared)?,
            bodies,
            indexes,
        })
    }

    /// The program with other code for its methods, in order. All else is the same, and is shared with this one. Its indexes take memory.
    pub fn with_code(&self, alloc: Global, bodies: Vec<MethodCode>) -> Result<Self, NoMemory>
        requires as_many { length bodies.items ≡ length self.now.methods }
        requires form { IsInForm (with_code self.now bodies.items) }
        ensures { IfOk result (λ p. p ≡ with_code self.now bodies.items) }
    {
        let indexes = Indexes::new(alloc, bodies.as_slice())?;
        Ok(Linked {
            shared: self.shared.clone()?,
            bodies,
            indexes,
        })
    }

    // A method without its code.
    fn head(&self, method: u32) -> &MethodHead
        requires { method < length self.now.methods }
        ensures head { At self.now.methods method (λ m. IsHeadOf m result.now) }
        ensures form { IsInForm self.now }
    {
        self.shared.heads.head(method)
    }

    // The code of a method.
    fn body(&self, method: u32) -> &MethodCode
        requires { method < length self.now.methods }
        ensures { At self.now.methods method (λ m. IsBodyOf m result.now) }
    {
        &self.bodies[method as usize]
    }

    /// Says of what form each linked program is: what its numbers name is there, each statement fits its method, and the root is the last method.
    /// A proof that needs the form calls it. It does nothing when it runs.
    pub fn tell_form(&self)
        ensures { IsInForm self.now }
    {
        let _inside = &self.indexes;
    }

    /// How many methods there are, the root included.
    pub fn methods(&self) -> u32
        ensures count { result ≡ length self.now.methods }
        ensures form { IsInForm self.now }
    {
        self.bodies.len() as u32
    }

    /// The number of the root, which is the last.
    pub fn root(&self) -> u32
        ensures { result + 1 ≡ length self.now.methods }
    {
        self.methods() - 1
    }

    /// The statements of a method.
    pub fn code(&self, method: u32) -> &[Code]
        requires { method < length self.now.methods }
        ensures { At self.now.methods method (λ m. result.now ≡ m.code) }
    {
        self.body(method).code.as_slice()
    }

    /// The handlers of a method.
    pub fn catches(&self, method: u32) -> &[Catch]
        requires { method < length self.now.methods }
        ensures { At self.now.methods method (λ m. result.now ≡ m.catches) }
    {
        self.body(method).catches.as_slice()
    }

    /// The names of the locals of a method, in declared order.
    pub fn locals(&self, method: u32) -> &[Name]
        requires { method < length self.now.methods }
        ensures { At self.now.methods method (λ m. result.now ≡ m.locals) }
    {
        self.head(method).locals.as_slice()
    }

    /// How many parameters a method has.
    pub fn params(&self, method: u32) -> u32
        requires { method < length self.now.methods }
        ensures { At self.now.methods method (λ m. result ≡ m.params) }
    {
        self.head(method).params
    }

    /// Whether a method has a receiver.
    pub fn has_this(&self, method: u32) -> bool
        requires { method < length self.now.methods }
        ensures { At self.now.methods method (λ m. result ≡ m.has_this) }
    {
        self.head(method).has_this
    }

    /// The text of a method, `<C: R m(P1,P2)>`; that of the root is `root`.
    pub fn method_text(&self, method: u32) -> &str
        requires { method < length self.now.methods }
        ensures { At self.now.methods method (λ m. result.now ≡ m.text) }
    {
        self.head(method).text.as_str()
    }

    /// The text of the type of what the arrays hold that the statement at an index of a method makes, of the innermost level where it makes several.
    pub fn element_text(&self, method: u32, index: u32) -> &str
        requires { MakesArray self.now method index }
        ensures { At self.now.methods method (λ m. HasElementText m.elements index result.now) }
    {
        element_text(self.head(method).elements.as_slice(), index)
    }

    /// The least number of a method with this text. The root is never found.
    pub fn find_method(&self, text: &str) -> Option<u32>
        ensures some { IfSome result (IsLeast (HasText self.now text.now)) }
        ensures none { IfNone result ((number : ℕ) → HasText self.now text.now number → ⊥) }
    {
        let number = self.shared.heads.find(text)?;
        if number < self.root() {
            return Some(number);
        }
        None
    }

    /// The first local of a method with this name, looked for one by one.
    pub fn find_local(&self, method: u32, name: &str) -> Option<u32>
        requires { method < length self.now.methods }
        ensures some { At self.now.methods method (λ m. IfSome result (IsFirstPlace m.locals name.now)) }
        ensures none { At self.now.methods method (λ m. IfNone result (Has m.locals name.now → ⊥)) }
    {
        first_name(self.head(method).locals.as_slice(), name)
    }

    /// The number of the method of a row of the hierarchy, where a run may reach it.
    pub fn method_of_row(&self, row: u32) -> Option<u32>
        ensures { (number : ℕ) → (result ≡ Some number) ↔ (slice_get self.now.method_rows number ≡ Some row) }
    {
        self.shared.rows.number(row)
    }

    /// How many classes there are.
    pub fn classes(&self) -> u32
        ensures { result ≡ length self.now.classes }
    {
        self.shared.members.classes.len()
    }

    /// The name of a class.
    pub fn class_name(&self, class: u32) -> &str
        requires { class < length self.now.classes }
        ensures { At self.now.classes class (λ c. result.now ≡ c.name) }
    {
        self.shared.members.classes.entry(class).name.as_str()
    }

    /// Whether a class may have objects.
    pub fn instantiable(&self, class: u32) -> bool
        requires { class < length self.now.classes }
        ensures { At self.now.classes class (λ c. result ≡ c.instantiable) }
    {
        self.shared.members.classes.entry(class).instantiable
    }

    /// The number of the class with this name.
    pub fn class_number(&self, name: &str) -> Option<u32>
        ensures some { IfSome result (IsFirstPlace (linked_class_names self.now.classes) name.now) }
        ensures none { IfNone result (Has (linked_class_names self.now.classes) name.now → ⊥) }
    {
        self.shared.members.classes.find(name)
    }

    /// The class of an instance field. The number 0, which stands for the elements of arrays, has none, nor has one past the last field.
    pub fn field_class(&self, field: u32) -> Option<u32>
        ensures { result ≡ field_class self.now field }
    {
        let at = field.checked_sub(1)?;
        let entry = self.shared.members.fields.as_slice().get(at as usize)?;
        Some(entry.class)
    }

    /// The least number, from 1 on, of an instance field that the class itself declares under this name, whatever its type. A field of a parent or
    /// of an interface isn't found.
    pub fn find_field(&self, class: u32, name: &str) -> Option<u32>
        ensures some { IfSome result (IsLeast (IsFieldNamed self.now class name.now)) }
        ensures none { IfNone result ((field : ℕ) → IsFieldNamed self.now class name.now field → ⊥) }
    {
        find_field(self.shared.members.fields.as_slice(), class, name)
    }

    /// How many static fields there are.
    pub fn static_count(&self) -> u32
        ensures { result ≡ self.now.static_count }
    {
        self.shared.members.static_count
    }

    /// The name of a key of methods.
    pub fn key_name(&self, key: u32) -> &str
        requires { key < length self.now.keys }
        ensures { At self.now.keys key (λ k. result.now ≡ k.name) }
    {
        self.shared.members.keys.as_slice()[key as usize]
            .name
            .as_str()
    }

    /// The texts that the methods use.
    pub fn texts(&self) -> &[Name]
        ensures { result.now ≡ self.now.texts }
    {
        self.shared.constants.texts.as_slice()
    }

    /// The class constants that the methods use.
    pub fn class_texts(&self) -> &[Name]
        ensures { result.now ≡ self.now.class_texts }
    {
        self.shared.constants.class_texts.as_slice()
    }

    /// The hierarchy of the classes, with all methods and fields.
    pub fn tree(&self) -> &Tree
        ensures { result.now ≡ self.now.rows }
    {
        &self.shared.tree
    }

    /// The row of the method that a call on an object of the class runs: the one along the parents, or else the one default method that the interfaces reached
    /// from the class have, as selection in the Java Virtual Machine Specification goes. For a key that a call of the program as it was linked names it takes the
    /// logarithm of the size of the hierarchy.
    pub fn resolve(&self, class: u32, key: u32) -> Option<u32>
        requires { class < length self.now.rows.classes }
        ensures { Resolve self.now.rows class key result }
    {
        let shared = &self.shared;
        shared.selections.resolve(&shared.tree, class, key)
    }

    /// The places of the calls that have the method among their targets, in order.
    pub fn callers(&self, target: u32) -> &[Place]
        ensures { AreThePlaces (IsAt (Calls target) (codes_in self.now)) result.now }
    {
        self.indexes.callers(target)
    }

    /// The places of the stores into an instance field, or for 0 into elements of arrays.
    pub fn stores(&self, field: u32) -> &[Place]
        ensures { AreThePlaces (IsAt (Stores field) (codes_in self.now)) result.now }
    {
        self.indexes.stores(field)
    }

    /// The places of the stores into a static field.
    pub fn static_stores(&self, field: u32) -> &[Place]
        ensures { AreThePlaces (IsAt (StoresStatic field) (codes_in self.now)) result.now }
    {
        self.indexes.static_stores(field)
    }

    /// The indexes of a method's returns.
    pub fn returns(&self, method: u32) -> &[u32]
        ensures { AreTheIndexes (IsInMethod IsReturn (codes_in self.now) method) result.now }
    {
        self.indexes.returns(method)
    }

    /// The indexes of a method's statements that an exception may come out of.
    pub fn raised(&self, method: u32) -> &[u32]
        ensures { AreTheIndexes (IsInMethod IsRaised (codes_in self.now) method) result.now }
    {
        self.indexes.raised(method)
    }

    /// The indexes of the statements of a method from which a run may go on to the one at `index`, other than by an exception.
    pub fn before(&self, method: u32, index: u32) -> &[u32]
        ensures { AreTheIndexes (GoesOnIn (codes_in self.now) method index) result.now }
    {
        self.indexes.before(method, index)
    }
}
