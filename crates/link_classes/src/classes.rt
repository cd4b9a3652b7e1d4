//! The classes that are linked, with all that is looked up of them.
ghost use Rattle.std.specs.Prelude.{◌≡◌, ◌≤◌, ◌<◌, ◌↔◌, ℕ, List, Some, Err, All, IfOk, IfNone, IfSome, IsTrue, length, slice_get};
ghost use Rattle.jim_ast.specs.declared.names.NameId.{NameId as ANameId};
ghost use Rattle.link_rules.specs.declared.refusal.LinkKind.{LinkKind as AKind};
ghost use Rattle.link_rules.specs.declared.refusal.LinkKind.TheVariants as rule;
ghost use Rattle.class_rules.specs.Rows.{Step};
ghost use Rattle.link_rules.specs.Classes.{DeclaredClass, IsNamed, class_name, fields_of, methods_of};
ghost use Rattle.link_rules.specs.Conditions.{IsRead, field_sig_names, method_sig_names, AreWithin};
ghost use Rattle.link_rules.specs.Keys.{IsFieldKeyNumber, IsMethodKeyNumber, accessed_key, called_key, is_static_mode};
ghost use Rattle.link_rules.specs.Names.{text_of};
ghost use Rattle.link_rules.specs.Reach.{DeclaresBody};
ghost use Rattle.link_rules.specs.Refusals.{IsEntry, IsFirst, IsPlaceOf, RefusesWhole, number_of, whole};
ghost use Rattle.link_rules.specs.Root.{initializer_key, root_names, root_of};
ghost use Rattle.link_rules.specs.Targets.{IsInstantiableAt};
ghost use Rattle.link_rules.specs.World.{AreRows, IsWorld, World};
ghost use Rattle.link_classes.specs.Classes.{IsKnown, IsRoot, texts_at};
ghost use Rattle.link_classes.specs.FoundParts.{IsFound};
ghost use Rattle.link_classes.specs.Numbered.{AreNumbers, fixed_names};
ghost use Rattle.link_classes.specs.RowTables.{AreRowTables, world_in};
ghost use Rattle.link_classes.specs.Seen.{IsFieldSeen, IsOrder, seen_class, seen_field, seen_method};

use super::bodies::{declared_body, field_number, initializer_number, main_number, method_number};
use super::checks::checked_tree;
use super::instantiable::is_instantiable;
use super::keys::{field_key_in, method_key_in};
use super::member_tables::{FieldTable, MethodTable};
use super::names::AllNames;
use super::order::ClassOrder;
use super::root::{root_decl, root_ids};
use super::row_tables::RowTables;
use super::seen::{ClassIn, FieldIn, MethodIn};
use super::tables::{FieldKeys, MethodKeys};
use class_tree::Tree;
use jim_ast::{FieldSig, MethodDecl, MethodSig, Mode, Name, NameId, Names, Program};
use link_rules::LinkKind;
use lists::NoMemory;
use std::alloc::{AllocError, Global};
use std::marker::Model;

/// Why there are no classes.
#[derive(Debug, Drop)]
pub enum NoClasses {
    /// One of the first three rules refuses the class with this name.
    Refused { kind: LinkKind, place: Name },
    NoMemory,
}

impl From<AllocError> for NoClasses {
    ghost use Rattle.std.specs.Prelude.{◌≡◌};
    ghost use Rattle.link_classes.specs.declared.classes.NoClasses.TheVariants.{NoMemory};

    ghost from_gives = { λ _ e. e ≡ NoMemory };

    fn from(_error: AllocError) -> Self {
        NoClasses::NoMemory
    }
}

/// The root: what it declares. Its names are kept with the classes, since each root has the same.
#[derive(Drop)]
pub struct Root {
    pub decl: MethodDecl,
}

/// The classes that are linked, in order, with their hierarchy: no class has the name of another, each parent is declared, and no class is its own
/// ancestor. A look-up takes no memory unless it says so.
#[derive(Drop)]
pub struct Classes<'a> {
    order: ClassOrder<'a>,
    methods: Vec<MethodIn<'a>>,
    method_keys: MethodKeys,
    fields: Vec<FieldIn<'a>>,
    field_keys: FieldKeys,
    tree: Tree,
    entry: &'a str,
    // The numbers of the keys of `main` and of initializers.
    main: u32,
    initializer: u32,
    // The names of a root by their numbers among all names.
    root: Vec<NameId>,
}

impl<'a> Model for Classes<'a> {
    ghost use Rattle.link_classes.specs.Classes.{ClassTable};
    ghost use Rattle.link_classes.specs.Held.{IsHeld, world_of};

    ghost Value = { ClassTable };

    ghost view = { λ c. record { texts = c.order.all.now.texts; world = world_of c.order c.tree c.entry.now } };

    ghost invariant = { λ c. IsHeld c.order c.methods.items c.method_keys c.fields.items c.field_keys c.tree c.entry.now c.main c.initializer c.root.items };
}

/// What is found of classes by their rows: the hierarchy, the numbers of the keys of `main` and of initializers, and the names of a root.
#[derive(Drop)]
struct Found {
    tree: Tree,
    main: u32,
    initializer: u32,
    root: Vec<NameId>,
}

// What is found of the classes in this order, with these rows.
fn found_in(alloc: Global, order: &ClassOrder, tables: &RowTables) -> Result<Found, NoClasses>
    requires order { IsOrder order.now }
    requires tables { AreRowTables order.now tables.now }
    requires root { length order.now.all.now.root.items ≡ 6 }
    ensures found { IfOk result (IsFound order.now tables.now) }
    ensures refused { (kind : AKind) (place : List ℕ) → result ≡ Err (NoClasses.Refused kind place)
        → (number : ℕ) × ((entry : List ℕ) → IsFirst (world_in order.now tables.now entry) (whole kind number) × IsPlaceOf (world_in order.now tables.now entry) kind number place) }
{
    let count = tables.methods.methods.len() as u32;
    let fixed = order.all.root.as_slice();
    let main = main_number(alloc, fixed, &tables.methods.keys, count)?;
    let initializer = initializer_number(alloc, fixed, &tables.methods.keys, count)?;
    let root = root_ids(alloc, order)?;
    let tree = checked_tree(alloc, order, tables)?;
    Ok(Found {
        tree,
        main,
        initializer,
        root,
    })
}

// The classes in this order, with their members and what was found. Their rows are no longer needed.
fn joined<'a>(
    order: ClassOrder<'a>,
    tables: RowTables<'a>,
    found: Found,
    entry: &'a str,
) -> Classes<'a>
    requires order { IsOrder order }
    requires tables { AreRowTables order tables }
    requires found { IsFound order tables found }
    requires root { AreNumbers order.all.now.texts (fixed_names entry.now) order.all.now.root.items }
    ensures world { result.world ≡ world_in order.entry tables.entry entry.now }
    ensures texts { result.texts ≡ order.entry.all.now.texts }
{
    let RowTables {
        methods,
        fields,
        ..
    } = tables;
    let MethodTable {
        methods,
        keys: method_keys,
        ..
    } = methods;
    let FieldTable {
        fields,
        keys: field_keys,
        ..
    } = fields;
    let Found {
        tree,
        main,
        initializer,
        root,
    } = found;
    Classes {
        order,
        methods,
        method_keys,
        fields,
        field_keys,
        tree,
        entry,
        main,
        initializer,
        root,
    }
}

impl<'a> Classes<'a> {
    /// The classes of an input and a prelude, with the class that the program begins with.
    ///
    /// `Refused` comes where one of the first three rules refuses the program, with the first refusal; `NoMemory` can come in place of any answer.
    pub fn new(
        alloc: Global,
        all: &'a AllNames,
        input: &'a Program,
        prelude: &'a Program,
        entry: &'a str,
    ) -> Result<Self, NoClasses>
        requires input { IsRead input.now }
        requires prelude { IsRead prelude.now }
        requires of_input { AreNumbers all.now.texts input.now.names all.now.input.items }
        requires of_prelude { AreNumbers all.now.texts prelude.now.names all.now.prelude.items }
        requires of_root { AreNumbers all.now.texts (fixed_names entry.now) all.now.root.items }
        ensures world { IfOk result (λ c. IsWorld input.now prelude.now entry.now c.world) }
        ensures names { IfOk result (λ c. c.texts ≡ all.now.texts) }
        ensures passed { IfOk result (λ c. (kind : AKind) (number : ℕ) → number_of kind ≤ 3 → RefusesWhole c.world kind number → ⊥) }
        ensures refused { (kind : AKind) (place : List ℕ) → result ≡ Err (NoClasses.Refused kind place)
            → (w : World) × (number : ℕ) × IsWorld input.now prelude.now entry.now w × IsFirst w (whole kind number) × IsPlaceOf w kind number place }
    {
        let order = ClassOrder::of_programs(alloc, all, input, prelude)?;
        let tables = RowTables::new(alloc, &order)?;
        let found = found_in(alloc, &order, &tables)?;
        Ok(joined(order, tables, found, entry))
    }

    /// Whether there is a method to begin with, as the last rule of the program asks.
    pub fn has_entry(&self) -> bool
        ensures passed { IsTrue result → (kind : AKind) (number : ℕ) → RefusesWhole self.now.world kind number → ⊥ }
        ensures refused { (IsTrue result → ⊥) → IsFirst self.now.world (whole rule.NoEntry 0) }
    {
        let _inside = &self.order;
        self.entry_row().is_some()
    }

    // The method that the program begins with.
    fn entry_row(&self) -> Option<u32>
        ensures some { IfSome result (IsEntry self.now.world) }
        ensures none { IfNone result ((row : ℕ) → IsEntry self.now.world row → ⊥) }
    {
        let class = self.order.first_named(self.entry)?;
        declared_body(&self.tree, self.methods.as_slice(), class, self.main)
    }

    /// All names.
    pub fn names(&self) -> &Names
        ensures { result.now ≡ self.now.texts }
    {
        &self.order.all.texts
    }

    /// How many classes there are.
    pub fn class_count(&self) -> u32
        ensures { result ≡ length self.now.world.classes }
    {
        self.order.classes.len() as u32
    }

    /// The class with this number.
    pub fn class(&self, number: u32) -> ClassIn<'a>
        requires { number < length self.now.world.classes }
        ensures { slice_get self.now.world.classes number ≡ Some (seen_class result) }
    {
        self.order.classes[number as usize]
    }

    /// The name of the class with this number.
    pub fn class_name(&self, number: u32) -> &'a str
        requires { number < length self.now.world.classes }
        ensures { (c : DeclaredClass) → slice_get self.now.world.classes number ≡ Some c → result.now ≡ class_name c }
    {
        let class = self.order.classes[number as usize];
        class.names.text(class.class.name)
    }

    /// The number of the class whose name has this number among all names.
    pub fn number(&self, name: NameId) -> Option<u32>
        requires { name.0 < length self.now.texts }
        ensures { (n : ℕ) → (result ≡ Some n) ↔ IsNamed self.now.world.classes (text_of self.now.texts name) n }
    {
        self.order.first(name)
    }

    /// The number of the class with this name.
    pub fn find(&self, name: &str) -> Option<u32>
        ensures { (n : ℕ) → (result ≡ Some n) ↔ IsNamed self.now.world.classes name.now n }
    {
        self.order.first_named(name)
    }

    /// Whether the class with this number may have objects.
    pub fn is_instantiable(&self, number: u32) -> bool
        requires { number < length self.now.world.classes }
        ensures { IsTrue result ↔ IsInstantiableAt self.now.world number }
    {
        let class = &self.order.classes[number as usize];
        is_instantiable(class)
    }

    /// How many methods there are.
    pub fn method_count(&self) -> u32
        ensures { result ≡ length (methods_of self.now.world.classes) }
    {
        self.methods.len() as u32
    }

    /// The method with this number.
    pub fn method(&self, row: u32) -> MethodIn<'a>
        requires { row < length (methods_of self.now.world.classes) }
        ensures there { slice_get (methods_of self.now.world.classes) row ≡ Some (seen_method result) }
        ensures known { IsKnown self.now.texts result }
    {
        self.methods[row as usize]
    }

    /// How many fields there are.
    pub fn field_count(&self) -> u32
        ensures { result ≡ length (fields_of self.now.world.classes) }
    {
        self.fields.len() as u32
    }

    /// The field with this number.
    pub fn field(&self, row: u32) -> FieldIn<'a>
        requires { row < length (fields_of self.now.world.classes) }
        ensures there { slice_get (fields_of self.now.world.classes) row ≡ Some (seen_field result) }
        ensures known { IsFieldSeen self.now.texts result }
    {
        self.fields[row as usize]
    }

    /// The number of the key that a call names, or how many methods there are where none has it. `ids` numbers the names of the caller's program.
    /// The look-up takes memory for the key.
    pub fn called(
        &self,
        alloc: Global,
        ids: &[NameId],
        mode: Mode,
        sig: &MethodSig,
    ) -> Result<u32, NoMemory>
        requires numbers { All (λ (id : ANameId). id.0 < length self.now.texts) ids.now }
        requires within { AreWithin (texts_at self.now.texts ids.now) (method_sig_names sig.now) }
        ensures { IfOk result (λ key. IsMethodKeyNumber (methods_of self.now.world.classes) (called_key (texts_at self.now.texts ids.now) mode sig.now) key) }
    {
        let key = method_key_in(
            alloc,
            ids,
            sig.name,
            sig.params.as_slice(),
            sig.result,
            is_static(mode),
        )?;
        Ok(method_number(&self.method_keys, &key, self.methods.len() as u32))
    }

    /// The number of the key that an access names, or how many fields there are where none has it. `ids` numbers the names of the method's
    /// program.
    pub fn accessed(&self, ids: &[NameId], is_static: bool, sig: &FieldSig) -> u32
        requires numbers { All (λ (id : ANameId). id.0 < length self.now.texts) ids.now }
        requires within { AreWithin (texts_at self.now.texts ids.now) (field_sig_names sig.now) }
        ensures { IsFieldKeyNumber (fields_of self.now.world.classes) (accessed_key (texts_at self.now.texts ids.now) is_static sig.now) result }
    {
        let key = field_key_in(ids, sig.name, sig.ty, is_static);
        field_number(&self.field_keys, &key, self.fields.len() as u32)
    }

    /// The initializer with a body that the class itself declares.
    pub fn initializer(&self, class: u32) -> Option<u32>
        requires { class < length self.now.world.classes }
        ensures { (row : ℕ) → (result ≡ Some row) ↔ DeclaresBody self.now.world class initializer_key row }
    {
        declared_body(&self.tree, self.methods.as_slice(), class, self.initializer)
    }

    /// The hierarchy, which has as many classes.
    pub fn tree(&self) -> &Tree
        ensures rows { result.now ≡ self.now.world.rows }
        ensures of_classes { AreRows self.now.world.classes self.now.world.rows }
        ensures classes { length self.now.world.rows.classes ≡ length self.now.world.classes }
        ensures methods { length self.now.world.rows.methods ≡ length (methods_of self.now.world.classes) }
        ensures known { (a b : ℕ) → Step self.now.world.rows.classes self.now.world.rows.implements a b → b < length self.now.world.classes }
    {
        &self.tree
    }

    /// The hierarchy, taken out.
    pub fn into_tree(self) -> Tree
        ensures { result ≡ self.entry.world.rows }
    {
        self.tree
    }

    // The names of a root by their numbers among all names.
    fn root_names(&self) -> &[NameId]
        ensures names { texts_at self.now.texts result.now ≡ root_names self.now.world }
        ensures numbers { All (λ (id : ANameId). id.0 < length self.now.texts) result.now }
    {
        self.root.as_slice()
    }

    /// The root that initializes these classes.
    pub fn root(&self, alloc: Global, initialized: &[u32]) -> Result<Root, NoMemory>
        requires { All (λ class. class < length self.now.world.classes) initialized.now }
        ensures { IfOk result (IsRoot self.now initialized.now) }
    {
        Ok(Root {
            decl: root_decl(alloc, initialized)?,
        })
    }
}

// Whether a call of this mode names a static method.
fn is_static(mode: Mode) -> bool
    ensures { result ≡ is_static_mode mode }
{
    matches!(mode, Mode::Static)
}

/// The root as a method.
pub fn root_method<'a>(classes: &'a Classes<'_>, root: &'a Root) -> MethodIn<'a>
    requires root { (initialized : List ℕ) × IsRoot classes.now initialized root.now }
    ensures seen { (initialized : List ℕ) → IsRoot classes.now initialized root.now → seen_method result ≡ root_of classes.now.world initialized }
    ensures known { IsKnown classes.now.texts result }
{
    MethodIn {
        class: classes.class_count(),
        owner: "",
        all: classes.names(),
        ids: classes.root_names(),
        decl: &root.decl,
    }
}
