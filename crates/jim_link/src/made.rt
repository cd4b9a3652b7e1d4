//! The code of all methods that a run may reach, and of the root.
ghost use Rattle.std.specs.Prelude.{◌≡◌, ◌++◌, [], ◌∷◌, ℕ, List as Items, IfOk, IsSome, OnOk, codes};
ghost use Rattle.lists.specs.Lists.{Has};
ghost use Rattle.link_classes.specs.Classes.{IsKnown};
ghost use Rattle.link_classes.specs.Seen.{seen_method};
ghost use Rattle.link_codes.specs.Fields.{field_numbers};
ghost use Rattle.link_program.specs.Methods.{AreMethods};
ghost use Rattle.link_reach.specs.Reaches.{AreReached};
ghost use Rattle.link_rules.specs.declared.refusal.LinkKind.{LinkKind as AKind};
ghost use Rattle.link_rules.specs.Classes.{fields_of, methods_of};
ghost use Rattle.link_rules.specs.Reach.{AreInitialized, IsTarget, RefusesAt};
ghost use Rattle.link_rules.specs.Refusals.{IsAccepted};
ghost use Rattle.link_rules.specs.World.{AreRows};
ghost use Rattle.jim_link.specs.Made.{AddsMethod, AreAllMade, AreKnownAbove, AreMade, PutsMethod};

use super::heads::method_head;
use super::texts::{method_text, owned};
use jim_ast::{List, Name};
use link_calls::Targets;
use link_classes::{Classes, MethodIn, root_method};
use link_codes::{Constants, FieldNumbers, MethodCode, method_code};
use link_indexes::MethodCode as Body;
use link_program::{Methods, Numbering};
use lists::NoMemory;
use std::alloc::Global;

/// The methods that are made so far, and the constants that they use.
#[derive(Drop)]
pub struct Made {
    pub methods: Methods,
    pub constants: Constants,
}

// Puts a method last, by its code.
fn push_code(
    alloc: Global,
    methods: &mut Methods,
    method: &MethodIn,
    text: Name,
    made: MethodCode,
) -> Result<(), NoMemory>
    requires known { IsKnown method.now.all.now method.now }
    requires body { IsSome method.now.decl.now.body }
    requires methods { AreMethods methods.old }
    ensures methods { OnOk result (AreMethods methods.new) }
    ensures put { OnOk result (PutsMethod (seen_method method.now) text made methods.old methods.new) }
{
    let MethodCode {
        code,
        catches,
        elements,
    } = made;
    let head = method_head(alloc, method, text, List::from_vec(elements))?;
    let body = Body {
        code: List::from_vec(code),
        catches: List::from_vec(catches),
    };
    methods.push(head, body)
}

// Makes a method, and puts it last.
fn add(
    alloc: Global,
    targets: &mut Targets,
    fields: &FieldNumbers,
    numbering: &Numbering,
    made: &mut Made,
    method: &MethodIn,
    text: Name,
) -> Result<(), NoMemory>
    requires known { IsKnown targets.old.texts method.now }
    requires fields { fields.now ≡ field_numbers (fields_of targets.old.world.classes) }
    requires body { IsSome method.now.decl.now.body }
    requires accepted { (index : ℕ) (kind : AKind) → RefusesAt targets.old.world (seen_method method.now) index kind → ⊥ }
    requires numbered { (index row : ℕ) → IsTarget targets.old.world (seen_method method.now) index row → Has numbering.now row }
    requires methods { AreMethods made.old.methods }
    ensures added { OnOk result (AddsMethod targets.old.world numbering.now text (seen_method method.now) made.old made.new) }
    ensures same { targets.new ≡ targets.old }
{
    let code = method_code(
        alloc,
        targets,
        fields,
        numbering,
        &mut made.constants,
        method,
    )?;
    push_code(alloc, &mut made.methods, method, text, code)
}

// Makes the method of a row, and puts it last.
fn add_row(
    alloc: Global,
    targets: &mut Targets,
    fields: &FieldNumbers,
    numbering: &Numbering,
    made: &mut Made,
    row: u32,
) -> Result<(), NoMemory>
    requires rows { AreRows targets.old.world.classes targets.old.world.rows }
    requires reached { AreReached targets.old.world numbering.now }
    requires accepted { IsAccepted targets.old.world }
    requires fields { fields.now ≡ field_numbers (fields_of targets.old.world.classes) }
    requires row { Has numbering.now row }
    requires methods { AreMethods made.old.methods }
    ensures methods { OnOk result (AreMethods made.new.methods) }
    ensures added { OnOk result ((done : Items ℕ) → AreMade targets.old.world numbering.now done made.old → AreMade targets.old.world numbering.now (done ++ row ∷ []) made.new) }
    ensures same { targets.new ≡ targets.old }
{
    let method = targets.classes().method(row);
    let text = method_text(alloc, &method)?;
    add(alloc, targets, fields, numbering, made, &method, text)
}

// Makes the methods of all rows.
fn add_rows(
    alloc: Global,
    targets: &mut Targets,
    fields: &FieldNumbers,
    numbering: &Numbering,
    made: &mut Made,
) -> Result<(), NoMemory>
    requires rows { AreRows targets.old.world.classes targets.old.world.rows }
    requires reached { AreReached targets.old.world numbering.now }
    requires accepted { IsAccepted targets.old.world }
    requires fields { fields.now ≡ field_numbers (fields_of targets.old.world.classes) }
    requires none { AreMade targets.old.world numbering.now [] made.old }
    ensures made { OnOk result (AreMade targets.old.world numbering.now numbering.now made.new) }
    ensures same { targets.new ≡ targets.old }
{
    for row in numbering.rows() {
        add_row(alloc, targets, fields, numbering, made, *row)?;
    }
    Ok(())
}

// Makes the root, and puts it last.
fn add_root(
    alloc: Global,
    targets: &mut Targets,
    fields: &FieldNumbers,
    numbering: &Numbering,
    made: &mut Made,
    initialized: &[u32],
) -> Result<(), NoMemory>
    requires rows { AreRows targets.old.world.classes targets.old.world.rows }
    requires known { AreKnownAbove targets.old.world }
    requires reached { AreReached targets.old.world numbering.now }
    requires accepted { IsAccepted targets.old.world }
    requires initialized { AreInitialized targets.old.world initialized.now }
    requires fields { fields.now ≡ field_numbers (fields_of targets.old.world.classes) }
    requires made { AreMade targets.old.world numbering.now numbering.now made.old }
    ensures made { OnOk result (AreAllMade targets.old.world numbering.now initialized.now made.new) }
    ensures same { targets.new ≡ targets.old }
{
    let classes = targets.classes();
    let root = classes.root(alloc, initialized)?;
    let text = owned(alloc, "root")?;
    add(
        alloc,
        targets,
        fields,
        numbering,
        made,
        &root_method(classes, &root),
        text,
    )
}

// The rows of the hierarchy are those of the classes.
fn tell_rows(classes: &Classes)
    ensures rows { AreRows classes.now.world.classes classes.now.world.rows }
    ensures known { AreKnownAbove classes.now.world }
{
    classes.tree();
}

// Makes all methods, the root last.
fn add_all(
    alloc: Global,
    targets: &mut Targets,
    numbering: &Numbering,
    made: &mut Made,
    initialized: &[u32],
) -> Result<(), NoMemory>
    requires reached { AreReached targets.old.world numbering.now }
    requires accepted { IsAccepted targets.old.world }
    requires initialized { AreInitialized targets.old.world initialized.now }
    requires none { AreMade targets.old.world numbering.now [] made.old }
    ensures { OnOk result (AreAllMade targets.old.world numbering.now initialized.now made.new) }
{
    tell_rows(targets.classes());
    let fields = FieldNumbers::new(alloc, targets.classes())?;
    add_rows(alloc, targets, &fields, numbering, made)?;
    add_root(alloc, targets, &fields, numbering, made, initialized)
}

/// The methods of these rows, in order, and behind them the root that initializes these classes.
pub fn make_all(
    alloc: Global,
    targets: &mut Targets,
    numbering: &Numbering,
    initialized: &[u32],
) -> Result<Made, NoMemory>
    requires reached { AreReached targets.old.world numbering.now }
    requires accepted { IsAccepted targets.old.world }
    requires initialized { AreInitialized targets.old.world initialized.now }
    ensures { IfOk result (AreAllMade targets.old.world numbering.now initialized.now) }
{
    let mut made = Made {
        methods: Methods::new(alloc),
        constants: Constants::new(alloc),
    };
    add_all(alloc, targets, numbering, &mut made, initialized)?;
    Ok(made)
}
