//! What a call names and may run, and the rules on it.
ghost use Rattle.std.specs.Prelude.{◌≡◌, ◌<◌, ◌↔◌, [], ℕ, None, All, IfOk, IsTrue, length};
ghost use Rattle.class_rules.specs.Lookups.{OnPath};
ghost use Rattle.lists.specs.Lists.{Has};
ghost use Rattle.jim_ast.specs.declared.syntax.Mode.TheVariants.{Special};
ghost use Rattle.link_rules.specs.Classes.{methods_of};
ghost use Rattle.link_rules.specs.Conditions.{AreWithin, method_sig_names};
ghost use Rattle.link_rules.specs.Faults.{FindsNone, FindsSeveral};
ghost use Rattle.link_rules.specs.Targets.{MayRun};
ghost use Rattle.link_classes.specs.Classes.{IsKnown};
ghost use Rattle.link_classes.specs.Seen.{seen_method};
ghost use Rattle.link_faults.specs.Callees.{IsCalleeOf};
ghost use Rattle.link_faults.specs.Parts.{seen_call};
ghost use Rattle.link_faults.specs.Sites.{IsNativeRow};

use super::mentioned::class_number;
use super::parts::Called;
use jim_ast::Mode;
use link_calls::Targets;
use link_classes::{Classes, MethodIn};
use lists::NoMemory;
use std::alloc::Global;

/// The class and the key that a call names, the methods that it may run, and whether several default methods are there for it.
#[derive(Drop)]
pub(crate) struct Callee {
    pub(crate) class: u32,
    pub(crate) key: u32,
    pub(crate) rows: Vec<u32>,
    pub(crate) several: bool,
}

// What a call names and may run, where its class is declared.
pub(crate) fn callee_of(
    alloc: Global,
    targets: &mut Targets,
    method: &MethodIn,
    call: &Called,
) -> Result<Option<Callee>, NoMemory>
    requires known { IsKnown targets.old.texts method.now }
    requires within { AreWithin (seen_method method.now).names (method_sig_names (seen_call call.now).sig) }
    ensures same { targets.new ≡ targets.old }
    ensures callee { IfOk result (IsCalleeOf targets.old.world (seen_method method.now).names (seen_call call.now)) }
{
    let classes = targets.classes();
    let Some(class) = class_number(classes, method, call.sig.class) else {
        return Ok(None);
    };
    let key = classes.called(alloc, method.ids, call.mode, call.sig)?;
    let found = targets.found(call.mode, class, key)?;
    Ok(Some(Callee {
        class,
        key,
        rows: found.rows,
        several: found.several,
    }))
}

// Whether look-up along the parents finds no method with a body.
fn is_off_path(classes: &Classes, class: u32, key: u32) -> bool
    requires { class < length classes.now.world.classes }
    ensures { IsTrue result ↔ OnPath classes.now.world.rows class key None }
{
    classes.tree().on_path(class, key).is_none()
}

impl Callee {
    // Whether nothing was found for the call: also not several default methods.
    fn is_nothing(&self) -> bool
        ensures { IsTrue result ↔ ((self.now.rows.items ≡ []) × (IsTrue self.now.several → ⊥)) }
    {
        self.rows.is_empty() && !self.several
    }

    // Whether no method is there to be selected from the class of a special call: also not several of which none is.
    fn selects_none(&self, classes: &Classes) -> bool
        requires class { self.now.class < length classes.now.world.classes }
        requires rows { (row : ℕ) → Has self.now.rows.items row ↔ MayRun classes.now.world Special self.now.class self.now.key row }
        requires several { IsTrue self.now.several ↔ FindsSeveral classes.now.world Special self.now.class self.now.key }
        ensures { IsTrue result ↔ FindsNone classes.now.world Special self.now.class self.now.key }
    {
        is_off_path(classes, self.class, self.key) && self.is_nothing()
    }

    /// Whether a call of this mode, of which this is the callee, finds no method.
    pub(crate) fn finds_none(&self, classes: &Classes, mode: Mode) -> bool
        requires class { self.now.class < length classes.now.world.classes }
        requires rows { (row : ℕ) → Has self.now.rows.items row ↔ MayRun classes.now.world mode self.now.class self.now.key row }
        requires several { IsTrue self.now.several ↔ FindsSeveral classes.now.world mode self.now.class self.now.key }
        ensures { IsTrue result ↔ FindsNone classes.now.world mode self.now.class self.now.key }
    {
        match mode {
            Mode::Special => self.selects_none(classes),
            Mode::Static => is_off_path(classes, self.class, self.key),
            Mode::Virtual => !classes.tree().declared(self.class, self.key),
            Mode::Interface => !classes.tree().declared(self.class, self.key),
        }
    }
}

// Whether the method with this number is native.
fn is_native(classes: &Classes, row: u32) -> bool
    requires { row < length (methods_of classes.now.world.classes) }
    ensures { IsTrue result ↔ IsNativeRow classes.now.world row }
{
    let method = classes.method(row);
    method.decl.body.is_none() && method.decl.is_native
}

// Whether one of the methods is native.
pub(crate) fn has_native(classes: &Classes, rows: &[u32]) -> bool
    requires { All (λ row. row < length (methods_of classes.now.world.classes)) rows.now }
    ensures { IsTrue result ↔ ((row : ℕ) × Has rows.now row × IsNativeRow classes.now.world row) }
{
    for row in rows {
        if is_native(classes, *row) {
            return true;
        }
    }
    false
}
