//! Methods that a class itself declares, and the numbers of the keys that linking looks for.
ghost use Rattle.std.specs.Prelude.{◌≡◌, ◌<◌, ◌↔◌, ℕ, List, Some, IfOk, length};
ghost use Rattle.link_rules.specs.Classes.{DeclaredField, DeclaredMethod, methods_of};
ghost use Rattle.link_rules.specs.Keys.{IsFieldKeyNumber, IsMethodKeyNumber, MethodKey};
ghost use Rattle.link_rules.specs.Reach.{DeclaresBody};
ghost use Rattle.link_rules.specs.Root.{initializer_key, main_key};
ghost use Rattle.link_rules.specs.World.{World};
ghost use Rattle.link_classes.specs.Keyed.{IsFieldKeyWithin, IsMethodKeyWithin, field_key_of, method_key_of};
ghost use Rattle.link_classes.specs.Numbered.{AreNumbers, fixed_names};
ghost use Rattle.link_classes.specs.Seen.{seen_methods};
ghost use Rattle.link_classes.specs.Tables.{KnowsFields, KnowsMethods};

use super::keys::{FieldKeyIn, MethodKeyIn, method_key_in};
use super::seen::MethodIn;
use super::tables::{FieldKeys, MethodKeys};
use class_tree::Tree;
use jim_ast::{Base, NameId, Ty};
use lists::NoMemory;
use std::alloc::Global;

const VOID: Ty = Ty {
    base: Base::Void,
    dims: 0,
};

/// The number of a method's key, or how many methods there are.
pub fn method_number(keys: &MethodKeys, key: &MethodKeyIn, count: u32) -> u32
    ensures { (texts : List (List ℕ)) (methods : List DeclaredMethod) → KnowsMethods texts methods keys.now → IsMethodKeyWithin texts key.now → count ≡ length methods
        → IsMethodKeyNumber methods (method_key_of texts key.now) result }
{
    keys.find(key).unwrap_or(count)
}

/// The number of a field's key, or how many fields there are.
pub fn field_number(keys: &FieldKeys, key: &FieldKeyIn, count: u32) -> u32
    ensures { (texts : List (List ℕ)) (fields : List DeclaredField) → KnowsFields texts fields keys.now → IsFieldKeyWithin texts key.now → count ≡ length fields
        → IsFieldKeyNumber fields (field_key_of texts key.now) result }
{
    keys.find(key).unwrap_or(count)
}

/// The number of the key of `static void main(java.lang.String[])`. `root` has the numbers of the names that the root needs.
pub fn main_number(
    alloc: Global,
    root: &[NameId],
    keys: &MethodKeys,
    count: u32,
) -> Result<u32, NoMemory>
    requires { length root.now ≡ 6 }
    ensures { IfOk result (λ n. (texts : List (List ℕ)) (entry : List ℕ) (methods : List DeclaredMethod) → AreNumbers texts (fixed_names entry) root.now
        → KnowsMethods texts methods keys.now → count ≡ length methods → IsMethodKeyNumber methods main_key n) }
{
    let strings = Ty {
        base: Base::Class(NameId(2)),
        dims: 1,
    };
    let key = method_key_in(alloc, root, NameId(4), &[strings], VOID, true)?;
    Ok(method_number(keys, &key, count))
}

/// The number of the key of `static void <clinit>()`, likewise.
pub fn initializer_number(
    alloc: Global,
    root: &[NameId],
    keys: &MethodKeys,
    count: u32,
) -> Result<u32, NoMemory>
    requires { length root.now ≡ 6 }
    ensures { IfOk result (λ n. (texts : List (List ℕ)) (entry : List ℕ) (methods : List DeclaredMethod) → AreNumbers texts (fixed_names entry) root.now
        → KnowsMethods texts methods keys.now → count ≡ length methods → IsMethodKeyNumber methods initializer_key n) }
{
    let key = method_key_in(alloc, root, NameId(3), &[], VOID, true)?;
    Ok(method_number(keys, &key, count))
}

/// The method with a body that the class itself declares with a key, by the number of the key.
pub fn declared_body(tree: &Tree, methods: &[MethodIn], class: u32, number: u32) -> Option<u32>
    requires { length tree.now.methods ≡ length methods.now }
    ensures { (w : World) (key : MethodKey) → w.rows ≡ tree.now → methods_of w.classes ≡ seen_methods methods.now → IsMethodKeyNumber (methods_of w.classes) key number
        → (row : ℕ) → (result ≡ Some row) ↔ DeclaresBody w class key row }
{
    match tree.own_body(class, number) {
        Some(row) => {
            let decl = methods[row as usize].decl;
            if decl.body.is_some() { Some(row) } else { None }
        }
        None => None,
    }
}
