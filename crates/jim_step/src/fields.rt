//! What loads and stores may do.
ghost use Rattle.std.specs.Prelude.{◌≡◌, ◌≢◌, ◌+◌, ◌<◌, ◌↔◌, ◌∷◌, [], IfNone, IfSome, IsTrue, length};
ghost use Rattle.jim_step.specs.Plans.{IsCountable, Lists, ListsOver};
ghost use Rattle.link_sites.specs.Places.{HasCode};
ghost use Rattle.link_rules.specs.Classes.{object_name};
ghost use Rattle.link_rules.specs.WellLinked.{MakesArrays};
ghost use Rattle.link_sites.specs.Sites.{HasDeclared, HasLevel, IsArraySite, IsInnerSite, IsNamedClass, IsUnraised};
ghost use Rattle.link_sites.specs.declared.site.Site.{Site as ASite};
ghost use Rattle.link_sites.specs.declared.site.Site.TheVariants.{Nested};
ghost use Rattle.step_rules.specs.Effects.{gets, raises, writes};
ghost use Rattle.step_rules.specs.Offers.{FindsElement, Loads, LoadsCell, Stores, StoresCell, Where};
ghost use Rattle.step_rules.specs.Shapes.{EachOf, FitsObject, FitsSlot};
ghost use Rattle.step_rules.specs.Slots.{field_of};

use super::plan::{Effect, Plan};
use link_program::Linked;
use link_rules::Code;
use link_sites::{Place, Site};
use step_heap::{Heap, Object};
use step_rules::Value;

// Whether the class is below that of the field.
fn declares(linked: &Linked, class: u32, field: u32) -> bool
    requires class { class < length linked.now.classes }
    ensures { IsTrue result ↔ HasDeclared linked.now class field }
{
    linked.tell_form();
    match linked.field_class(field) {
        Some(declaring) => linked.tree().sub(class, declaring),
        None => false,
    }
}

// Whether the statement at a place makes an array.
fn makes_array(linked: &Linked, place: Place) -> bool
    ensures { IsTrue result ↔ HasCode linked.now place.method place.index MakesArrays }
{
    if place.method >= linked.methods() {
        return false;
    }
    match linked.code(place.method).get(place.index as usize) {
        Some(Code::NewArray { .. } | Code::NewMulti { .. }) => true,
        _ => false,
    }
}

// Whether the statement at a place makes arrays of arrays of which this is an inner level.
fn has_level(linked: &Linked, place: Place, level: u32) -> bool
    ensures { IsTrue result ↔ HasCode linked.now place.method place.index (HasLevel level) }
{
    if place.method >= linked.methods() {
        return false;
    }
    match linked.code(place.method).get(place.index as usize) {
        Some(Code::NewMulti { levels, .. }) => level > 0 && level < u32::from(*levels),
        _ => false,
    }
}

// Whether the objects of the site are arrays.
fn is_array(linked: &Linked, site: Site) -> bool
    ensures { IsTrue result ↔ IsArraySite linked.now site }
{
    match site {
        Site::New(place) => !place.raised && makes_array(linked, place),
        Site::Nested(place, level) => !place.raised && has_level(linked, place, u32::from(level)),
        _ => false,
    }
}

// The site of the arrays that those of a place and a level hold, where there is one.
fn level_within(linked: &Linked, place: Place, level: u8) -> Option<Site>
    ensures some { IfSome result (λ inner. IsUnraised linked.now place (HasLevel (level + 1)) × (inner ≡ Nested place (level + 1))) }
    ensures none { IfNone result (IsUnraised linked.now place (HasLevel (level + 1)) → ⊥) }
{
    linked.tell_form();
    let inner = level.checked_add(1)?;
    if !place.raised && has_level(linked, place, u32::from(inner)) {
        return Some(Site::Nested(place, inner));
    }
    None
}

// The site of the arrays that those of a site hold, where there is one.
fn site_within(linked: &Linked, site: Site) -> Option<Site>
    ensures some { IfSome result (IsInnerSite linked.now site) }
    ensures none { IfNone result ((inner : ASite) → IsInnerSite linked.now site inner → ⊥) }
{
    match site {
        Site::New(place) => level_within(linked, place, 0),
        Site::Nested(place, level) => level_within(linked, place, level),
        Site::Raised(..) | Site::Text(_) | Site::Class(_) => None,
    }
}

// A load from an object.
fn load_from<'a>(linked: &Linked, object: &Object, to: u32, field: u32) -> Plan<'a>
    requires class { object.now.class < length linked.now.classes }
    requires field { field ≢ 0 }
    ensures countable { IsCountable result }
    ensures row { Lists result (Where (HasDeclared linked.now object.now.class field) (gets to (field_of object.now field) ∷ [])) }
{
    if declares(linked, object.class(), field) {
        Plan::One(Effect::Gets(to, object.field(field)))
    } else {
        Plan::One(Effect::IllTyped)
    }
}

/// A load from the object that the base holds.
pub fn load<'a>(linked: &Linked, heap: &Heap, to: u32, field: u32, base: Option<Value>) -> Plan<'a>
    requires objects { EachOf (FitsObject linked.now (length heap.now)) heap.now }
    requires field { field ≢ 0 }
    requires base { FitsSlot (length heap.now) base }
    ensures countable { IsCountable result }
    ensures row { ListsOver heap.now result (λ at. Loads linked.now at to field base) }
{
    match base {
        Some(Value::Object(number)) => load_from(linked, heap.object(number), to, field),
        Some(Value::Null) => Plan::One(Effect::Raises(0)),
        _ => Plan::One(Effect::IllTyped),
    }
}

// A store into an object.
fn store_into<'a>(
    linked: &Linked,
    object: &Object,
    number: u32,
    field: u32,
    stored: Value,
) -> Plan<'a>
    requires class { object.now.class < length linked.now.classes }
    ensures countable { IsCountable result }
    ensures row { Lists result (Where (HasDeclared linked.now object.now.class field) (writes number field stored ∷ [])) }
{
    if declares(linked, object.class(), field) {
        Plan::One(Effect::Writes(number, field, stored))
    } else {
        Plan::One(Effect::IllTyped)
    }
}

/// A store into the object that the base holds.
pub fn store<'a>(
    linked: &Linked,
    heap: &Heap,
    field: u32,
    base: Option<Value>,
    source: Option<Value>,
) -> Plan<'a>
    requires objects { EachOf (FitsObject linked.now (length heap.now)) heap.now }
    requires base { FitsSlot (length heap.now) base }
    ensures countable { IsCountable result }
    ensures row { ListsOver heap.now result (λ at. Stores linked.now at field base source) }
{
    let Some(stored) = source else {
        return Plan::One(Effect::IllTyped);
    };
    match base {
        Some(Value::Object(number)) => {
            store_into(linked, heap.object(number), number, field, stored)
        }
        Some(Value::Null) => Plan::One(Effect::Raises(0)),
        _ => Plan::One(Effect::IllTyped),
    }
}

// A load from an array. `class` is the class of arrays.
fn load_element<'a>(
    linked: &Linked,
    object: &'a Object,
    number: u32,
    class: u32,
    to: u32,
) -> Plan<'a>
    requires class { IsNamedClass linked.now object_name class }
    ensures countable { IsCountable result }
    ensures row { Lists result (FindsElement linked.now to number object.now) }
{
    let site = object.site();
    if !is_array(linked, site) {
        return Plan::One(Effect::IllTyped);
    }
    match site_within(linked, site) {
        Some(inner) => {
            let nests = Effect::Nests(to, number, inner, class);
            Plan::Cells(to, object.cells(), Some(nests))
        }
        None => Plan::Cells(to, object.cells(), None),
    }
}

/// A load from the array that the base holds. `class` is the class of arrays.
pub fn load_cell<'a>(
    linked: &Linked,
    heap: &'a Heap,
    class: u32,
    to: u32,
    base: Option<Value>,
) -> Plan<'a>
    requires class { IsNamedClass linked.now object_name class }
    requires base { FitsSlot (length heap.now) base }
    ensures countable { IsCountable result }
    ensures row { ListsOver heap.now result (λ at. LoadsCell linked.now at to base) }
{
    let Some(value) = base else {
        return Plan::One(Effect::IllTyped);
    };
    match value {
        Value::Object(number) => load_element(linked, heap.object(number), number, class, to),
        Value::Null => Plan::One(Effect::Raises(0)),
        Value::Number => Plan::One(Effect::IllTyped),
    }
}

// A store into an array.
fn store_element<'a>(linked: &Linked, object: &Object, number: u32, stored: Value) -> Plan<'a>
    ensures countable { IsCountable result }
    ensures row { Lists result (Where (IsArraySite linked.now object.now.site) (writes number 0 stored ∷ raises 1 ∷ raises 2 ∷ [])) }
{
    if is_array(linked, object.site()) {
        let write = Effect::Writes(number, 0, stored);
        Plan::Three(write, Effect::Raises(1), Effect::Raises(2))
    } else {
        Plan::One(Effect::IllTyped)
    }
}

/// A store into the array that the base holds.
pub fn store_cell<'a>(
    linked: &Linked,
    heap: &Heap,
    base: Option<Value>,
    source: Option<Value>,
) -> Plan<'a>
    requires base { FitsSlot (length heap.now) base }
    ensures countable { IsCountable result }
    ensures row { ListsOver heap.now result (λ at. StoresCell linked.now at base source) }
{
    let Some(stored) = source else {
        return Plan::One(Effect::IllTyped);
    };
    let Some(value) = base else {
        return Plan::One(Effect::IllTyped);
    };
    match value {
        Value::Object(number) => store_element(linked, heap.object(number), number, stored),
        Value::Null => Plan::One(Effect::Raises(0)),
        Value::Number => Plan::One(Effect::IllTyped),
    }
}
