//! Member keys by numbers: two keys are equal exactly where the names, the types and the static flag agree, since all names are apart.
ghost use Rattle.std.specs.Prelude.{◌≡◌, ◌<◌, ℕ, List, All, IfOk, flat_map, length};
ghost use Rattle.jim_ast.specs.declared.names.NameId.{NameId as ANameId};
ghost use Rattle.link_rules.specs.Conditions.{base_names, type_names};
ghost use Rattle.link_rules.specs.Names.{base_key, type_key};
ghost use Rattle.link_classes.specs.Classes.{texts_at};
ghost use Rattle.link_classes.specs.Keyed.{IsBaseWithin, IsFieldKeyIn, IsMethodKeyIn, IsTypeWithin, base_of, field_key_by, method_key_by, type_of};

use jim_ast::{Base, NameId, Ty};
use lists::NoMemory;
use std::alloc::Global;

/// A type without its brackets, a class by the number of its name among all names.
#[derive(Clone, Copy, Debug, PartialEq, Eq, PartialOrd, Ord)]
pub enum BaseIn {
    Void,
    Boolean,
    Byte,
    Short,
    Char,
    Int,
    Long,
    Float,
    Double,
    Unknown,
    NullType,
    Class(NameId),
}

/// A type, a class by the number of its name among all names.
#[derive(Clone, Copy, Debug, PartialEq, Eq, PartialOrd, Ord)]
pub struct TypeIn {
    pub base: BaseIn,
    pub dims: u8,
}

/// A method's name, the types of its parameters and of its result, and whether it is static, with names by their numbers among all names.
/// They are compared in this order, so mostly one number is.
#[derive(Drop, PartialEq, Eq, PartialOrd, Ord)]
pub struct MethodKeyIn {
    pub name: NameId,
    pub params: Vec<TypeIn>,
    pub result: TypeIn,
    pub is_static: bool,
}

/// A field's name and type, and whether it is static, with names by their numbers among all names. They are compared in this order.
#[derive(Clone, Copy, Debug, PartialEq, Eq, PartialOrd, Ord)]
pub struct FieldKeyIn {
    pub name: NameId,
    pub ty: TypeIn,
    pub is_static: bool,
}

// The base with its class by the number among all names. `ids` has the numbers of a program's names.
fn base_in(ids: &[NameId], base: Base) -> BaseIn
    requires { All (λ (id : ANameId). id.0 < length ids.now) (base_names base) }
    ensures same { (texts : List (List ℕ)) → base_key texts (base_of result) ≡ base_key (texts_at texts ids.now) base }
    ensures within { (texts : List (List ℕ)) → All (λ (id : ANameId). id.0 < length texts) ids.now → IsBaseWithin texts result }
{
    match base {
        Base::Void => BaseIn::Void,
        Base::Boolean => BaseIn::Boolean,
        Base::Byte => BaseIn::Byte,
        Base::Short => BaseIn::Short,
        Base::Char => BaseIn::Char,
        Base::Int => BaseIn::Int,
        Base::Long => BaseIn::Long,
        Base::Float => BaseIn::Float,
        Base::Double => BaseIn::Double,
        Base::Unknown => BaseIn::Unknown,
        Base::NullType => BaseIn::NullType,
        Base::Class(name) => BaseIn::Class(ids[name.0 as usize]),
    }
}

// The type with its class by the number among all names.
fn type_in(ids: &[NameId], ty: Ty) -> TypeIn
    requires { All (λ (id : ANameId). id.0 < length ids.now) (type_names ty) }
    ensures same { (texts : List (List ℕ)) → type_key texts (type_of result) ≡ type_key (texts_at texts ids.now) ty }
    ensures within { (texts : List (List ℕ)) → All (λ (id : ANameId). id.0 < length texts) ids.now → IsTypeWithin texts result }
{
    TypeIn {
        base: base_in(ids, ty.base),
        dims: ty.dims,
    }
}

// The key of a method, or of what a call names, by its parts.
pub fn method_key_in(
    alloc: Global,
    ids: &[NameId],
    name: NameId,
    params: &[Ty],
    result_type: Ty,
    is_static: bool,
) -> Result<MethodKeyIn, NoMemory>
    requires name { name.0 < length ids.now }
    requires params { All (λ (id : ANameId). id.0 < length ids.now) (flat_map type_names params.now) }
    requires result_type { All (λ (id : ANameId). id.0 < length ids.now) (type_names result_type) }
    ensures { IfOk result (λ k. (texts : List (List ℕ)) → All (λ (id : ANameId). id.0 < length texts) ids.now
        → IsMethodKeyIn texts (method_key_by (texts_at texts ids.now) name params.now result_type is_static) k) }
{
    let mut types = Vec::new(alloc);
    for ty in params {
        let param = type_in(ids, *ty);
        types.push(param)?;
    }
    let result = type_in(ids, result_type);
    Ok(MethodKeyIn {
        name: ids[name.0 as usize],
        params: types,
        result,
        is_static,
    })
}

// The key of a field, or of what an access names, by its parts.
pub fn field_key_in(ids: &[NameId], name: NameId, ty: Ty, is_static: bool) -> FieldKeyIn
    requires name { name.0 < length ids.now }
    requires ty { All (λ (id : ANameId). id.0 < length ids.now) (type_names ty) }
    ensures { (texts : List (List ℕ)) → All (λ (id : ANameId). id.0 < length texts) ids.now
        → IsFieldKeyIn texts (field_key_by (texts_at texts ids.now) name ty is_static) result }
{
    FieldKeyIn {
        name: ids[name.0 as usize],
        ty: type_in(ids, ty),
        is_static,
    }
}
