//! The arrays that a method makes.
ghost use Rattle.std.specs.Prelude.{◌≡◌, [], ℕ, List as Items, All, IfNone, IfOk, IfSome};
ghost use Rattle.link_rules.specs.Conditions.{AreWithin, type_names};
ghost use Rattle.link_rules.specs.Linked.{element_at, elements_of};
ghost use Rattle.link_rules.specs.Names.{type_text};
ghost use Rattle.link_codes.specs.Contexts.{context_of};
ghost use Rattle.link_codes.specs.Elements.{NamesType};
ghost use Rattle.link_codes.specs.Needs.{HasParts};
ghost use Rattle.link_program.specs.Elements.{elements_in};

use super::scope::MethodScope;
use super::types::push_type;
use jim_ast::{Expr, Name, Stmt, Ty};
use link_program::ElementText;
use lists::NoMemory;
use std::alloc::{AllocError, Global};

// The type of what the innermost arrays hold that a statement makes, if it makes any.
fn element_type(stmt: &Stmt) -> Option<Ty>
    ensures some { IfSome result (NamesType stmt.now) }
    ensures none { IfNone result ((names : Items (Items ℕ)) (index : ℕ) → element_at names index stmt.now ≡ []) }
{
    match stmt {
        Stmt::Assign(_, Expr::NewArray(ty) | Expr::NewMulti(ty, _)) => Some(*ty),
        _ => None,
    }
}

// The array that the statement with this index makes. There is room for 4,294,967,295 statements.
fn element(
    alloc: Global,
    scope: &MethodScope,
    index: usize,
    ty: Ty,
) -> Result<ElementText, NoMemory>
    requires { AreWithin (context_of scope.now).names (type_names ty) }
    ensures index { IfOk result (λ e. e.index ≡ index) }
    ensures text { IfOk result (λ e. e.text ≡ type_text (context_of scope.now).names ty) }
{
    if index >= u32::MAX as usize {
        return Err(AllocError);
    }
    let mut text = String::new(alloc);
    push_type(&mut text, scope.classes.names(), scope.ids, ty)?;
    Ok(ElementText {
        index: index as u32,
        text: Name::from_string(text),
    })
}

// The arrays that statements make, in order.
pub(crate) fn elements(
    alloc: Global,
    scope: &MethodScope,
    stmts: &[Stmt],
) -> Result<Vec<ElementText>, NoMemory>
    requires { All (HasParts (context_of scope.now)) stmts.now }
    ensures { IfOk result (λ elements. elements_in elements.items ≡ elements_of (context_of scope.now).names stmts.now) }
{
    let mut elements = Vec::new(alloc);
    for (index, stmt) in stmts.iter().enumerate() {
        if let Some(ty) = element_type(stmt) {
            elements.push(element(alloc, scope, index, ty)?)?;
        }
    }
    Ok(elements)
}
