//! The locals and the labels of a body by number.
ghost use Rattle.std.specs.Prelude.{◌≡◌, ◌↔◌, ℕ, Some, IfNone, IfOk, IfSome, IsTrue, slice_get};
ghost use Rattle.lists.specs.Lists.{IsLeast, Has, IsRepeated};
ghost use Rattle.link_rules.specs.Bodies.{IsLabel};
ghost use Rattle.link_rules.specs.Classes.{DeclaredMethod};
ghost use Rattle.link_rules.specs.Faults.{RepeatsLabel};
ghost use Rattle.link_rules.specs.Statements.{HasBody};

use super::places::FirstPlaces;
use super::repeats::{least_repeated, repeats_any};
use jim_ast::{Body, NameId};
use lists::NoMemory;
use std::alloc::Global;
use std::marker::Model;

/// A body, with its locals and its labels by name. Contracts see the body. Its look-ups take no memory.
#[derive(Drop)]
pub struct BodyIndex<'a> {
    body: &'a Body,
    locals: FirstPlaces,
    labels: FirstPlaces,
}

impl<'a> Model for BodyIndex<'a> {
    ghost use Rattle.jim_ast.specs.declared.syntax.Body.{Body as ABody};
    ghost use Rattle.link_bodies.specs.Places.{KnowsPlaces, label_names};

    ghost Value = { ABody };

    ghost view = { λ x. x.body.now };

    ghost invariant = { λ x. KnowsPlaces x.body.now.locals x.locals × KnowsPlaces (label_names x.body.now.labels) x.labels };
}

impl<'a> BodyIndex<'a> {
    /// The index of a body. There is room for 4,294,967,295 locals and as many labels.
    pub fn new(alloc: Global, body: &'a Body) -> Result<Self, NoMemory>
        ensures { IfOk result (λ x. x ≡ body.now) }
    {
        let locals = FirstPlaces::of_locals(alloc, body.locals.as_slice())?;
        let labels = FirstPlaces::of_labels(alloc, body.labels.as_slice())?;
        Ok(BodyIndex {
            body,
            locals,
            labels,
        })
    }

    /// The body.
    pub fn body(&self) -> &'a Body
        ensures { result.now ≡ self.now }
    {
        self.body
    }

    /// The number of the first local with this name.
    pub fn local(&self, name: NameId) -> Option<u32>
        ensures some { IfSome result (IsLeast (λ n. slice_get self.now.locals n ≡ Some name)) }
        ensures none { IfNone result (Has self.now.locals name → ⊥) }
    {
        self.locals.find(name)
    }

    /// The index of the statement that the first label with this name stands before.
    pub fn label(&self, name: NameId) -> Option<u32>
        ensures { (n : ℕ) → (result ≡ Some n) ↔ IsLabel self.now.labels name n }
    {
        let place = self.labels.find(name)?;
        Some(self.body.labels.as_slice()[place as usize].index)
    }

    /// Whether two locals have one name.
    pub fn repeats_local(&self) -> bool
        ensures { IsTrue result ↔ IsRepeated self.now.locals }
    {
        repeats_any(&self.locals, self.body.locals.as_slice())
    }

    /// The least index of a label that has the name of an earlier one.
    pub fn repeated_label(&self) -> Option<u32>
        ensures some { IfSome result (λ i. (m : DeclaredMethod) → HasBody m self.now → IsLeast (RepeatsLabel m) i) }
        ensures none { IfNone result ((m : DeclaredMethod) (i : ℕ) → HasBody m self.now → RepeatsLabel m i → ⊥) }
    {
        least_repeated(&self.labels, self.body.labels.as_slice())
    }
}
