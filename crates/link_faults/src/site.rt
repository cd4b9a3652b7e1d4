//! A statement in its place, and the rules that refuse it.
ghost use Rattle.std.specs.Prelude.{◌↔◌, ◌≡◌, IsTrue};
ghost use Rattle.link_rules.specs.declared.refusal.LinkKind.TheVariants as rule;
ghost use Rattle.link_faults.specs.AtSite.{AccessesUndeclared, CallsThread, CallsUndeclared, HasBadCount, IsFirstAmong, IsFirstRule, IsSite, Keeps, MakesThread, MakesUndeclared, Refuses, rules_of_stmts, rules_of_targets};

use super::callees::{Callee, has_native};
use super::checks::{
    assigns_void, has_wrong_count, is_bad_identity, is_dynamic, is_ret, is_unsized,
};
use super::labels::{has_missing_label, named_labels, runs_off};
use super::locals::has_missing_local;
use super::mentioned::{
    finds_no_field, is_not_concrete, is_of_threads, is_reflective, is_undeclared,
};
use super::parts::{Called, access_of, new_of};
use jim_ast::Stmt;
use link_bodies::BodyIndex;
use link_classes::{Classes, MethodIn};
use link_rules::LinkKind;

/// A statement of a method at its index, with what its call names and may run.
#[derive(Drop)]
pub(crate) struct Site<'a, 'c> {
    pub(crate) classes: &'c Classes<'c>,
    pub(crate) method: &'a MethodIn<'a>,
    pub(crate) body: &'a BodyIndex<'a>,
    pub(crate) index: u32,
    pub(crate) stmt: &'a Stmt,
    pub(crate) call: Option<Called<'a>>,
    pub(crate) callee: Option<Callee>,
}

// The rules on statements, in their order.
fn rules_of_statements() -> [LinkKind; 16]
    ensures { result ≡ rules_of_stmts }
{
    [
        LinkKind::UnknownLabel,
        LinkKind::FallsOff,
        LinkKind::UnknownLocal,
        LinkKind::BadIdentity,
        LinkKind::DynamicInvoke,
        LinkKind::Reflection,
        LinkKind::Threads,
        LinkKind::RetStatement,
        LinkKind::NestedArray,
        LinkKind::UnknownClass,
        LinkKind::UnknownField,
        LinkKind::AbstractNew,
        LinkKind::UndeclaredCallee,
        LinkKind::BadArguments,
        LinkKind::NativeCallee,
        LinkKind::AmbiguousDefault,
    ]
}

// The rules that take a call its targets.
fn rules_of_targets() -> [LinkKind; 9]
    ensures { result ≡ rules_of_targets }
{
    [
        LinkKind::UnknownLocal,
        LinkKind::DynamicInvoke,
        LinkKind::Reflection,
        LinkKind::Threads,
        LinkKind::UnknownClass,
        LinkKind::UndeclaredCallee,
        LinkKind::BadArguments,
        LinkKind::NativeCallee,
        LinkKind::AmbiguousDefault,
    ]
}

impl<'a, 'c> Site<'a, 'c> {
    // Whether a method of a class of reflection is called.
    fn calls_reflection(&self) -> bool
        requires { IsSite self.now }
        ensures { IsTrue result ↔ Refuses self.now rule.Reflection }
    {
        match &self.call {
            Some(call) => is_reflective(self.classes, self.method, call.sig.class),
            None => false,
        }
    }

    // Whether an object of a class of threads is made.
    fn makes_thread(&self) -> bool
        requires { IsSite self.now }
        ensures { IsTrue result ↔ MakesThread self.now }
    {
        match new_of(self.stmt) {
            Some(class) => is_of_threads(self.classes, self.method, class),
            None => false,
        }
    }

    // Whether a method of a class of threads is called.
    fn calls_thread(&self) -> bool
        requires { IsSite self.now }
        ensures { IsTrue result ↔ CallsThread self.now }
    {
        match &self.call {
            Some(call) => is_of_threads(self.classes, self.method, call.sig.class),
            None => false,
        }
    }

    // Whether an object of a class that isn't declared is made.
    fn makes_undeclared(&self) -> bool
        requires { IsSite self.now }
        ensures { IsTrue result ↔ MakesUndeclared self.now }
    {
        match new_of(self.stmt) {
            Some(class) => is_undeclared(self.classes, self.method, class),
            None => false,
        }
    }

    // Whether a method of a class that isn't declared is called.
    fn calls_undeclared(&self) -> bool
        requires { IsSite self.now }
        ensures { IsTrue result ↔ CallsUndeclared self.now }
    {
        match &self.call {
            Some(call) => is_undeclared(self.classes, self.method, call.sig.class),
            None => false,
        }
    }

    // Whether a field of a class that isn't declared is accessed.
    fn accesses_undeclared(&self) -> bool
        requires { IsSite self.now }
        ensures { IsTrue result ↔ AccessesUndeclared self.now }
    {
        match access_of(self.stmt) {
            Some(access) => is_undeclared(self.classes, self.method, access.sig.class),
            None => false,
        }
    }

    // Whether a field is accessed that isn't found.
    fn accesses_no_field(&self) -> bool
        requires { IsSite self.now }
        ensures { IsTrue result ↔ Refuses self.now rule.UnknownField }
    {
        match access_of(self.stmt) {
            Some(access) => finds_no_field(self.classes, self.method, access),
            None => false,
        }
    }

    // Whether an object of an interface or of an abstract class is made.
    fn makes_abstract(&self) -> bool
        requires { IsSite self.now }
        ensures { IsTrue result ↔ Refuses self.now rule.AbstractNew }
    {
        match new_of(self.stmt) {
            Some(class) => is_not_concrete(self.classes, self.method, class),
            None => false,
        }
    }

    // Whether the method that is called isn't declared.
    fn finds_no_callee(&self) -> bool
        requires { IsSite self.now }
        ensures { IsTrue result ↔ Refuses self.now rule.UndeclaredCallee }
    {
        match (&self.call, &self.callee) {
            (Some(call), Some(callee)) => callee.finds_none(self.classes, call.mode),
            _ => false,
        }
    }

    // Whether a call has more or fewer arguments than parameters.
    fn has_bad_arguments(&self) -> bool
        requires { IsSite self.now }
        ensures { IsTrue result ↔ HasBadCount self.now }
    {
        match &self.call {
            Some(call) => has_wrong_count(call),
            None => false,
        }
    }

    // Whether the call may run a native method.
    fn runs_native(&self) -> bool
        requires { IsSite self.now }
        ensures { IsTrue result ↔ Refuses self.now rule.NativeCallee }
    {
        match (&self.call, &self.callee) {
            (Some(_), Some(callee)) => has_native(self.classes, callee.rows.as_slice()),
            _ => false,
        }
    }

    // Whether several default methods are there for the call.
    fn finds_several(&self) -> bool
        requires { IsSite self.now }
        ensures { IsTrue result ↔ Refuses self.now rule.AmbiguousDefault }
    {
        match (&self.call, &self.callee) {
            (Some(_), Some(callee)) => callee.several,
            _ => false,
        }
    }

    // Whether the rule refuses the statement.
    fn is_refused_by(&self, kind: LinkKind) -> bool
        requires { IsSite self.now }
        ensures { IsTrue result ↔ Refuses self.now kind }
    {
        match kind {
            LinkKind::UnknownLabel => has_missing_label(self.body, named_labels(self.stmt)),
            LinkKind::FallsOff => runs_off(self.body, self.index, self.stmt),
            LinkKind::UnknownLocal => has_missing_local(self.body, self.stmt),
            LinkKind::BadIdentity => is_bad_identity(self.method.decl, self.stmt),
            LinkKind::DynamicInvoke => is_dynamic(self.stmt),
            LinkKind::Reflection => self.calls_reflection(),
            LinkKind::Threads => self.makes_thread() || self.calls_thread(),
            LinkKind::RetStatement => is_ret(self.stmt),
            LinkKind::NestedArray => is_unsized(self.stmt),
            LinkKind::UnknownClass => {
                self.makes_undeclared() || self.calls_undeclared() || self.accesses_undeclared()
            }
            LinkKind::UnknownField => self.accesses_no_field(),
            LinkKind::AbstractNew => self.makes_abstract(),
            LinkKind::UndeclaredCallee => self.finds_no_callee(),
            LinkKind::BadArguments => self.has_bad_arguments() || assigns_void(self.stmt),
            LinkKind::NativeCallee => self.runs_native(),
            LinkKind::AmbiguousDefault => self.finds_several(),
            LinkKind::DuplicateClass
            | LinkKind::UnknownParent
            | LinkKind::CyclicClass
            | LinkKind::NoEntry
            | LinkKind::DuplicateLocal
            | LinkKind::DuplicateLabel => false,
        }
    }

    // The first of the rules that refuses the statement.
    fn first_among(&self, rules: &[LinkKind]) -> Option<LinkKind>
        requires { IsSite self.now }
        ensures { IsFirstAmong self.now rules.now result }
    {
        for kind in rules {
            if self.is_refused_by(*kind) {
                return Some(*kind);
            }
        }
        None
    }

    // The least rule that refuses the statement.
    pub(crate) fn first_refusal(&self) -> Option<LinkKind>
        requires { IsSite self.now }
        ensures { IsFirstRule self.now result }
    {
        self.first_among(&rules_of_statements())
    }

    // Whether no rule takes the call its targets.
    pub(crate) fn keeps_targets(&self) -> bool
        requires { IsSite self.now }
        ensures { IsTrue result ↔ Keeps self.now }
    {
        self.first_among(&rules_of_targets()).is_none()
    }
}
