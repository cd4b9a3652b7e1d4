//! The rules on labels.
ghost use Rattle.std.specs.Prelude.{◌≡◌, ◌^◌, ◌<◌, ◌↔◌, IsTrue, length};
ghost use Rattle.link_rules.specs.Bodies.{MayFollow};
ghost use Rattle.link_rules.specs.Statements.{GoesOn, labels_of};
ghost use Rattle.link_faults.specs.Sites.{HasLabelAt, HasMissingLabel};

use jim_ast::{NameId, Stmt};
use link_bodies::BodyIndex;
use std::slice::from_ref;

// The labels that a statement names.
pub(crate) fn named_labels(stmt: &Stmt) -> &[NameId]
    ensures { result.now ≡ labels_of stmt.now }
{
    match stmt {
        Stmt::If(label) => from_ref(label),
        Stmt::Goto(label) => from_ref(label),
        Stmt::Switch(labels) => labels.as_slice(),
        _ => &[],
    }
}

// Whether the statement behind may follow.
fn goes_on(stmt: &Stmt) -> bool
    ensures { IsTrue result ↔ GoesOn stmt.now }
{
    match stmt {
        Stmt::Goto(_) => false,
        Stmt::Switch(_) => false,
        Stmt::Return(_) => false,
        Stmt::Throw(_) => false,
        _ => true,
    }
}

// Whether one of the labels isn't there.
pub(crate) fn has_missing_label(body: &BodyIndex, labels: &[NameId]) -> bool
    ensures { IsTrue result ↔ HasMissingLabel body.now.labels labels.now }
{
    for label in labels {
        if body.label(*label).is_none() {
            return true;
        }
    }
    false
}

// Whether one of the labels stands before the statement with this index.
fn has_label_at(body: &BodyIndex, labels: &[NameId], index: u32) -> bool
    ensures { IsTrue result ↔ HasLabelAt body.now.labels labels.now index }
{
    for label in labels {
        if body.label(*label) == Some(index) {
            return true;
        }
    }
    false
}

// Whether the end of the body may follow the statement.
pub(crate) fn runs_off(body: &BodyIndex, index: u32, stmt: &Stmt) -> bool
    requires { length body.now.stmts < 2 ^ 32 }
    ensures { IsTrue result ↔ MayFollow body.now stmt.now index (length body.now.stmts) }
{
    let end = body.body().stmts.as_slice().len();
    (goes_on(stmt) && index as usize + 1 == end)
        || has_label_at(body, named_labels(stmt), end as u32)
}
