//! The names of two programs as one set.
ghost use Rattle.std.specs.Prelude.{◌≡◌, ◌<◌, ◌++◌, [], ◌∷◌, ℕ, List, Some, IfOk, OnOk, length, slice_get};
ghost use Rattle.lists.specs.Lists.{FirstSeen};
ghost use Rattle.link_classes.specs.Numbered.{AreNumbers, Keeps, fixed_names};

use jim_ast::{NameId, Names};
use lists::NoMemory;
use std::alloc::Global;

/// The names of an input and a prelude as one set, together with those that the root needs, and the numbers of each in it.
#[derive(Drop)]
pub struct AllNames {
    pub texts: Names,
    pub input: Vec<NameId>,
    pub prelude: Vec<NameId>,
    /// The numbers of `text`, `args`, `java.lang.String`, `<clinit>`, `main` and of the name of the class to begin with.
    pub root: Vec<NameId>,
}

// Adds a name, and puts its number behind those of others.
fn add_name(texts: &mut Names, ids: &mut Vec<NameId>, text: &str) -> Result<(), NoMemory>
    ensures numbers { OnOk result ((names : List (List ℕ)) → AreNumbers texts.old names ids.old.items → AreNumbers texts.new (names ++ text.now ∷ []) ids.new.items) }
    ensures kept { OnOk result (Keeps texts.old texts.new) }
    ensures seen { OnOk result ((seen : List (List ℕ)) → FirstSeen seen texts.old → FirstSeen (seen ++ text.now ∷ []) texts.new) }
{
    let id = texts.add(text)?;
    ids.push(id)?;
    Ok(())
}

// Adds each of a program's names, and gives their numbers.
fn add_names(alloc: Global, texts: &mut Names, names: &Names) -> Result<Vec<NameId>, NoMemory>
    ensures numbers { IfOk result (λ ids. AreNumbers texts.new names.now ids.items) }
    ensures kept { IfOk result (λ _. Keeps texts.old texts.new) }
    ensures seen { IfOk result (λ _. (seen : List (List ℕ)) → FirstSeen seen texts.old → FirstSeen (seen ++ names.now) texts.new) }
{
    let mut ids = Vec::new(alloc);
    for at in 0..names.len() {
        add_name(texts, &mut ids, names.text(NameId(at)))?;
    }
    Ok(ids)
}

// Adds the names that the root needs, the last that of the class to begin with, and gives their numbers.
fn add_fixed(alloc: Global, texts: &mut Names, entry: &str) -> Result<Vec<NameId>, NoMemory>
    ensures numbers { IfOk result (λ ids. AreNumbers texts.new (fixed_names entry.now) ids.items) }
    ensures kept { IfOk result (λ _. Keeps texts.old texts.new) }
    ensures seen { IfOk result (λ _. (seen : List (List ℕ)) → FirstSeen seen texts.old → FirstSeen (seen ++ fixed_names entry.now) texts.new) }
{
    let mut ids = Vec::new(alloc);
    add_name(texts, &mut ids, "text")?;
    add_name(texts, &mut ids, "args")?;
    add_name(texts, &mut ids, "java.lang.String")?;
    add_name(texts, &mut ids, "<clinit>")?;
    add_name(texts, &mut ids, "main")?;
    add_name(texts, &mut ids, entry)?;
    Ok(ids)
}

impl AllNames {
    /// The names of both programs, and those that the root needs, with `entry` as the name of the class to begin with. Each stands once, where it
    /// is first seen: those of the input, then others of the prelude, then others of the root. Each is hashed once.
    pub fn new(alloc: Global, input: &Names, prelude: &Names, entry: &str) -> Result<Self, NoMemory>
        ensures input { IfOk result (λ all. AreNumbers all.texts input.now all.input.items) }
        ensures prelude { IfOk result (λ all. AreNumbers all.texts prelude.now all.prelude.items) }
        ensures root { IfOk result (λ all. AreNumbers all.texts (fixed_names entry.now) all.root.items) }
        ensures texts { IfOk result (λ all. FirstSeen (input.now ++ prelude.now ++ fixed_names entry.now) all.texts) }
    {
        let mut texts = Names::new(alloc);
        let of_input = add_names(alloc, &mut texts, input)?;
        let of_prelude = add_names(alloc, &mut texts, prelude)?;
        let of_root = add_fixed(alloc, &mut texts, entry)?;
        Ok(AllNames {
            texts,
            input: of_input,
            prelude: of_prelude,
            root: of_root,
        })
    }
}
