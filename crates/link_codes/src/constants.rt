//! The constants of a program.
ghost use Rattle.std.specs.Prelude.{◌≡◌, [], IfOk, OnOk, Some, slice_get};
ghost use Rattle.lists.specs.Lists.{Adds};

use jim_ast::Names;
use lists::NoMemory;
use std::alloc::Global;

/// The constants of a program, each kind numbered from 0 in the order of first use.
#[derive(Drop)]
pub struct Constants {
    pub texts: Names,
    pub class_texts: Names,
}

impl Constants {
    /// No constant yet. Takes no memory.
    pub fn new(alloc: Global) -> Self
        ensures texts { result.texts ≡ [] }
        ensures class_texts { result.class_texts ≡ [] }
    {
        Constants {
            texts: Names::new(alloc),
            class_texts: Names::new(alloc),
        }
    }

    // The number of a text. A new one is put last.
    pub(crate) fn text(&mut self, text: &str) -> Result<u32, NoMemory>
        ensures number { IfOk result (λ n. slice_get self.new.texts n ≡ Some text.now) }
        ensures added { OnOk result (Adds self.old.texts text.now self.new.texts) }
        ensures same { self.new.class_texts ≡ self.old.class_texts }
    {
        Ok(self.texts.add(text)?.0)
    }

    // The number of a class constant. A new one is put last.
    pub(crate) fn class_text(&mut self, text: &str) -> Result<u32, NoMemory>
        ensures number { IfOk result (λ n. slice_get self.new.class_texts n ≡ Some text.now) }
        ensures added { OnOk result (Adds self.old.class_texts text.now self.new.class_texts) }
        ensures same { self.new.texts ≡ self.old.texts }
    {
        Ok(self.class_texts.add(text)?.0)
    }
}
