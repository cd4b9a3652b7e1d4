//! Meets with the call strings that they rest on.
ghost use Rattle.std.specs.Prelude.{◌≡◌, IfOk};
ghost use Rattle.spds_solve.specs.Mets.{call_at, numbers, string_of};

use call_side::Calls;
use jim_ast::List;
use link_sites::Place;
use lists::NoMemory;
use spds_tables::Met as Numbers;
use std::alloc::Global;

/// A meet: an object of one site may be stored into one of another by the store. Sites and stores are named by their numbers in the demand.
#[derive(Drop)]
pub struct Met {
    pub object: u32,
    pub base: u32,
    pub store: u32,
    /// A call string under which both may be there, the innermost call first.
    pub string: List<Place>,
}

impl Met {
    /// The numbers alone.
    pub fn numbers(&self) -> Numbers
        ensures { result ≡ numbers self.now }
    {
        Numbers {
            object: self.object,
            base: self.base,
            store: self.store,
        }
    }
}

/// The call that the mark stands for. A mark of no call gives the first place.
fn place_at(calls: &Calls, mark: u32) -> Place
    ensures { result ≡ call_at calls.now mark }
{
    calls.call_of(mark).unwrap_or(Place {
        method: 0,
        index: 0,
        raised: false,
    })
}

/// The call string that has these marks.
pub fn call_string(alloc: Global, calls: &Calls, word: &[u32]) -> Result<List<Place>, NoMemory>
    ensures { IfOk result (λ string. string ≡ string_of calls.now word.now) }
{
    let mut string = Vec::new(alloc);
    for mark in word {
        string.push(place_at(calls, *mark))?;
    }
    Ok(List::from_vec(string))
}
