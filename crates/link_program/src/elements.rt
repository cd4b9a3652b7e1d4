//! The arrays that a method makes.
ghost use Rattle.std.specs.Prelude.{◌≡◌, ◌<◌, ℕ, AllPairs, List, false, nat_lt, true};
ghost use Rattle.std.specs.List.Sorted.{IsPartitionPoint};
ghost use Rattle.link_program.specs.Elements.{elements_in};
ghost use Rattle.link_rules.specs.Accessed.{HasElementText};

use jim_ast::Name;

/// A statement that makes arrays, by its index, and the text of the type of what the innermost ones hold.
#[derive(Drop)]
pub struct ElementText {
    pub index: u32,
    pub text: Name,
}

// How many of the arrays stand before an index.
fn count_before(elements: &[ElementText], index: u32) -> usize
    requires { AllPairs (λ a b. a.index < b.index) elements.now }
    ensures { IsPartitionPoint (λ e. nat_lt e.index index ≡ true) (λ e. nat_lt e.index index ≡ false) elements.now result }
{
    elements.partition_point(
        |element: &ElementText| -> bool
            ensures { result ≡ nat_lt element.now.index index }
        { element.index < index },
    )
}

/// The text of the type of the elements of the array that is made at an index. The arrays stand in the order of their indexes.
pub fn element_text(elements: &[ElementText], index: u32) -> &str
    requires ordered { AllPairs (λ a b. a.index < b.index) elements.now }
    requires there { (text : List ℕ) × HasElementText (elements_in elements.now) index text }
    ensures { HasElementText (elements_in elements.now) index result.now }
{
    let at = count_before(elements, index);
    elements[at].text.as_str()
}
