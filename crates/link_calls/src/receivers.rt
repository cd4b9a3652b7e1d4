//! The classes that may have objects, by their places.
ghost use Rattle.std.specs.Prelude.{◌≡◌, ◌<◌, ℕ, IfOk, None, length, slice_index};
ghost use Rattle.std.specs.List.Sorted.{IsNonDecreasingBy};
ghost use Rattle.class_order.specs.Tables.{HavePlaces};
ghost use Rattle.link_rules.specs.World.{World as AWorld};
ghost use Rattle.default_turns.specs.Turns.{defaults_at};
ghost use Rattle.object_ranges.specs.Parts.{AreInOrder};
ghost use Rattle.object_ranges.specs.Selections.{selection_of};
ghost use Rattle.link_calls.specs.Receivers.{AreChoices, AreDefaultsOf, AreLeastsOf, AreMarks, ArePartsOf, AreReceivers};

use class_tree::Layout;
use default_turns::{DefaultTurn, default_turns, defaults_at};
use link_classes::Classes;
use lists::NoMemory;
use object_ranges::{
    Choice, Minima, Part, Selection, choices_in, leasts_in, parts_of, selection_of,
};
use std::alloc::Global;

/// The classes that may have objects, at their places.
#[derive(Drop)]
pub(crate) struct Receivers<'a> {
    layout: Layout<'a>,
    objects: Minima,
}

// For each place the class that stands there, where it may have objects.
fn marks_of(alloc: Global, classes: &Classes, places: &[u32]) -> Result<Vec<Option<u32>>, NoMemory>
    requires { HavePlaces (length classes.now.world.classes) places.now }
    ensures { IfOk result (λ marks. AreMarks classes.now.world places.now marks.items) }
{
    let mut marks = vec![in alloc; None; places.len()]?;
    for class in 0..classes.class_count() {
        if classes.is_instantiable(class) {
            marks[places[class as usize] as usize] = Some(class);
        }
    }
    Ok(marks)
}

impl<'a> Receivers<'a> {
    /// Those of these classes.
    pub(crate) fn new(alloc: Global, classes: &'a Classes<'_>) -> Result<Self, NoMemory>
        ensures { IfOk result (AreReceivers classes.now.world) }
    {
        let layout = classes.tree().layout();
        let marks = marks_of(alloc, classes, layout.places)?;
        let objects = Minima::new(alloc, marks.as_slice())?;
        Ok(Receivers { layout, objects })
    }

    /// The turns of the default methods of the key.
    pub(crate) fn defaults(
        &self,
        alloc: Global,
        classes: &Classes,
        key: u32,
    ) -> Result<Vec<DefaultTurn>, NoMemory>
        requires { AreReceivers classes.now.world self.now }
        ensures { IfOk result (λ turns. AreDefaultsOf classes.now.world self.now key turns.items) }
    {
        let turns = default_turns(alloc, classes.tree(), self.layout, key)?;
        Ok(turns)
    }

    /// What is selected from a class where the look-up along its parents gives no row, by the turns of the key's default methods.
    pub(crate) fn select(&self, defaults: &[DefaultTurn], class: u32) -> Selection
        requires class { class < length self.now.layout.places.now }
        requires defaults { IsNonDecreasingBy (λ t. t.at) defaults.now }
        ensures { result ≡ selection_of None (defaults_at defaults.now (slice_index self.now.layout.places.now class)) }
    {
        let place = self.layout.places[class as usize];
        selection_of(None, defaults_at(defaults, place))
    }

    /// The places between which classes select the same for the key, by the turns of its default methods.
    pub(crate) fn parts(
        &self,
        alloc: Global,
        defaults: &[DefaultTurn],
        key: u32,
    ) -> Result<Vec<Part>, NoMemory>
        requires { (w : AWorld) × AreReceivers w self.now × AreDefaultsOf w self.now key defaults.now }
        ensures { (w : AWorld) → AreReceivers w self.now → AreDefaultsOf w self.now key defaults.now
            → IfOk result (λ parts. ArePartsOf w self.now key parts.items) }
    {
        let turns = self.layout.methods.turns(key);
        let parts = parts_of(alloc, turns, defaults, &self.objects)?;
        Ok(parts)
    }

    /// For each span of the places of those below the class the least that may have objects.
    pub(crate) fn leasts(&self, alloc: Global, class: u32) -> Result<Minima, NoMemory>
        requires { class < length self.now.layout.reach.now }
        ensures { IfOk result (λ leasts. AreLeastsOf self.now class leasts) }
    {
        let leasts = leasts_in(alloc, &self.objects, self.layout.reach.get(class as usize))?;
        Ok(leasts)
    }

    /// The classes that serve for all in a call on an object of this class.
    pub(crate) fn chosen(
        &self,
        alloc: Global,
        parts: &[Part],
        leasts: &Minima,
        class: u32,
    ) -> Result<Vec<Choice>, NoMemory>
        requires class { (w : AWorld) × AreReceivers w self.now × (class < length w.rows.classes) }
        requires parts { AreInOrder parts.now }
        requires leasts { AreLeastsOf self.now class leasts.now }
        ensures { (w : AWorld) (key : ℕ) → AreReceivers w self.now → ArePartsOf w self.now key parts.now → IfOk result (λ choices. AreChoices w class key choices.items) }
    {
        let spans = self.layout.reach.get(class as usize);
        let mut choices = choices_in(alloc, &self.objects, parts, spans, leasts)?;
        choices.sort_unstable_by_key(|choice| choice.class);
        Ok(choices)
    }
}
