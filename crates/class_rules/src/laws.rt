ghost use Rattle.class_rules.specs.Laws.{LookUpFindsFields, LookUpGivesOneAnswer, PathFindsMethods, PathGivesOneAnswer, SelectionFindsMethods, SelectionGivesOneAnswer, SubIsReflexive, SubIsTransitive};

/// Sub-classing is reflexive and transitive.
pub fn sub_is_an_order()
    ensures reflexive { SubIsReflexive }
    ensures transitive { SubIsTransitive }
{}

/// A method found along the parents has the key and a body, and stands at or above the class. No
/// two answers are right.
pub fn methods_are_found_above()
    ensures found { PathFindsMethods }
    ensures one { PathGivesOneAnswer }
{}

/// The method that a call on an object runs has the key and a body, and stands in a class or an
/// interface that the object's class is below. No two answers are right.
pub fn methods_are_selected_above()
    ensures found { SelectionFindsMethods }
    ensures one { SelectionGivesOneAnswer }
{}

/// A field that is found has the key, and stands in a class that the first one is below. No two
/// answers are right.
pub fn fields_are_found_above()
    ensures found { LookUpFindsFields }
    ensures one { LookUpGivesOneAnswer }
{}
