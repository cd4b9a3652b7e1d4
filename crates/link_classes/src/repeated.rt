//! The first rule that refuses a program: a class with the name of an earlier one.
ghost use Rattle.std.specs.Prelude.{◌≡◌, ◌<◌, ℕ, IfNone, IfSome, length};
ghost use Rattle.lists.specs.Lists.{IsLeast};
ghost use Rattle.link_rules.specs.Refusals.{HasEarlierName};
ghost use Rattle.link_rules.specs.World.{World};
ghost use Rattle.link_classes.specs.Seen.{IsOrder, seen_classes};

use super::order::ClassOrder;

/// The number of the first class that has the name of an earlier one.
pub fn first_repeated(order: &ClassOrder) -> Option<u32>
    requires { IsOrder order.now }
    ensures below { IfSome result (λ n. n < length order.now.classes.items) }
    ensures some { IfSome result (λ n. (w : World) → w.classes ≡ seen_classes order.now.classes.items → IsLeast (HasEarlierName w) n) }
    ensures none { IfNone result ((w : World) (n : ℕ) → w.classes ≡ seen_classes order.now.classes.items → HasEarlierName w n → ⊥) }
{
    let classes = order.classes.as_slice();
    for (number, class) in classes.iter().enumerate() {
        if (order.first_of_name(class) as usize) < number {
            return Some(number as u32);
        }
    }
    None
}
