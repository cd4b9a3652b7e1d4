//! The instance fields of a linked program.
ghost use Rattle.std.specs.Prelude.{◌<◌, ◌^◌, ℕ, IfNone, IfSome, length, map};
ghost use Rattle.lists.specs.Lists.{IsLeast};
ghost use Rattle.link_rules.specs.Accessed.{IsEntryNamed};
ghost use Rattle.link_program.specs.Parts.{linked_field};

use super::parts::FieldEntry;

/// The number, from 1 on, of the first entry with this class and this name.
pub fn find_field(fields: &[FieldEntry], class: u32, name: &str) -> Option<u32>
    requires { length fields.now < 2 ^ 32 }
    ensures some { IfSome result (IsLeast (IsEntryNamed (map linked_field fields.now) class name.now)) }
    ensures none { IfNone result ((field : ℕ) → IsEntryNamed (map linked_field fields.now) class name.now field → ⊥) }
{
    for (at, field) in fields.iter().enumerate() {
        if field.class == class && field.name.as_str() == name {
            return Some(at as u32 + 1);
        }
    }
    None
}
