//! The fields that a word names.
ghost use Rattle.std.specs.Prelude.{IfNone, IfOk, IfSome, List};
ghost use Rattle.boom_words.specs.Fields.{AreFields, FieldName, field_name};
ghost use Rattle.path_query.specs.Fields.{ArePathFields, IsFieldAt, IsNoField, LacksField};

use boom_words::{FieldWord, read_fields};
use link_program::Linked;
use lists::NoMemory;
use std::alloc::Global;

// The number of a field, if it is there.
fn field_of(linked: &Linked, field: &FieldWord<'_>) -> Option<u32>
    ensures some { IfSome result (IsFieldAt linked.now (field_name field.now)) }
    ensures none { IfNone result (IsNoField linked.now (field_name field.now)) }
{
    match field {
        FieldWord::Cells => Some(0),
        FieldWord::Named { class, name } => {
            let class = linked.class_number(class)?;
            linked.find_field(class, name)
        }
    }
}

/// The numbers of the fields of the path that a word spells, 1 to 4 parts with a comma between each two: of `[]`, the elements of arrays, 0, and of
/// `CLASS:NAME` that of the first instance field which the class itself declares under the name, whatever its type. `None` where one of them isn't there:
/// its class isn't declared, or declares no such field itself.
pub fn fields_named(
    alloc: Global,
    linked: &Linked,
    word: &str,
) -> Result<Option<Vec<u32>>, NoMemory>
    requires { (names : List FieldName) × AreFields word.now names }
    ensures some { IfOk result (λ found. IfSome found (λ fields. ArePathFields linked.now word.now fields.items)) }
    ensures none { IfOk result (λ found. IfNone found (LacksField linked.now word.now)) }
{
    let Some(words) = read_fields(alloc, word)? else {
        unreachable!();
    };
    let mut fields = Vec::new(alloc);
    for word in words.as_slice() {
        let Some(field) = field_of(linked, word) else {
            return Ok(None);
        };
        fields.push(field)?;
    }
    Ok(Some(fields))
}
