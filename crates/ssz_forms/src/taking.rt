ghost use Rattle.std.specs.Prelude.{◌≡◌, ◌<◌, length, IfOk};
ghost use Rattle.std.specs.List.{AllByRecursion};
ghost use Rattle.ssz_schema.specs.Unfolding.{type_tree_at, fields_over};
ghost use Rattle.ssz_forms.specs.Answers.{AreRight};
ghost use Rattle.ssz_forms.specs.Taking.{AreFieldNumbers, FindsTaken};
ghost use Rattle.ssz_forms.specs.Upgrades.{field_taken, all_taken};

use super::forms::Forms;
use ssz_schema::{Name, Schema, TypeId};
use std::alloc::{AllocError, Global};
use std::collections::BTreeMap;

/// For each of the new fields the number of the old one that it takes: the one of its name, where
/// the types are equal. Each field is looked up in a map of the old names. It fails for want of
/// memory alone.
pub fn fields_taken(
    alloc: Global,
    schema: &Schema,
    old: &[(Name, TypeId)],
    new: &[(Name, TypeId)],
) -> Result<Vec<Option<usize>>, AllocError>
    requires old { AllByRecursion (λ part. part.1 < length schema.now.trees) old.now }
    requires new { AllByRecursion (λ part. part.1 < length schema.now.trees) new.now }
    ensures { IfOk result (λ taken. taken.items ≡ all_taken (fields_over schema.now.trees old.now)
        (fields_over schema.now.trees new.now)) }
{
    let numbers = field_numbers(alloc, old)?;
    let mut forms = Forms::new(alloc);
    let mut taken = Vec::with_capacity(alloc, new.len())?;
    for field in new {
        let number = field_taken(schema, &mut forms, &numbers, old, field)?;
        taken.push(number)?;
    }
    Ok(taken)
}

// The number of the old field that the field takes.
fn field_taken(
    schema: &Schema,
    forms: &mut Forms,
    numbers: &BTreeMap<Vec<u8>, usize>,
    old: &[(Name, TypeId)],
    field: &(Name, TypeId),
) -> Result<Option<usize>, AllocError>
    requires numbers { AreFieldNumbers old.now numbers.now }
    requires old { AllByRecursion (λ part. part.1 < length schema.now.trees) old.now }
    requires field { field.now.1 < length schema.now.trees }
    requires right { AreRight schema.now forms.old }
    ensures { FindsTaken schema.now
        (field_taken (fields_over schema.now.trees old.now) field.now.0
        (type_tree_at schema.now.trees field.now.1)) result forms.new }
{
    match numbers.get(field.0.as_bytes()).copied() {
        Some(number) => {
            let same = forms.same(schema, old[number].1, field.1)?;
            if same { Ok(Some(number)) } else { Ok(None) }
        }
        None => Ok(None),
    }
}

// The number of each field by its name; of two fields of one name the first.
fn field_numbers(
    alloc: Global,
    fields: &[(Name, TypeId)],
) -> Result<BTreeMap<Vec<u8>, usize>, AllocError>
    ensures { IfOk result (AreFieldNumbers fields.now) }
{
    let mut numbers = BTreeMap::new(alloc);
    let mut i = fields.len();
    while i > 0 {
        i -= 1;
        let name = fields[i].0.as_bytes().to_vec(alloc)?;
        numbers.insert(name, i)?;
    }
    Ok(numbers)
}
