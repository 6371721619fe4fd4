ghost use Rattle.std.specs.Prelude.{◌≡◌, ◌<◌, length, map, IfOk};
ghost use Rattle.std.specs.List.{AllByRecursion};
ghost use Rattle.ssz_schema.specs.Unfolding.{type_of, fields_over};
ghost use Rattle.ssz_value.specs.Standing.{value_of, IsValue, Stands};
ghost use Rattle.ssz_value.specs.Shapes.{AreFields};
ghost use Rattle.ssz_forms.specs.Taking.{IsFieldTaken, UpgradesValue, AreUpgraded};
ghost use Rattle.ssz_forms.specs.Upgrades.{field_value, all_taken};

use super::taking::fields_taken;
use super::upgrade_fault::UpgradeFault;
use ssz_schema::{Name, Schema, Ty, TypeId};
use ssz_value::{Items, Value, copy, default_of};
use std::alloc::{AllocError, Global};

/// The value of the type `to` that has, for each of its fields, the value's field of the same name
/// where `from` has one of an equal type, and the field's default where it has none.
/// `NotContainer` exactly where one of the two types is no container. What is taken is copied.
pub fn plain_upgrade(
    alloc: Global,
    schema: &Schema,
    from: TypeId,
    value: &Value,
    to: TypeId,
) -> Result<Value, UpgradeFault>
    requires from { from < length schema.now.trees }
    requires to { to < length schema.now.trees }
    requires value { IsValue (type_of schema.now from) value.now }
    ensures { UpgradesValue (type_of schema.now from) (value_of value.now) (type_of schema.now to)
        result }
{
    let Ty::Container(old) = schema.ty(from) else {
        return Err(UpgradeFault::NotContainer);
    };
    let Ty::Container(new) = schema.ty(to) else {
        return Err(UpgradeFault::NotContainer);
    };
    let Value::Seq(parts) = value else {
        return Err(UpgradeFault::NotContainer);
    };
    let taken = fields_taken(alloc, schema, old.as_slice(), new.as_slice())?;
    let made = upgraded_parts(
        alloc,
        schema,
        old.as_slice(),
        new.as_slice(),
        parts.as_slice(),
        taken.as_slice(),
    )?;
    Ok(Value::Seq(made))
}

// The new fields, each the old one that it takes or its default.
fn upgraded_parts(
    alloc: Global,
    schema: &Schema,
    old: &[(Name, TypeId)],
    new: &[(Name, TypeId)],
    parts: &[Value],
    taken: &[Option<usize>],
) -> Result<Items, AllocError>
    requires new { AllByRecursion (λ part. part.1 < length schema.now.trees) new.now }
    requires parts { AreFields (fields_over schema.now.trees old.now) parts.now }
    requires taken { taken.now ≡ all_taken (fields_over schema.now.trees old.now)
        (fields_over schema.now.trees new.now) }
    ensures { IfOk result (λ made. AreUpgraded (fields_over schema.now.trees old.now)
        (map value_of parts.now) (fields_over schema.now.trees new.now) made.items) }
{
    let _ = old;
    let mut made = Vec::with_capacity(alloc, new.len())?;
    for (i, field) in new.iter().enumerate() {
        let part = upgraded_part(alloc, schema, field.1, parts, taken[i])?;
        made.push(part)?;
    }
    Ok(made)
}

// One field: a copy of the part that is taken, or the default of the type.
fn upgraded_part(
    alloc: Global,
    schema: &Schema,
    id: TypeId,
    parts: &[Value],
    taken: Option<usize>,
) -> Result<Value, AllocError>
    requires known { id < length schema.now.trees }
    requires taken { IsFieldTaken parts.now (type_of schema.now id) taken }
    ensures stands { let t = type_of schema.now id in
        IfOk result (Stands t (field_value (map value_of parts.now) t taken)) }
    ensures is { IfOk result (IsValue (type_of schema.now id)) }
{
    let _legal = schema.ty(id);
    match taken {
        Some(number) => copy(alloc, &parts[number]),
        None => default_of(alloc, schema, id),
    }
}
