//! The fields of a container in byte order of their names, as a text has them.
ghost use Rattle.std.specs.Prelude.{◌≡◌, ◌<◌, length, get_or};
ghost use Rattle.ssz_schema.specs.Types.{container};
ghost use Rattle.ssz_schema.specs.Unfolding.{type_of, fields_over};
ghost use Rattle.ssz_json_text.specs.Order.{in_order, IsFieldOf, IsOrder};

use ssz_schema::{Name, Schema, TypeId};

/// The fields of a container, and their numbers in byte order of their names.
#[derive(Clone, Copy)]
pub(crate) struct Row<'a> {
    pub(crate) fields: &'a [(Name, TypeId)],
    pub(crate) order: &'a [usize],
}

/// These fields of the type, with their order.
pub(crate) fn row_of<'a>(schema: &'a Schema, id: TypeId, fields: &'a [(Name, TypeId)]) -> Row<'a>
    requires known { id < length schema.now.trees }
    requires form { type_of schema.now id ≡ container (fields_over schema.now.trees fields.now) }
    ensures fields { result.fields.now ≡ fields.now }
    ensures order { IsOrder result.fields.now result.order.now }
{
    Row {
        fields,
        order: schema.field_order(id),
    }
}

/// The name at this place of the order, and the number of its field.
pub(crate) fn member_at<'a>(row: &Row<'a>, place: usize) -> (&'a [u8], usize)
    requires within { place < length row.now.order.now }
    requires ordered { IsOrder row.now.fields.now row.now.order.now }
    ensures here { (result.0.now, result.1)
        ≡ get_or (in_order row.now.fields.now) place (result.0.now, result.1) }
    ensures field { IsFieldOf row.now.fields.now (result.0.now, result.1) }
{
    let number = row.order[place];
    (row.fields[number].0.as_bytes(), number)
}
