ghost use Rattle.std.specs.Prelude.{◌≡◌, ◌<◌, length};
ghost use Rattle.std.specs.List.{AllByRecursion};
ghost use Rattle.ssz_schema.specs.Unfolding.{type_of, fields_over};
ghost use Rattle.ssz_checking.specs.Plain.{has_plain_encoding, are_plain};

use ssz_schema::{Name, Schema, Ty, TypeId};

/// Whether the type is plain: a number, a bitvector of whole bytes, or a vector or container of
/// such.
#[cycle(plain)]
pub fn is_plain(schema: &Schema, id: TypeId) -> bool
    requires { id < length schema.now.trees }
    ensures { result ≡ has_plain_encoding (type_of schema.now id) }
{
    match schema.ty(id) {
        Ty::Uint(_) => true,
        Ty::Bitvector(n) => n % 8 == 0,
        Ty::Vector(elem, _) => is_plain(schema, *elem),
        Ty::Container(fields) => are_plain(schema, id, fields.as_slice()),
        _ => false,
    }
}

// Of fields whose types stand before id.
#[cycle(plain)]
fn are_plain(schema: &Schema, id: TypeId, fields: &[(Name, TypeId)]) -> bool
    requires known { id < length schema.now.trees }
    requires before { AllByRecursion (λ part. part.1 < id) fields.now }
    ensures { result ≡ are_plain (fields_over schema.now.trees fields.now) }
{
    for field in fields {
        if !is_plain(schema, field.1) {
            return false;
        }
    }
    true
}
