// Each call that allocates, once where it succeeds. What definitions are answered, and what is read
// off types, the rows of text_rows say.
ghost use Rattle.std.specs.Prelude.{◌<◌, length, IfOk};

use ssz_schema::{Format, Name, Schema, SchemaError, SchemaFault, TypeExpr, TypeId, Width};
use std::alloc::{AllocError, Global};
use std::test::Fail;

// A field of a boolean.
fn field(alloc: Global, name: &[u8]) -> Result<(Name, TypeExpr), AllocError> {
    Ok((Name::copy_of(alloc, name)?, TypeExpr::Boolean))
}

// Fields of booleans, with these names.
fn container(alloc: Global, names: &[&[u8]]) -> Result<TypeExpr, AllocError> {
    let mut fields = Vec::new(alloc);
    for name in names {
        fields.push(field(alloc, name)?)?;
    }
    Ok(TypeExpr::Container(fields))
}

// The type that the definition of a name gives, which could be made.
fn added(
    alloc: Global,
    schema: &mut Schema,
    name: &[u8],
    expr: Result<TypeExpr, AllocError>,
) -> Result<TypeId, Fail>
    ensures { IfOk result (λ id. id < length schema.new.trees) }
{
    let expr = expr?;
    let name = Name::copy_of(alloc, name)?;
    match schema.add(&name, &expr) {
        Ok(id) => Ok(id),
        Err(_) => Err("no accepted type".into()),
    }
}

// List[uint64, 8]
fn list(alloc: Global) -> Result<TypeExpr, AllocError> {
    let elem = Box::new(alloc, TypeExpr::Uint(Width::W64))?;
    Ok(TypeExpr::List(elem, 8))
}

#[test]
fn a_list_is_added(rt: HostRuntime) -> Result<(), Fail> {
    let mut schema = Schema::empty(rt.alloc())?;
    let id = added(rt.alloc(), &mut schema, b"L", list(rt.alloc()))?;
    assert!(rt; schema.find("L") == Some(id));
    assert!(rt; schema.levels(id) == 2);
    Ok(())
}

// Union[uint16]
fn union(alloc: Global) -> Result<TypeExpr, AllocError> {
    let mut options = Vec::new(alloc);
    options.push(Some(TypeExpr::Named(Name::copy_of(alloc, b"uint16")?)))?;
    Ok(TypeExpr::Union(options))
}

#[test]
fn a_union_is_added(rt: HostRuntime) -> Result<(), Fail> {
    let mut schema = Schema::empty_for(rt.alloc(), Format::Two)?;
    let id = added(rt.alloc(), &mut schema, b"U", union(rt.alloc()))?;
    assert!(rt; schema.default_len(id) == 3);
    Ok(())
}

// Whether a definition of T by two fields of these names is refused since they are the same.
fn is_refused(alloc: Global, schema: &mut Schema, names: &[&[u8]]) -> Result<bool, AllocError> {
    let name = Name::copy_of(alloc, b"T")?;
    let expr = container(alloc, names)?;
    let refused = schema.add(&name, &expr);
    Ok(refused == Err(SchemaError::Fault(SchemaFault::FieldTaken)))
}

// A refusal in the last field leaves nothing behind.
#[test]
fn a_refusal_leaves_the_schema(rt: HostRuntime) -> Result<(), Fail> {
    let mut schema = Schema::empty(rt.alloc())?;
    assert!(rt; is_refused(rt.alloc(), &mut schema, &[b"a", b"a"])?);
    assert!(rt; schema.find("T").is_none());
    let two = container(rt.alloc(), &[b"a", b"b"]);
    let id = added(rt.alloc(), &mut schema, b"T", two)?;
    assert!(rt; schema.fixed_size(id) == Some(2));
    Ok(())
}
