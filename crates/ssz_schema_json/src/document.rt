//! From a JSON value to a document.
ghost use Rattle.std.specs.Prelude.{◌≡◌, ◌≢◌, ◌∷◌, [], length, option_map, option_and_then, string_bytes};
ghost use Rattle.std.specs.Option.{IfSome, IfNone};
ghost use Rattle.std.specs.Box.{box_value};
ghost use Rattle.serde_json.specs.Data.{no_items, item, object};
ghost use Rattle.serde_json.specs.Find.{as_number, as_u64};
ghost use Rattle.serde_json.specs.View.{view, items_view, members_view, number_view};
ghost use Rattle.ssz_schema.specs.Forms.{form_of};
ghost use Rattle.ssz_schema_json.specs.Document.{written_form, written_fields, written_sized, written_options, written_document, array_form, number_form, ssz_and_types, format_numbered};
ghost use Rattle.ssz_schema_json.specs.Views.{GivesView, document_view, fields_view, options_view};

use super::fault::SchemaRead;
use serde_json::{Map, Number, Value};
use ssz_schema::{Format, Name, TypeExpr};
use std::alloc::Global;

/// What a schema file defines, before its names are looked up.
#[derive(Debug, Drop)]
pub struct Definitions {
    /// The format that the file names.
    pub format: Format,
    /// The names and types that it defines, in order.
    pub items: Vec<(Name, TypeExpr)>,
}

/// The definitions that the value writes.
pub fn definitions_of(alloc: Global, value: Value) -> Result<Definitions, SchemaRead>
    ensures { GivesView document_view result (written_document (view value)) }
{
    let Value::Object(members) = value else {
        return Err(SchemaRead::Shape);
    };
    let Some((ssz, types)) = ssz_and_types(members) else {
        return Err(SchemaRead::Shape);
    };
    let Some(format) = format_of(&ssz) else {
        return Err(SchemaRead::Shape);
    };
    let Value::Array(items) = types else {
        return Err(SchemaRead::Shape);
    };
    Ok(Definitions {
        format,
        items: fields_of(alloc, items)?,
    })
}

// The values of an object's members, where these are `ssz` and `types` alone.
fn ssz_and_types(mut members: Map<String, Value>) -> Option<(Value, Value)>
    ensures { option_map (λ p. (view p.0, view p.1)) result
        ≡ ssz_and_types (members_view members.entries) }
{
    if members.len() != 2 {
        return None;
    }
    let (first, ssz) = members.pop_first()?;
    let (second, types) = members.pop_first()?;
    if first.as_str() == "ssz" && second.as_str() == "types" {
        Some((ssz, types))
    } else {
        None
    }
}

// The format that a number names.
fn format_of(value: &Value) -> Option<Format>
    ensures { result
        ≡ option_and_then format_numbered (option_and_then as_u64 (as_number (view value.now))) }
{
    match value.as_u64() {
        Some(1) => Some(Format::One),
        Some(2) => Some(Format::Two),
        _ => None,
    }
}

// The type that a value writes.
#[cycle(forms)]
fn form_of(alloc: Global, value: Value) -> Result<TypeExpr, SchemaRead>
    ensures { GivesView form_of result (written_form (view value)) }
{
    match value {
        Value::String(name) => Ok(TypeExpr::Named(name_of(name))),
        Value::Object(members) => object_form(alloc, members),
        _ => Err(SchemaRead::Shape),
    }
}

// The type that an object writes, by its one member.
#[cycle(forms)]
fn object_form(alloc: Global, members: Map<String, Value>) -> Result<TypeExpr, SchemaRead>
    ensures { GivesView form_of result (written_form (object (members_view members.entries))) }
{
    let Some((key, value)) = only_member(members) else {
        return Err(SchemaRead::Shape);
    };
    match value {
        Value::Number(number) => number_form(key.as_str(), &number),
        Value::Array(items) => array_form(alloc, key.as_str(), items),
        _ => Err(SchemaRead::Shape),
    }
}

// The type that a number under this key writes.
fn number_form(key: &str, number: &Number) -> Result<TypeExpr, SchemaRead>
    ensures { GivesView form_of result
        (option_and_then (number_form key.now) (as_u64 (number_view number.now))) }
{
    match number.as_u64() {
        Some(length) if key == "bitvector" => Ok(TypeExpr::Bitvector(length)),
        Some(limit) if key == "bitlist" => Ok(TypeExpr::Bitlist(limit)),
        _ => Err(SchemaRead::Shape),
    }
}

// The type that an array under this key writes.
#[cycle(forms)]
fn array_form(alloc: Global, key: &str, items: Vec<Value>) -> Result<TypeExpr, SchemaRead>
    ensures { GivesView form_of result (array_form key.now (written_fields (items_view items.items))
        (written_sized (items_view items.items)) (written_options (items_view items.items))) }
{
    if key == "container" {
        Ok(TypeExpr::Container(fields_of(alloc, items)?))
    } else if key == "vector" {
        let (elem, length) = sized_of(alloc, items)?;
        Ok(TypeExpr::Vector(elem, length))
    } else if key == "list" {
        let (elem, limit) = sized_of(alloc, items)?;
        Ok(TypeExpr::List(elem, limit))
    } else if key == "union" {
        Ok(TypeExpr::Union(options_of(alloc, items)?))
    } else {
        Err(SchemaRead::Shape)
    }
}

// Names and types, one of each in each item: definitions, or the fields of a container.
#[cycle(forms)]
fn fields_of(alloc: Global, items: Vec<Value>) -> Result<Vec<(Name, TypeExpr)>, SchemaRead>
    ensures { GivesView (λ v. fields_view v.items) result
        (written_fields (items_view items.items)) }
{
    let mut fields = Vec::with_capacity(alloc, items.len())?;
    for item in items {
        fields.push(field_of(alloc, item)?)?;
    }
    Ok(fields)
}

// A name and a type.
#[cycle(forms)]
fn field_of(alloc: Global, value: Value) -> Result<(Name, TypeExpr), SchemaRead>
    ensures { GivesView (λ p. fields_view (p ∷ [])) result
        (written_fields (item (view value) no_items)) }
{
    let Value::Array(items) = value else {
        return Err(SchemaRead::Shape);
    };
    let Some((name, form)) = two(items) else {
        return Err(SchemaRead::Shape);
    };
    let Value::String(name) = name else {
        return Err(SchemaRead::Shape);
    };
    let form = form_of(alloc, form)?;
    Ok((name_of(name), form))
}

// A type and a length or limit.
#[cycle(forms)]
fn sized_of(alloc: Global, items: Vec<Value>) -> Result<(Box<TypeExpr>, u64), SchemaRead>
    ensures { GivesView (λ p. (form_of (box_value p.0), p.1)) result
        (written_sized (items_view items.items)) }
{
    let Some((elem, number)) = two(items) else {
        return Err(SchemaRead::Shape);
    };
    let Some(number) = number.as_u64() else {
        return Err(SchemaRead::Shape);
    };
    let elem = form_of(alloc, elem)?;
    Ok((Box::new(alloc, elem)?, number))
}

// The options of a union.
#[cycle(forms)]
fn options_of(alloc: Global, items: Vec<Value>) -> Result<Vec<Option<TypeExpr>>, SchemaRead>
    ensures { GivesView (λ v. options_view v.items) result
        (written_options (items_view items.items)) }
{
    let mut options = Vec::with_capacity(alloc, items.len())?;
    for item in items {
        options.push(option_of(alloc, item)?)?;
    }
    Ok(options)
}

// A type, or None for null.
#[cycle(forms)]
fn option_of(alloc: Global, value: Value) -> Result<Option<TypeExpr>, SchemaRead>
    ensures { GivesView (λ o. options_view (o ∷ [])) result
        (written_options (item (view value) no_items)) }
{
    match value {
        Value::Null => Ok(None),
        _ => Ok(Some(form_of(alloc, value)?)),
    }
}

// The name that the text of a string is, whatever it is.
fn name_of(text: String) -> Name
    ensures { result ≡ string_bytes text }
{
    Name::from_bytes(text.into_bytes())
}

// The items of an array of two.
fn two(mut items: Vec<Value>) -> Option<(Value, Value)>
    ensures found { IfSome result (λ p. items.items ≡ p.0 ∷ p.1 ∷ []) }
    ensures none { IfNone result (length items.items ≢ 2) }
{
    if items.len() != 2 {
        return None;
    }
    let second = items.pop()?;
    let first = items.pop()?;
    Some((first, second))
}

// The member of an object with one.
fn only_member(mut members: Map<String, Value>) -> Option<(String, Value)>
    ensures found { IfSome result (λ m. members.entries ≡ m ∷ []) }
    ensures none { IfNone result (length members.entries ≢ 1) }
{
    if members.len() != 1 {
        return None;
    }
    members.pop_first()
}
