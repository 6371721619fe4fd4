// The fields of a container in byte order of their names, as JSON texts have them.
ghost use Rattle.std.specs.Prelude.{◌≡◌, ◌<◌, ℕ, [], length, map, get_or, IfOk, OnOk};
ghost use Rattle.std.specs.List.{All};
ghost use Rattle.std.specs.BTreeMap.{insert_entry};
ghost use Rattle.std.specs.Cmp.Lexicographic.{slice_cmp};
ghost use Rattle.std.specs.Ordering.{nat_cmp};
ghost use Rattle.ssz_types.specs.Order.{order_from, name_order, with_names};
ghost use Rattle.ssz_types.specs.Repeats.{first_repeat};

use super::expr::TypeExpr;
use super::name::Name;
use super::repeats::first_repeat;
use std::alloc::{AllocError, Global};
use std::cmp::Ordering;
use std::collections::BTreeMap;

// Up to so many fields are put in order with no map.
const FEW: usize = 8;

/// The fields of a container by their names.
#[derive(Drop)]
pub struct FieldOrder {
    /// The numbers of the fields in byte order of their names, each name once.
    pub numbers: Vec<usize>,
    /// The number of the first field that has the name of an earlier one.
    pub repeat: Option<usize>,
}

impl FieldOrder {
    /// The only error is want of memory.
    pub fn of(alloc: Global, fields: &[(Name, TypeExpr)]) -> Result<FieldOrder, AllocError>
        ensures numbers { IfOk result (λ order.
            order.numbers.items ≡ name_order (map (λ field. field.0) fields.now)) }
        ensures repeat { IfOk result (λ order.
            order.repeat ≡ first_repeat [] 0 (map (λ field. field.0) fields.now)) }
    {
        let numbers = name_order(alloc, fields)?;
        // An order that has as many names as there are fields has no name twice.
        if numbers.len() == fields.len() {
            return Ok(FieldOrder {
                numbers,
                repeat: None,
            });
        }
        let repeat = first_repeat(alloc, fields)?;
        Ok(FieldOrder { numbers, repeat })
    }
}

fn name_order(alloc: Global, fields: &[(Name, TypeExpr)]) -> Result<Vec<usize>, AllocError>
    ensures { IfOk result (λ order.
        order.items ≡ name_order (map (λ field. field.0) fields.now)) }
{
    if fields.len() <= FEW {
        return order_of_few(alloc, fields);
    }
    names_of(alloc, fields)?.into_values().collect(alloc)
}

// Of few fields: comparing their names takes less than the nodes of a map.
fn order_of_few(alloc: Global, fields: &[(Name, TypeExpr)]) -> Result<Vec<usize>, AllocError>
    ensures { IfOk result (λ order.
        order.items ≡ name_order (map (λ field. field.0) fields.now)) }
{
    let mut order = Vec::with_capacity(alloc, fields.len())?;
    let mut number = fields.len();
    while number > 0 {
        number -= 1;
        put_in_order(&mut order, fields, number)?;
    }
    Ok(order)
}

// The field's number comes to the place of its name, instead of a number that stands there.
fn put_in_order(
    order: &mut Vec<usize>,
    fields: &[(Name, TypeExpr)],
    number: usize,
) -> Result<(), AllocError>
    requires number { number < length fields.now }
    requires numbers { All (λ n. n < length fields.now) order.old.items }
    ensures numbers { OnOk result (All (λ n. n < length fields.now) order.new.items) }
    ensures names { OnOk result (with_names (map (λ field. field.0) fields.now) order.new.items
        ≡ insert_entry (slice_cmp nat_cmp)
        (with_names (map (λ field. field.0) fields.now) order.old.items)
        (get_or (map (λ field. field.0) fields.now) number []) number) }
{
    let name = fields[number].0.as_bytes();
    let mut place = 0;
    while place < order.len() {
        match name_cmp(name, fields[order[place]].0.as_bytes()) {
            Ordering::Less => {
                break;
            }
            Ordering::Equal => {
                order[place] = number;
                return Ok(());
            }
            Ordering::Greater => {
                place += 1;
            }
        }
    }
    order.insert(place, number)?;
    Ok(())
}

fn name_cmp(a: &[u8], b: &[u8]) -> Ordering
    ensures { result ≡ slice_cmp nat_cmp a.now b.now }
{
    a.cmp(b)
}

// The numbers of the fields by their names.
fn names_of(
    alloc: Global,
    fields: &[(Name, TypeExpr)],
) -> Result<BTreeMap<&[u8], usize>, AllocError>
    ensures { IfOk result (λ names. map (λ entry. (entry.0.now, entry.1)) names.entries
        ≡ order_from 0 (map (λ field. field.0) fields.now)) }
{
    let mut names = BTreeMap::new(alloc);
    let mut number = fields.len();
    while number > 0 {
        number -= 1;
        names.insert(fields[number].0.as_bytes(), number)?;
    }
    Ok(names)
}
