use ssz_value::Value;

// What is done to the part at the end of a path. The new value is moved in.
#[derive(Debug, Drop)]
pub(crate) enum Edit {
    // The part is this value.
    Set(Value),
    // The list or bitlist has this element behind its last one.
    Append(Value),
    // The list or bitlist loses its last element.
    Pop,
    // The union has the option of this number, with this value; the option None has none.
    Choose(u8, Option<Box<Value>>),
}
