use ssz_bytes::{BitRun, ByteRun};
use ssz_chunk::Chunk;
use std::mem::forget;

/// Values in order.
pub type Items = Vec<Value>;

/// A value, without its type.
#[derive(Debug)]
pub enum Value {
    /// A uint8 to uint128.
    Uint(u128),
    /// The 32 bytes of a uint256, least significant first.
    Wide(Chunk),
    Bool(bool),
    /// A vector or list of uint8, and nothing else.
    Bytes(ByteRun),
    /// The fields of a container in order, or the elements of any other vector or list.
    Seq(Items),
    /// A bitvector or bitlist, without its delimiter.
    Bits(BitRun),
    /// A union. The option None has no inner value.
    Union {
        selector: u8,
        inner: Option<Box<Value>>,
    },
}

// A value takes 48 bytes, whatever it is.
const _: () = prove!(size_of::<Value>() == 48);

impl Value {
    // Whether it owns no memory: then nothing is lost where it is forgotten.
    #[inline(always)]
    fn owns_nothing(&self) -> bool {
        match self {
            Value::Uint(_) => true,
            Value::Wide(_) => true,
            Value::Bool(_) => true,
            Value::Bytes(run) => run.is_inside(),
            _ => false,
        }
    }
}

// The elements of most sequences own nothing. To look at one is cheaper than to let it go, for
// which it is copied and given to a call.
impl Drop for Value {
    fn drop(self) {
        match self {
            Value::Uint(_) => {}
            Value::Wide(_) => {}
            Value::Bool(_) => {}
            Value::Bytes(run) => drop(run),
            Value::Seq(items) => {
                if items.iter().all(|item| item.owns_nothing()) {
                    forget_all(items);
                } else {
                    drop(items);
                }
            }
            Value::Bits(run) => drop(run),
            Value::Union { selector: _, inner } => drop(inner),
        }
    }
}

// Frees the memory that items stand in, and lets none of them go.
#[inline(always)]
fn forget_all<T: Drop>(mut items: Vec<T>) {
    'items: while let Some(item) = items.pop() {
        forget(item);
    }
    items.destroy_empty();
}
