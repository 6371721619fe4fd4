ghost use Rattle.std.specs.Prelude.{◌≡◌, ◌≤◌, ◌^◌, Some, None, if◌then◌else◌};
ghost use Rattle.std.specs.Option.{ForSome};
ghost use Rattle.ssz_types.specs.Sizes.{element_chunks, part_length};

/// What a type's tree tells of it, kept since each type is asked often.
#[derive(Clone, Copy)]
pub struct Facts {
    pub fixed_size: Option<u64>,
    pub default_len: u64,
    pub chunk_count: u64,
    pub depth: u32,
    pub levels: u32,
    pub nesting: u32,
}

impl Facts {
    /// Of a basic type of this size.
    pub fn basic(size: u64) -> Facts
        ensures { result ≡ record {
          fixed_size = Some size;
          default_len = size;
          chunk_count = 1;
          depth = 0;
          levels = 0;
          nesting = 1;
        } }
    {
        Facts {
            fixed_size: Some(size),
            default_len: size,
            chunk_count: 1,
            depth: 0,
            levels: 0,
            nesting: 1,
        }
    }
}

/// The chunks of n elements, given their size where they are basic.
pub fn element_chunks(size: Option<u64>, n: u64) -> u64
    requires { ForSome size (λ z. z ≤ 32) }
    ensures { result ≡ element_chunks size n }
{
    match size {
        Some(size) => ((u128::from(n) * u128::from(size) + 31) / 32) as u64,
        None => n,
    }
}

/// What a part of this length adds to the whole: itself, and its offset if it is variable-size.
pub fn part_length(size: Option<u64>, len: u64) -> u64
    requires { len ≤ 2 ^ 24 }
    ensures { result ≡ part_length size len }
{
    match size {
        Some(_) => len,
        None => 4 + len,
    }
}

/// This size, if the type is fixed-size.
pub fn size_if_fixed(is_fixed: bool, size: u64) -> Option<u64>
    ensures { result ≡ (if is_fixed then Some size else None) }
{
    if is_fixed { Some(size) } else { None }
}
