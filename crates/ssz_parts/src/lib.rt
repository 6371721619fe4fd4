//! Where the parts of an encoding lie, and the first fault of what stands before them: the number
//! of elements, the head of elements or fields, the selector of a union (simple-serialize.md,
//! Serialization, Deserialization).
//!
//! A head is what the fixed parts take: the parts of fixed size themselves, and the offsets of the
//! others. `count_of` answers how many elements a list has, or what is wrong with their number;
//! `length_fault`, `offsets_fault`, `fields_head_fault`, `union_head` and `none_fault` answer the
//! first fault of a head; `variable_head_fault` is told how long the fixed parts are, by
//! `heads_len`, which many elements ask once. Behind a head without a fault, `element_at`,
//! `end_of_part` and `part_range` find the parts. That elements, and what a union holds, have no
//! fault where the whole has none is no clause of these calls: it is what the lemmas
//! `element_faultless` and `union_rest` of proofs/ say. No call takes memory.
#![tactic(auto)]

mod elements;
mod field_heads;
mod fields;
mod heads;
mod offsets;
mod unions;

pub use elements::{element_at, element_count, end_of_part};
pub use field_heads::{container_heads_len, fields_head_fault, heads_len, variable_head_fault};
pub use fields::part_range;
pub use heads::{count_of, length_fault, none_fault, offsets_fault};
pub use offsets::{head_len, offset_at};
pub use unions::union_head;
