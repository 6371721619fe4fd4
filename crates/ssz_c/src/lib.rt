//! The calls of C (`include/ssz.h`): schemas and what their types are, first faults, roots,
//! generalized indices, proofs and parts of encoded bytes; slices, which are bytes that were
//! checked once; and sessions, which do the statements of scripts, said as a line or by the
//! arguments of a call.
//!
//! Each export takes what its handle holds (`ssz_handles`), calls a library of this repository, and
//! puts it back. Every call says how it ended by a number (`status`), and writes what it found
//! behind the pointers that it was given.
#![tactic(auto)]

ghost use Rattle.std.specs.Prelude.{◌≡◌};
ghost use Rattle.ssz_c.specs.declared.TheConstants.{VERSION};

mod editing;
mod schemas;
mod sessions;
mod showing;
mod slices;
mod types;
mod verifying;

pub use editing::{
    ssz_session_append, ssz_session_choose, ssz_session_choose_default, ssz_session_compact,
    ssz_session_drop, ssz_session_fork, ssz_session_load, ssz_session_new, ssz_session_pop,
    ssz_session_set, ssz_session_upgrade,
};
pub use schemas::{
    ssz_check, ssz_default, ssz_field, ssz_fields, ssz_gindex, ssz_of_json, ssz_part, ssz_place,
    ssz_root, ssz_schema_free, ssz_schema_read, ssz_schema_share, ssz_size, ssz_to_json, ssz_type,
};
pub use sessions::{
    ssz_session_end, ssz_session_nodes, ssz_session_reply, ssz_session_run, ssz_session_start,
    ssz_session_start_on,
};
pub use showing::{
    ssz_session_bytes, ssz_session_gindex, ssz_session_json, ssz_session_len, ssz_session_prove,
    ssz_session_prove_all, ssz_session_root,
};
pub use slices::{ssz_slice_close, ssz_slice_open, ssz_slice_part, ssz_slice_place};
pub use ssz_handles::{SszSchema, SszSession, SszSlice};
pub use ssz_said::{SszEntry, SszFault, SszIndex};
pub use ssz_typed::SszStretch;
pub use types::{
    ssz_form, ssz_limit, ssz_names, ssz_part_type, ssz_parts, ssz_type_name, ssz_types,
};
pub use verifying::{ssz_verify, ssz_verify_all, ssz_verify_branch};

// The version of the library: 65536 times the first number, 256 times the second, and the third.
const VERSION: u32 = 0x100;

/// The version of the library, as `SSZ_VERSION` in the header.
#[unsafe(no_mangle)]
pub extern "C" fn ssz_version() -> u32
    ensures { result ≡ VERSION }
{
    VERSION
}
