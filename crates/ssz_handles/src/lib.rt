//! What a handle of C holds, and how the calls over it end: below `ssz_c`, whose functions are the
//! calls of C alone.
//!
//! A handle (`SszSchema`, `SszSession`, `SszSlice`) is a struct of two words that C keeps and hands
//! in by its address; the second is a pointer to a box, of which `held`, `held_session` and
//! `held_slice` alone know. A call takes what its handle holds, asks, puts it back, and says how it
//! ended (`giving`). A session (`session`) does the statements of scripts, said as a line
//! (`running`) or by the arguments of a call (`answering`); it has no files (`no_files`).
#![tactic(auto)]

mod answering;
pub mod giving;
mod handle;
mod held;
mod held_session;
mod held_slice;
mod no_files;
mod parts;
mod ran;
pub mod reading;
mod running;
mod session;
mod session_handle;
mod slice_handle;

pub use handle::SszSchema;
pub use held::Held;
pub use held_session::HeldSession;
pub use held_slice::HeldSlice;
pub use no_files::NoFiles;
pub use ran::Ran;
pub use session::Session;
pub use session_handle::SszSession;
pub use slice_handle::SszSlice;
