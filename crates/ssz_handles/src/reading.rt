// A schema in a box.
ghost use Rattle.std.specs.Prelude.{IfOk};
ghost use Rattle.std.specs.Result.{result_map_both};
ghost use Rattle.ssz_typed.specs.Library.{ReadsLibrary};
ghost use Rattle.ssz_typed.specs.Sharing.{IsShared};

use ssz_said::SszFault;
use ssz_typed::Library;
use std::alloc::{AllocError, Global};

/// The schema that the bytes of a schema file define, with no type asked for yet.
pub fn boxed(alloc: Global, bytes: &[u8]) -> Result<Box<Library, Global>, SszFault>
    ensures { ReadsLibrary (result_map_both (λ library. library.value) (λ fault. fault) result)
        bytes.now }
{
    let library = Library::read(alloc, bytes)?;
    Ok(Box::new(alloc, library)?)
}

/// Another one on the same schema.
pub fn shared(alloc: Global, library: &Library) -> Result<Box<Library, Global>, AllocError>
    ensures { IfOk result (λ other. IsShared library.now other.value) }
{
    Ok(Box::new(alloc, library.share(alloc)?)?)
}
