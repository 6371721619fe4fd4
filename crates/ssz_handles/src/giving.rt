// How a call ends.
ghost use Rattle.std.specs.Prelude.{◌≡◌, Ok};
ghost use Rattle.std.specs.Result.{result_map_both};
ghost use Rattle.ssz_said.specs.Entries.{AreEntriesShown};
ghost use Rattle.ssz_said.specs.Outcome.{IsCopied, IsGivenBack, IsSaid, refused};

use ssz_bytes::ByteRun;
use ssz_proof::Proof;
use ssz_said::proving::all_shown;
use ssz_said::{SszEntry, SszFault, status};
use std::alloc::Global;

/// Writes what was found, or why not.
pub fn give<T: Copy + Drop>(answer: Result<T, SszFault>, out: &mut T, fault: &mut SszFault) -> u32
    ensures given { IsGivenBack out.old out.new fault.new answer }
    ensures status { result ≡ fault.new.status }
{
    match answer {
        Ok(found) => {
            *out = found;
            *fault = SszFault::none();
        }
        Err(why) => *fault = why,
    }
    fault.status
}

/// Says whether all is well, or why not.
pub fn say<T: Drop>(answer: Result<T, SszFault>, fault: &mut SszFault) -> u32
    ensures said { IsSaid fault.new answer }
    ensures status { result ≡ fault.new.status }
{
    *fault = match answer {
        Ok(_) => SszFault::none(),
        Err(why) => why,
    };
    fault.status
}

/// Says a status alone.
pub fn fail(status: u32, fault: &mut SszFault) -> u32
    ensures fault { fault.new ≡ refused status }
    ensures status { result ≡ fault.new.status }
{
    *fault = SszFault::of(status);
    status
}

/// Copies what there is to where there is room for it, and says how many there are.
pub fn copy<T: Copy + Drop>(found: &[T], room: &mut [T], len: &mut u64, fault: &mut SszFault) -> u32
    ensures copied { IsCopied room.old room.new len.old len.new fault.new (Ok found.now) }
    ensures status { result ≡ fault.new.status }
{
    *len = found.len() as u64;
    if room.len() < found.len() {
        return fail(status::NO_ROOM, fault);
    }
    let (front, _) = room.split_at_mut(found.len());
    front.copy_from_slice(found);
    fail(status::OK, fault)
}

/// Copies the bytes that were found, or says why there are none.
pub fn copy_run(
    answer: Result<ByteRun, SszFault>,
    room: &mut [u8],
    len: &mut u64,
    fault: &mut SszFault,
) -> u32
    ensures copied { IsCopied room.old room.new len.old len.new fault.new answer }
    ensures status { result ≡ fault.new.status }
{
    match answer {
        Ok(bytes) => copy(bytes.as_slice(), room, len, fault),
        Err(why) => {
            *fault = why;
            why.status
        }
    }
}

/// Copies the bytes that were made, or says why there are none.
pub fn copy_made(
    answer: Result<Vec<u8>, SszFault>,
    room: &mut [u8],
    len: &mut u64,
    fault: &mut SszFault,
) -> u32
    ensures copied { IsCopied room.old room.new len.old len.new fault.new
        (result_map_both (λ bytes. bytes.items) (λ why. why) answer) }
    ensures status { result ≡ fault.new.status }
{
    match answer {
        Ok(bytes) => copy(bytes.as_slice(), room, len, fault),
        Err(why) => {
            *fault = why;
            why.status
        }
    }
}

/// Copies the leaves and the nodes of a proof, or says why there is none.
pub fn show(
    alloc: Global,
    answer: Result<Proof, SszFault>,
    room: &mut [SszEntry],
    leaves: &mut u64,
    len: &mut u64,
    fault: &mut SszFault,
) -> u32
    ensures shown { AreEntriesShown room.old room.new leaves.old leaves.new len.old len.new
        fault.new
        answer }
    ensures status { result ≡ fault.new.status }
{
    let proof = match answer {
        Ok(proof) => proof,
        Err(why) => {
            *fault = why;
            return why.status;
        }
    };
    let count = proof.leaves().len() as u64;
    match all_shown(alloc, &proof) {
        Ok(entries) => {
            *leaves = count;
            copy(entries.as_slice(), room, len, fault)
        }
        Err(_) => fail(status::NO_MEMORY, fault),
    }
}
