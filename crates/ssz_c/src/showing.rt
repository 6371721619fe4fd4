// The calls of a session that show what a version has.
ghost use Rattle.std.specs.Prelude.{◌≡◌};
ghost use Rattle.ssz_said.specs.Entries.{IsProofShown, prove_all_said};
ghost use Rattle.ssz_said.specs.Outcome.{IsCopied, IsGivenBack};
ghost use Rattle.ssz_said.specs.Proving.{IsBranchCopied, prove_said};
ghost use Rattle.ssz_said.specs.Replies.{encoding_of, gindex_of, reply_len, reply_root, reply_text};
ghost use Rattle.ssz_said.specs.Statements.{bytes_said, gindex_said, json_said, len_said, root_said};
ghost use Rattle.ssz_handles.specs.Answering.{IsCall};

use ssz_handles::SszSession;
use ssz_handles::giving::{copy_made, copy_run, give, show};
use ssz_said::{
    SszEntry, SszFault, SszIndex, encoding_of, gindex_of, len_of, prove_all, proving, root_of,
    statements, text_of,
};
use std::alloc::Global;

/// The hash_tree_root of a version.
#[unsafe(no_mangle)]
pub extern "C" fn ssz_session_root(
    alloc: Global,
    handle: &mut SszSession,
    name: &[u8],
    root: &mut [u8; 32],
    fault: &mut SszFault,
) -> u32
    ensures done { IsCall (root_said name.now) handle.old.held.value handle.new.held.value
        (λ answer. IsGivenBack root.old root.new fault.new (reply_root answer)) }
    ensures status { result ≡ fault.new.status }
{
    let answer = handle.answer(alloc, statements::root(alloc, name));
    give(root_of(answer), root, fault)
}

/// The encoding of the part at a path of a version.
///
/// As many parameters as the call of C has arguments.
#[unsafe(no_mangle)]
pub extern "C" fn ssz_session_bytes(
    alloc: Global,
    handle: &mut SszSession,
    name: &[u8],
    path: &[u8],
    room: &mut [u8],
    len: &mut u64,
    fault: &mut SszFault,
) -> u32
    ensures done { IsCall (bytes_said name.now path.now) handle.old.held.value
        handle.new.held.value (λ answer. IsCopied room.old room.new len.old len.new fault.new
        (encoding_of answer)) }
    ensures status { result ≡ fault.new.status }
{
    let answer = handle.answer(alloc, statements::bytes(alloc, name, path));
    copy_run(encoding_of(answer), room, len, fault)
}

/// The JSON text of the part at a path of a version.
///
/// As many parameters as the call of C has arguments.
#[unsafe(no_mangle)]
pub extern "C" fn ssz_session_json(
    alloc: Global,
    handle: &mut SszSession,
    name: &[u8],
    path: &[u8],
    room: &mut [u8],
    len: &mut u64,
    fault: &mut SszFault,
) -> u32
    ensures done { IsCall (json_said name.now path.now) handle.old.held.value
        handle.new.held.value (λ answer. IsCopied room.old room.new len.old len.new fault.new
        (reply_text answer)) }
    ensures status { result ≡ fault.new.status }
{
    let answer = handle.answer(alloc, statements::json(alloc, name, path));
    copy_run(text_of(answer), room, len, fault)
}

/// How many elements or bits the part at a path of a version has.
#[unsafe(no_mangle)]
pub extern "C" fn ssz_session_len(
    alloc: Global,
    handle: &mut SszSession,
    name: &[u8],
    path: &[u8],
    count: &mut u64,
    fault: &mut SszFault,
) -> u32
    ensures done { IsCall (len_said name.now path.now) handle.old.held.value
        handle.new.held.value
        (λ answer. IsGivenBack count.old count.new fault.new (reply_len answer)) }
    ensures status { result ≡ fault.new.status }
{
    let answer = handle.answer(alloc, statements::len(alloc, name, path));
    give(len_of(answer), count, fault)
}

/// The generalized index of a path by a type.
#[unsafe(no_mangle)]
pub extern "C" fn ssz_session_gindex(
    alloc: Global,
    handle: &mut SszSession,
    kind: &[u8],
    path: &[u8],
    index: &mut SszIndex,
    fault: &mut SszFault,
) -> u32
    ensures done { IsCall (gindex_said kind.now path.now) handle.old.held.value
        handle.new.held.value
        (λ answer. IsGivenBack index.old index.new fault.new (gindex_of answer)) }
    ensures status { result ≡ fault.new.status }
{
    let answer = handle.answer(alloc, statements::gindex(alloc, kind, path));
    give(gindex_of(answer), index, fault)
}

/// What proves the part at an index of a version, a number or a path: its chunk, and those beside
/// its way to the root, from below.
///
/// As many parameters as the call of C has arguments.
#[unsafe(no_mangle)]
pub extern "C" fn ssz_session_prove(
    alloc: Global,
    handle: &mut SszSession,
    name: &[u8],
    index: &[u8],
    room: &mut [u8],
    len: &mut u64,
    fault: &mut SszFault,
) -> u32
    ensures done { IsCall (prove_said name.now index.now) handle.old.held.value
        handle.new.held.value
        (IsBranchCopied room.old room.new len.old len.new fault.new) }
    ensures status { result ≡ fault.new.status }
{
    let answer = handle.answer(alloc, proving::prove(alloc, name, index));
    copy_made(proving::branch_of(alloc, answer), room, len, fault)
}

/// What proves the parts at these indices of a version: the leaves, and how many they are, and then
/// the nodes.
///
/// As many parameters as the call of C has arguments.
#[unsafe(no_mangle)]
pub extern "C" fn ssz_session_prove_all(
    alloc: Global,
    handle: &mut SszSession,
    name: &[u8],
    indices: &[SszIndex],
    room: &mut [SszEntry],
    leaves: &mut u64,
    len: &mut u64,
    fault: &mut SszFault,
) -> u32
    ensures done { IsCall (prove_all_said name.now indices.now) handle.old.held.value
        handle.new.held.value (IsProofShown room.old room.new leaves.old leaves.new len.old
        len.new fault.new) }
    ensures status { result ≡ fault.new.status }
{
    let answer = handle.answer(alloc, prove_all(alloc, name, indices));
    show(
        alloc,
        proving::proof_of(alloc, answer),
        room,
        leaves,
        len,
        fault,
    )
}
