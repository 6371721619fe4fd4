// The calls of a session that make, edit and give up versions.
ghost use Rattle.std.specs.Prelude.{◌≡◌};
ghost use Rattle.ssz_said.specs.Outcome.{IsSaid, TellsFirst};
ghost use Rattle.ssz_said.specs.Statements.{append_said, choose_default_said, choose_said, compact_said, drop_said, fork_said, lit_said, new_said, pop_said, set_said, upgrade_said};
ghost use Rattle.ssz_handles.specs.Answering.{IsCall, few_in};

use ssz_handles::SszSession;
use ssz_handles::giving::say;
use ssz_said::{SszFault, statements};
use std::alloc::Global;

/// Makes a version of a type, of its default value.
#[unsafe(no_mangle)]
pub extern "C" fn ssz_session_new(
    alloc: Global,
    handle: &mut SszSession,
    name: &[u8],
    kind: &[u8],
    fault: &mut SszFault,
) -> u32
    ensures done { IsCall (new_said name.now kind.now) handle.old.held.value
        handle.new.held.value (IsSaid fault.new) }
    ensures status { result ≡ fault.new.status }
{
    say(
        handle.answer(alloc, statements::new(alloc, name, kind)),
        fault,
    )
}

/// Makes a version of a type, of the value that the bytes encode.
#[unsafe(no_mangle)]
pub extern "C" fn ssz_session_load(
    alloc: Global,
    handle: &mut SszSession,
    name: &[u8],
    kind: &[u8],
    bytes: &[u8],
    fault: &mut SszFault,
) -> u32
    ensures done { IsCall (lit_said name.now kind.now bytes.now) handle.old.held.value
        handle.new.held.value (IsSaid fault.new) }
    ensures first { TellsFirst (few_in bytes.now handle.old.held.value) fault.new }
    ensures status { result ≡ fault.new.status }
{
    say(
        handle.answer(alloc, statements::lit(alloc, name, kind, bytes)),
        fault,
    )
}

/// Gives another name the value of a version.
#[unsafe(no_mangle)]
pub extern "C" fn ssz_session_fork(
    alloc: Global,
    handle: &mut SszSession,
    name: &[u8],
    other: &[u8],
    fault: &mut SszFault,
) -> u32
    ensures done { IsCall (fork_said name.now other.now) handle.old.held.value
        handle.new.held.value (IsSaid fault.new) }
    ensures status { result ≡ fault.new.status }
{
    say(
        handle.answer(alloc, statements::fork(alloc, name, other)),
        fault,
    )
}

/// Makes a version of another container, which takes the fields that both types have.
#[unsafe(no_mangle)]
pub extern "C" fn ssz_session_upgrade(
    alloc: Global,
    handle: &mut SszSession,
    name: &[u8],
    other: &[u8],
    kind: &[u8],
    fault: &mut SszFault,
) -> u32
    ensures done { IsCall (upgrade_said name.now other.now kind.now) handle.old.held.value
        handle.new.held.value (IsSaid fault.new) }
    ensures status { result ≡ fault.new.status }
{
    say(
        handle.answer(alloc, statements::upgrade(alloc, name, other, kind)),
        fault,
    )
}

/// Gives a version up.
#[unsafe(no_mangle)]
pub extern "C" fn ssz_session_drop(
    alloc: Global,
    handle: &mut SszSession,
    name: &[u8],
    fault: &mut SszFault,
) -> u32
    ensures done { IsCall (drop_said name.now) handle.old.held.value
        handle.new.held.value (IsSaid fault.new) }
    ensures status { result ≡ fault.new.status }
{
    say(handle.answer(alloc, statements::drop(alloc, name)), fault)
}

/// Puts the value that the bytes encode in the place of the part at a path.
#[unsafe(no_mangle)]
pub extern "C" fn ssz_session_set(
    alloc: Global,
    handle: &mut SszSession,
    name: &[u8],
    path: &[u8],
    bytes: &[u8],
    fault: &mut SszFault,
) -> u32
    ensures done { IsCall (set_said name.now path.now bytes.now) handle.old.held.value
        handle.new.held.value (IsSaid fault.new) }
    ensures first { TellsFirst (few_in bytes.now handle.old.held.value) fault.new }
    ensures status { result ≡ fault.new.status }
{
    say(
        handle.answer(alloc, statements::set(alloc, name, path, bytes)),
        fault,
    )
}

/// Puts the value that the bytes encode behind the others of the list at a path.
#[unsafe(no_mangle)]
pub extern "C" fn ssz_session_append(
    alloc: Global,
    handle: &mut SszSession,
    name: &[u8],
    path: &[u8],
    bytes: &[u8],
    fault: &mut SszFault,
) -> u32
    ensures done { IsCall (append_said name.now path.now bytes.now) handle.old.held.value
        handle.new.held.value (IsSaid fault.new) }
    ensures first { TellsFirst (few_in bytes.now handle.old.held.value) fault.new }
    ensures status { result ≡ fault.new.status }
{
    say(
        handle.answer(alloc, statements::append(alloc, name, path, bytes)),
        fault,
    )
}

/// Takes the last of the list at a path away.
#[unsafe(no_mangle)]
pub extern "C" fn ssz_session_pop(
    alloc: Global,
    handle: &mut SszSession,
    name: &[u8],
    path: &[u8],
    fault: &mut SszFault,
) -> u32
    ensures done { IsCall (pop_said name.now path.now) handle.old.held.value
        handle.new.held.value (IsSaid fault.new) }
    ensures status { result ≡ fault.new.status }
{
    say(
        handle.answer(alloc, statements::pop(alloc, name, path)),
        fault,
    )
}

/// Gives the union at a path an option, with the value that the bytes encode.
///
/// As many parameters as the call of C has arguments.
#[unsafe(no_mangle)]
pub extern "C" fn ssz_session_choose(
    alloc: Global,
    handle: &mut SszSession,
    name: &[u8],
    path: &[u8],
    selector: u8,
    bytes: &[u8],
    fault: &mut SszFault,
) -> u32
    ensures done { IsCall (choose_said name.now path.now selector bytes.now) handle.old.held.value
        handle.new.held.value (IsSaid fault.new) }
    ensures first { TellsFirst (few_in bytes.now handle.old.held.value) fault.new }
    ensures status { result ≡ fault.new.status }
{
    say(
        handle.answer(
            alloc,
            statements::choose(alloc, name, path, selector, bytes),
        ),
        fault,
    )
}

/// Gives the union at a path an option, with its default.
#[unsafe(no_mangle)]
pub extern "C" fn ssz_session_choose_default(
    alloc: Global,
    handle: &mut SszSession,
    name: &[u8],
    path: &[u8],
    selector: u8,
    fault: &mut SszFault,
) -> u32
    ensures done { IsCall (choose_default_said name.now path.now selector) handle.old.held.value
        handle.new.held.value (IsSaid fault.new) }
    ensures status { result ≡ fault.new.status }
{
    say(
        handle.answer(
            alloc,
            statements::choose_default(alloc, name, path, selector),
        ),
        fault,
    )
}

/// Gives up the nodes that no version needs.
#[unsafe(no_mangle)]
pub extern "C" fn ssz_session_compact(
    alloc: Global,
    handle: &mut SszSession,
    fault: &mut SszFault,
) -> u32
    ensures done { IsCall compact_said handle.old.held.value
        handle.new.held.value (IsSaid fault.new) }
    ensures status { result ≡ fault.new.status }
{
    say(handle.answer(alloc, statements::compact()), fault)
}
