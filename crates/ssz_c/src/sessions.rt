// The calls of a session and of its lines.
ghost use Rattle.std.specs.Prelude.{◌≡◌, None};
ghost use Rattle.ssz_said.specs.Outcome.{IsCopied, IsGivenBack};
ghost use Rattle.ssz_handles.specs.Answering.{nodes_in};
ghost use Rattle.ssz_handles.specs.Reading.{freed};
ghost use Rattle.ssz_handles.specs.Session.{IsRun, IsStarted, IsStartedOn, session_reply};

use ssz_handles::giving::{copy, fail, give};
use ssz_handles::{Session, SszSchema, SszSession};
use ssz_said::{SszFault, status};
use std::alloc::Global;

/// Begins a session over the schema that the bytes of a schema file define, with no version. What
/// the handle held before is freed.
#[unsafe(no_mangle)]
pub extern "C" fn ssz_session_start(
    alloc: Global,
    handle: &mut SszSession,
    schema: &[u8],
    fault: &mut SszFault,
) -> u32
    ensures started { IsStarted handle.new.held.value fault.new schema.now }
    ensures status { result ≡ fault.new.status }
{
    drop(handle.take(alloc));
    match Session::boxed(alloc, schema) {
        Ok(session) => {
            handle.put(session);
            fail(status::OK, fault)
        }
        Err(why) => {
            *fault = why;
            why.status
        }
    }
}

/// Begins a session over the schema that another handle holds, which is copied. What the handle
/// held before is freed.
#[unsafe(no_mangle)]
pub extern "C" fn ssz_session_start_on(
    alloc: Global,
    handle: &mut SszSession,
    schema: &mut SszSchema,
    fault: &mut SszFault,
) -> u32
    ensures held { schema.new.held.value ≡ schema.old.held.value }
    ensures started { IsStartedOn schema.old.held.value handle.new.held.value fault.new }
    ensures status { result ≡ fault.new.status }
{
    drop(handle.take(alloc));
    let Some(library) = schema.take(alloc) else {
        return fail(status::NO_HANDLE, fault);
    };
    let answer = Session::boxed_on(alloc, library.schema());
    schema.put(library);
    match answer {
        Ok(session) => {
            handle.put(session);
            fail(status::OK, fault)
        }
        Err(why) => {
            *fault = why;
            why.status
        }
    }
}

/// Does the statement that a line says, and keeps the reply.
#[unsafe(no_mangle)]
pub extern "C" fn ssz_session_run(
    alloc: Global,
    handle: &mut SszSession,
    line: &[u8],
    reply_len: &mut u64,
    fault: &mut SszFault,
) -> u32
    ensures ran { IsRun line.now handle.old.held.value handle.new.held.value reply_len.old
        reply_len.new fault.new }
    ensures status { result ≡ fault.new.status }
{
    let Some(mut session) = handle.take(alloc) else {
        return fail(status::NO_HANDLE, fault);
    };
    let ran = session.run(alloc, line);
    *reply_len = session.reply.len() as u64;
    *fault = ran.fault(session.lines);
    handle.put(session);
    fault.status
}

/// The reply to the last line.
#[unsafe(no_mangle)]
pub extern "C" fn ssz_session_reply(
    alloc: Global,
    handle: &mut SszSession,
    room: &mut [u8],
    reply_len: &mut u64,
    fault: &mut SszFault,
) -> u32
    ensures held { handle.new.held.value ≡ handle.old.held.value }
    ensures reply { IsCopied room.old room.new reply_len.old reply_len.new fault.new
        (session_reply handle.old.held.value) }
    ensures status { result ≡ fault.new.status }
{
    let Some(session) = handle.take(alloc) else {
        return fail(status::NO_HANDLE, fault);
    };
    let status = copy(session.reply.as_slice(), room, reply_len, fault);
    handle.put(session);
    status
}

/// How many nodes there are, those among them that no version needs, and the zero trees.
#[unsafe(no_mangle)]
pub extern "C" fn ssz_session_nodes(
    alloc: Global,
    handle: &mut SszSession,
    count: &mut u64,
    fault: &mut SszFault,
) -> u32
    ensures held { handle.new.held.value ≡ handle.old.held.value }
    ensures count { IsGivenBack count.old count.new fault.new (nodes_in handle.old.held.value) }
    ensures status { result ≡ fault.new.status }
{
    let Some(session) = handle.take(alloc) else {
        return fail(status::NO_HANDLE, fault);
    };
    let nodes = session.engine.node_count() as u64;
    handle.put(session);
    give(Ok(nodes), count, fault)
}

/// Ends the session and frees what it holds.
#[unsafe(no_mangle)]
pub extern "C" fn ssz_session_end(alloc: Global, handle: &mut SszSession) -> u32
    ensures empty { handle.new.held.value ≡ None }
    ensures status { result ≡ freed handle.old.held.value }
{
    match handle.take(alloc) {
        Some(session) => {
            drop(session);
            status::OK
        }
        None => status::NO_HANDLE,
    }
}
