// Each call that takes memory, once where it succeeds. What each line is read as, and how each
// reply is printed, is shown by the rows of the program text_rows.
use ssz_script::{
    PartialStatement, Reply, Statement, Statements, read_line, read_partial, reply_text,
};
use std::alloc::{AllocError, Global};
use std::test::Fail;

// A letter for the kind of statement.
fn letter(statement: &Statement) -> u8 {
    match statement {
        Statement::Drop(_) => b'd',
        Statement::List => b'l',
        _ => b'?',
    }
}

// The same letter. A call of `drop` calls a function for each type below; at the end of a scope all
// these drops would stand in this function, whose proof would take twice as long.
fn kind(statement: Statement) -> u8 {
    let letter = letter(&statement);
    drop(statement);
    letter
}

// The kind of the statement that the line is read as.
fn line_kind(alloc: Global, line: &[u8]) -> Option<u8> {
    match read_line(alloc, line) {
        Ok(Some(statement)) => Some(kind(statement)),
        _ => None,
    }
}

#[test]
fn line(rt: HostRuntime) {
    assert!(rt; line_kind(rt.alloc(), b"drop V") == Some(b'd'));
}

#[test]
fn partial_line(rt: HostRuntime) {
    let read = read_partial(rt.alloc(), b"get /a");
    assert!(rt; matches!(read, Ok(Some(PartialStatement::Get(_)))));
}

// The kind of the first statement of a script.
fn first_kind(alloc: Global, script: &[u8]) -> Option<u8> {
    match Statements::new(script).next(alloc) {
        Ok(Some(next)) => Some(kind(next.statement?)),
        _ => None,
    }
}

#[test]
fn statements(rt: HostRuntime) {
    assert!(rt; first_kind(rt.alloc(), b"list") == Some(b'l'));
}

// Whether this line is printed for the reply.
fn is_printed(alloc: Global, reply: &Reply, line: &[u8]) -> Result<bool, AllocError> {
    let mut out = Vec::new(alloc);
    reply_text(reply, &mut out)?;
    Ok(out.as_slice() == line)
}

#[test]
fn reply(rt: HostRuntime) -> Result<(), Fail> {
    assert!(rt; is_printed(rt.alloc(), &Reply::Len(7), b"len 7\n")?);
    Ok(())
}
