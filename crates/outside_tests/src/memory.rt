use crate::reading::{got, reads};
use ssz_outside::{
    Files, GetFault, Got, MemFiles, MemSink, PutFault, QuietFiles, QuietSink, Sink, Status,
    say_line,
};
use std::alloc::{AllocError, Global};
use std::test::Fail;

const LINE: &str = "root 0xf5a5fd42d16a20302798ef6ed309979b43003d2320d9f0e8ea9831a92759fb4b\n";

const HALF_LINE: &[u8] = b"root 0xf5a5fd42d16a20302798ef6ed3099";

// Whether the line, said to a MemSink at which the put of this number fails, ends with this status
// and faults, and the sink has taken these bytes.
fn is_said(
    alloc: Global,
    fails: u64,
    status: Status,
    faults: u64,
    taken: &[u8],
) -> Result<bool, AllocError> {
    let mut out = MemSink::new(alloc, &[fails])?;
    let said = say_line(LINE, Status::Accepted, &mut out);
    Ok(said == status && out.faults() == faults && out.taken() == taken)
}

// At a sink whose first put fails, and at one whose second put fails.
#[test]
fn says_a_line(rt: HostRuntime) -> Result<(), Fail> {
    let alloc = rt.alloc();
    assert!(rt; is_said(alloc, 1, Status::WriteFault, 1, HALF_LINE)?);
    assert!(rt; is_said(alloc, 2, Status::Accepted, 0, LINE.as_bytes())?);
    Ok(())
}

#[test]
fn says_lines_that_none_prints(rt: HostRuntime) -> Result<(), Fail> {
    let mut quiet = QuietSink::new(rt.alloc())?;
    assert!(rt; say_line("usage\n", Status::Usage, &mut quiet) == Status::Usage);
    assert!(rt; say_line(LINE, Status::Refused, &mut quiet) == Status::Refused);
    assert!(rt; quiet.taken().len() == 78);
    Ok(())
}

// The codes that the program ends with.
const CODES: [(Status, u8); 7] = [
    (Status::Accepted, 0),
    (Status::Refused, 1),
    (Status::Usage, 2),
    (Status::SchemaFault, 3),
    (Status::ReadFault, 4),
    (Status::WriteFault, 5),
    (Status::Memory, 6),
];

#[test]
fn numbers_the_statuses(rt: HostRuntime) {
    for (status, code) in &CODES {
        assert!(rt; *status as u8 == *code);
    }
}

// Files that hold a, and of which the third call fails.
fn third_fails(alloc: Global) -> Result<MemFiles, AllocError> {
    let mut files = MemFiles::new(alloc, &[3])?;
    files.give("a", b"given")?;
    Ok(files)
}

// Whether a put fails that is the third call, after two gets, and leaves half of its bytes.
fn put_fails(alloc: Global, files: &mut MemFiles) -> bool {
    reads(alloc, files, "a", 5, b"given")
        && got(alloc, files, "absent", 5) == Err(GetFault::Failed)
        && files.put("a", b"other") == Err(PutFault::Failed)
        && files.held("a") == Some(b"ot".as_slice())
}

// Whether the calls after it are done.
fn goes_on(alloc: Global, files: &mut MemFiles) -> bool {
    files.put("b", b"more") == Ok(())
        && got(alloc, files, "b", 3) == Ok(Got::TooLong)
        && files.held("absent").is_none()
}

// Gets and puts are counted together: the third call is a put, and fails.
#[test]
fn fails_at_listed_calls(rt: HostRuntime) -> Result<(), Fail> {
    let mut files = third_fails(rt.alloc())?;
    assert!(rt; put_fails(rt.alloc(), &mut files));
    assert!(rt; goes_on(rt.alloc(), &mut files));
    assert!(rt; files.get_faults() == 1 && files.put_faults() == 1);
    Ok(())
}

// Whether the files give these bytes of a name, and tell that it holds them.
fn holds(alloc: Global, files: &mut QuietFiles, name: &str, bytes: &[u8]) -> bool {
    reads(alloc, files, name, 5, bytes) && files.held(name) == Some(bytes)
}

// Files that were given the bytes of a name, and to which those of another were put.
fn given(alloc: Global) -> Result<QuietFiles, Fail> {
    let mut files = QuietFiles::new(alloc)?;
    files.give("a", b"given")?;
    match files.put("b", b"put") {
        Ok(()) => Ok(files),
        Err(_) => Err("not put".into()),
    }
}

// A name that was never given holds no bytes.
#[test]
fn holds_no_absent_name(rt: HostRuntime) -> Result<(), Fail> {
    let mut files = given(rt.alloc())?;
    assert!(rt; holds(rt.alloc(), &mut files, "a", b"given"));
    assert!(rt; holds(rt.alloc(), &mut files, "b", b"put"));
    assert!(rt; holds(rt.alloc(), &mut files, "absent", b""));
    Ok(())
}
