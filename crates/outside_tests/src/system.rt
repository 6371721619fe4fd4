use crate::halting::{Halting, HaltingFiles};
use crate::reading::{got, reads};
use ssz_outside::{DirFiles, Files, GetFault, Got, OutSink, PutFault, Sink};
use std::alloc::Global;
use std::test::Fail;
use std::{fs, rt};

// Whether a name is given these bytes, gives them at their length, and has too many for one less.
fn keeps<R: rt::Files + Drop>(
    alloc: Global,
    files: &mut DirFiles<R>,
    name: &str,
    (length, less): (u64, u64),
    bytes: &[u8],
) -> bool {
    files.put(name, bytes) == Ok(())
        && reads(alloc, files, name, length, bytes)
        && got(alloc, files, name, less) == Ok(Got::TooLong)
}

// Whether each name keeps what is put to it, a second put of fewer bytes, too.
fn keeps_each<R: rt::Files + Drop>(alloc: Global, files: &mut DirFiles<R>, long: &[u8]) -> bool {
    keeps(alloc, files, "first", (150000, 149999), long)
        && keeps(alloc, files, "second", (2, 1), b"12")
        && keeps(alloc, files, "first", (3, 2), b"345")
}

// Files of the folder in which the tests run.
#[test]
fn keeps_files_of_the_system(rt: HostRuntime) -> Result<(), Fail> {
    let long = vec![in rt.alloc(); 7; 150000]?;
    let mut files = DirFiles::new(&rt);
    assert!(rt; keeps_each(rt.alloc(), &mut files, &long));
    assert!(rt; files.get_faults() == 0 && files.put_faults() == 0);
    fs::remove_file(&rt, "first")?;
    fs::remove_file(&rt, "second")?;
    Ok(())
}

// Whether a name is no file to read.
fn fails<R: rt::Files + Drop>(alloc: Global, files: &mut DirFiles<R>, name: &str) -> bool {
    got(alloc, files, name, 70000) == Err(GetFault::Failed)
}

// An endless file is too long; an absent name and a folder are no files to read; and a file needs
// a folder to stand in.
#[test]
fn counts_faults_of_the_system(rt: HostRuntime) {
    let mut files = DirFiles::new(&rt);
    assert!(rt; got(rt.alloc(), &mut files, "/dev/zero", 70000) == Ok(Got::TooLong));
    assert!(rt; fails(rt.alloc(), &mut files, "absent"));
    assert!(rt; fails(rt.alloc(), &mut files, "."));
    assert!(rt; files.put("absent/file", b"bytes") == Err(PutFault::Failed));
    assert!(rt; files.get_faults() == 2 && files.put_faults() == 1);
}

// What `get` answers, or `put`, and how many faults were counted.
type Answer<T, E> = (Result<T, E>, u64);

// Whether files that give so many bytes, and then fail, answer so to a `get`.
fn gives(alloc: Global, left: u8, max: u64, (answer, faults): Answer<Got, GetFault>) -> bool {
    let mut files = DirFiles::new(HaltingFiles { left });
    got(alloc, &mut files, "any", max) == answer && files.get_faults() == faults
}

// Whether files that take so many answer so to a `put` of three bytes.
fn takes(left: u8, (answer, faults): Answer<(), PutFault>) -> bool {
    let mut files = DirFiles::new(HaltingFiles { left });
    files.put("any", b"123") == answer && files.put_faults() == faults
}

// Whether a sink over such a stream answers so to a `put` of three bytes.
fn prints(left: u8, (answer, faults): Answer<(), PutFault>) -> bool {
    let mut out = OutSink::new(Halting::new(left));
    out.put(b"123") == answer && out.faults() == faults
}

// Streams that a signal interrupts, through files of the system and a writer of std: an interrupted
// call is made again, and any other failure in mid-stream is a failure.
#[test]
fn goes_on_after_a_signal(rt: HostRuntime) {
    assert!(rt; gives(rt.alloc(), 4, 3, (Ok(Got::TooLong), 0)));
    assert!(rt; gives(rt.alloc(), 3, 3, (Err(GetFault::Failed), 1)));
    assert!(rt; takes(3, (Ok(()), 0)));
    assert!(rt; takes(2, (Err(PutFault::Failed), 1)));
    assert!(rt; prints(3, (Ok(()), 0)));
    assert!(rt; prints(2, (Err(PutFault::Failed), 1)));
}
