// The program `ssz`: its words, the files of the system and standard output, handed to the top
// call.
#![tactic(auto)]

use ssz_chunk::ShaPair;
use ssz_outside::{DirFiles, OutSink, Status};
use ssz_tool::run;
use std::alloc::{AllocError, Global};
use std::process::ExitCode;
use std::{env, io};

// The words, or none where they are not all text.
fn words_of(rt: &HostRuntime, alloc: Global) -> Result<Vec<String>, AllocError> {
    match env::args(rt) {
        Ok(words) => words.collect(alloc),
        Err(error) if error.kind() == io::ErrorKind::OutOfMemory => Err(AllocError),
        Err(_) => Ok(Vec::new(alloc)),
    }
}

fn main(rt: HostRuntime) -> ExitCode {
    let alloc = rt.alloc();
    let Ok(words) = words_of(&rt, alloc) else {
        return ExitCode::from(Status::Memory as u8);
    };
    let mut files = DirFiles::new(&rt);
    let mut out = OutSink::new(io::writer(&rt));
    let mut hasher = ShaPair::new();
    let status = run(alloc, &words, &mut files, &mut out, &mut hasher);
    ExitCode::from(status as u8)
}
