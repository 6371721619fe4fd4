// Files and streams that signals interrupt.
ghost use Rattle.std.specs.Prelude.{◌≤◌, IfOk};

use std::alloc::Allocator;
use std::fs::{Files, Metadata, OpenFile, OpenOptions};
use std::io;
use std::io::{Empty, Error, ErrorKind, Read, Seek, SeekFrom, Write};

// A stream that a signal interrupts at every second call, that gives or takes a byte at the
// others, and that fails once its bytes are used up.
#[derive(Drop)]
pub struct Halting {
    interrupts: bool,
    left: u8,
}

impl Halting {
    pub fn new(left: u8) -> Self {
        Halting {
            interrupts: true,
            left,
        }
    }

    fn next(&mut self) -> io::Result<usize>
        ensures { IfOk result (λ count. count ≤ 1) }
    {
        self.interrupts = !self.interrupts;
        if !self.interrupts {
            return Err(Error::from(ErrorKind::Interrupted));
        }
        if self.left == 0 {
            return Err(Error::from(ErrorKind::Other));
        }
        self.left -= 1;
        Ok(1)
    }
}

impl Read for Halting {
    fn read(&mut self, buffer: &mut [u8]) -> io::Result<usize> {
        let count = self.next()?;
        Ok(count.min(buffer.len()))
    }
}

impl Write for Halting {
    fn write(&mut self, bytes: &[u8]) -> io::Result<usize> {
        let count = self.next()?;
        Ok(count.min(bytes.len()))
    }

    fn flush(&mut self) -> io::Result<()> {
        Ok(())
    }
}

// Nothing below is asked of a file that is only read or written.
fn unsupported<T>() -> io::Result<T> {
    Err(Error::from(ErrorKind::Unsupported))
}

impl Seek for Halting {
    fn seek(&mut self, _to: SeekFrom) -> io::Result<u64> {
        unsupported()
    }
}

impl OpenFile for Halting {
    fn metadata(&self) -> io::Result<Metadata> {
        unsupported()
    }

    fn set_len(&self, _size: u64) -> io::Result<()> {
        unsupported()
    }

    fn sync_all(&self) -> io::Result<()> {
        unsupported()
    }

    fn sync_data(&self) -> io::Result<()> {
        unsupported()
    }
}

// Files of which each is such a stream.
#[derive(Drop)]
pub struct HaltingFiles {
    pub left: u8,
}

impl Files for HaltingFiles {
    type File = Halting;

    type Dir = Empty;

    fn open_file(&self, _how: &OpenOptions, _path: &str) -> io::Result<Halting> {
        Ok(Halting::new(self.left))
    }

    fn open_dir(&self, _path: &str) -> io::Result<Empty> {
        unsupported()
    }

    fn metadata(&self, _path: &str) -> io::Result<Metadata> {
        unsupported()
    }

    fn symlink_metadata(&self, _path: &str) -> io::Result<Metadata> {
        unsupported()
    }

    fn copy(&self, _from: &str, _to: &str) -> io::Result<u64> {
        unsupported()
    }

    fn rename(&self, _from: &str, _to: &str) -> io::Result<()> {
        unsupported()
    }

    fn remove_file(&self, _path: &str) -> io::Result<()> {
        unsupported()
    }

    fn create_dir(&self, _path: &str) -> io::Result<()> {
        unsupported()
    }

    fn remove_dir(&self, _path: &str) -> io::Result<()> {
        unsupported()
    }

    fn remove_dir_all<B: Allocator>(&self, _alloc: B, _path: &str) -> io::Result<()> {
        unsupported()
    }
}
