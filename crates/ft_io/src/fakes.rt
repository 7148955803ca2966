// A system for the tests: files and a standard output that give and take as little as they are told to.
ghost use Rattle.std.specs.Prelude.{IsErr};

use std::alloc::Allocator;
use std::fmt::Display;
use std::fs::{Metadata, OpenFile, OpenOptions};
use std::io::{self, Read, Seek, SeekFrom, Write};
use std::rt::Files;

fn unsupported<T>() -> io::Result<T>
    ensures { IsErr result }
{
    Err(io::Error::from(io::ErrorKind::Unsupported))
}

/// Two files, `digits` and `letters`, of ten bytes each. A read gives at most `piece` bytes, the byte at `fault` can't be read,
/// and only where `seeks` is set can a file be read at another place than the next, as a pipe can't.
#[derive(Clone, Copy, Drop)]
pub struct FakeFiles {
    pub piece: usize,
    pub fault: usize,
    pub seeks: bool,
}

#[derive(Drop)]
pub struct FakeFile {
    is_letters: bool,
    at: usize,
    how: FakeFiles,
}

impl Read for FakeFile {
    fn read(&mut self, buf: &mut [u8]) -> io::Result<usize> {
        let bytes = if self.is_letters {
            b"abcdefghij"
        } else {
            b"0123456789"
        };
        let Some(rest) = bytes.get(self.at..) else {
            return Ok(0);
        };
        if self.at >= self.how.fault {
            return unsupported();
        }
        let count = rest
            .len()
            .min(buf.len())
            .min(self.how.piece)
            .min(self.how.fault - self.at);
        buf[..count].copy_from_slice(&rest[..count]);
        self.at += count;
        Ok(count)
    }
}

impl Seek for FakeFile {
    fn seek(&mut self, to: SeekFrom) -> io::Result<u64> {
        match to {
            SeekFrom::Start(at) if self.how.seeks => {
                self.at = at as usize;
                Ok(at)
            }
            _ => unsupported(),
        }
    }
}

impl Write for FakeFile {
    fn write(&mut self, _buf: &[u8]) -> io::Result<usize> {
        unsupported()
    }

    fn flush(&mut self) -> io::Result<()> {
        unsupported()
    }
}

impl OpenFile for FakeFile {
    fn metadata(&self) -> io::Result<Metadata> {
        unsupported()
    }

    fn set_len(&self, _size: u64) -> io::Result<()> {
        unsupported()
    }

    fn sync_all(&self) -> io::Result<()> {
        unsupported()
    }

    fn sync_data(&self) -> io::Result<()> {
        unsupported()
    }
}

impl Files for FakeFiles {
    type File = FakeFile;

    type Dir = FakeFile;

    fn open_file(&self, _how: &OpenOptions, path: &str) -> io::Result<FakeFile> {
        if path != "digits" && path != "letters" {
            return unsupported();
        }
        Ok(FakeFile {
            is_letters: path == "letters",
            at: 0,
            how: *self,
        })
    }

    fn open_dir(&self, _path: &str) -> io::Result<FakeFile> {
        unsupported()
    }

    fn metadata(&self, _path: &str) -> io::Result<Metadata> {
        unsupported()
    }

    fn symlink_metadata(&self, _path: &str) -> io::Result<Metadata> {
        unsupported()
    }

    fn copy(&self, _from: &str, _to: &str) -> io::Result<u64> {
        unsupported()
    }

    fn rename(&self, _from: &str, _to: &str) -> io::Result<()> {
        unsupported()
    }

    fn remove_file(&self, _path: &str) -> io::Result<()> {
        unsupported()
    }

    fn create_dir(&self, _path: &str) -> io::Result<()> {
        unsupported()
    }

    fn remove_dir(&self, _path: &str) -> io::Result<()> {
        unsupported()
    }

    fn remove_dir_all<B: Allocator>(&self, _alloc: B, _path: &str) -> io::Result<()> {
        unsupported()
    }
}

/// A standard output that takes that many bytes of a write of `text`, and fails where that is none.
#[derive(Clone, Copy, Drop)]
pub struct FakeOutput {
    pub takes: Option<usize>,
}

impl Print for FakeOutput {
    fn print<D: Display + Drop>(&self, _value: D) -> io::Result<()> {
        unsupported()
    }

    fn println<D: Display + Drop>(&self, _value: D) -> io::Result<()> {
        unsupported()
    }

    fn write_all(&self, _bytes: &[u8]) -> io::Result<()> {
        unsupported()
    }

    fn write_some(&self, bytes: &[u8]) -> io::Result<usize> {
        match self.takes {
            Some(count) if bytes == b"text".as_slice() => Ok(count.min(bytes.len())),
            _ => unsupported(),
        }
    }
}
