ghost use Rattle.std.specs.Prelude.{◌≡◌, ◌+◌, ◌^◌, ◌<◌, ◌≤◌, length, IfOk};
ghost use Rattle.ft_io.specs.Faults.{CountsFault};
ghost use Rattle.ft_io.specs.FileShelf.{new_counts, counts_after};

use crate::{Failed, Shelf};
use std::alloc::Global;
use std::fs;
use std::io::{self, Read, Seek, SeekFrom};
use std::marker::Model;
use std::rt::Files;

// A file that was opened, and the place at which its next byte is read.
#[derive(Drop)]
struct OpenedFile<F> {
    name: String,
    file: F,
    at: u64,
}

/// The files of the operating system. The file that was read last stays open, so that reads at places one after the other
/// serve what can't be read anywhere else, as a pipe. What the files hold isn't known.
#[derive(Drop)]
pub struct FileShelf<R: Files> {
    rt: R,
    alloc: Global,
    opened: Option<OpenedFile<R::File>>,
    faults: u64,
    reached: u64,
}

impl<R: Files> Model for FileShelf<R> {
    ghost use Rattle.ft_io.specs.FileShelf.{Counts};

    ghost Value = { Counts };

    ghost view = { λ shelf. record { faults = shelf.faults; reached = shelf.reached } };
}

// Opens the file of that name at its start.
fn open_file<R: Files>(rt: &R, alloc: Global, name: &str) -> io::Result<OpenedFile<R::File>> {
    Ok(OpenedFile {
        name: String::from_str(alloc, name)?,
        file: fs::open(rt, name)?,
        at: 0,
    })
}

// Reads from that place on.
fn read_opened<F: Read + Seek>(
    opened: &mut OpenedFile<F>,
    at: u64,
    into: &mut [u8],
) -> io::Result<usize>
    requires { at + length into.old < 2 ^ 64 }
    ensures { IfOk result (λ count. count ≤ length into.old) }
{
    if opened.at != at {
        opened.file.seek(SeekFrom::Start(at))?;
    }
    let count = opened.file.read(into)?;
    opened.at = at + count as u64;
    Ok(count)
}

impl<R: Files + Drop> FileShelf<R> {
    /// A shelf of the files that the runtime reaches. It opens a file when it is read first.
    pub fn new(rt: R, alloc: Global) -> FileShelf<R>
        ensures { result ≡ new_counts }
    {
        FileShelf {
            rt,
            alloc,
            opened: None,
            faults: 0,
            reached: 0,
        }
    }

    // Takes the file of that name out, opened now where it isn't the one read last.
    fn take_opened(&mut self, name: &str) -> io::Result<OpenedFile<R::File>>
        ensures { self.new ≡ self.old }
    {
        match self.opened.take() {
            Some(opened) if opened.name.as_str() == name => Ok(opened),
            _ => open_file(&self.rt, self.alloc, name),
        }
    }
}

impl<R: Files + Drop> Shelf for FileShelf<R> {
    ghost use Rattle.std.specs.Prelude.{None};

    ghost files = { λ _. None };

    ghost faults = { λ shelf _. shelf.faults };

    ghost reached = { λ shelf _. shelf.reached };

    fn read_at(&mut self, name: &str, at: u64, into: &mut [u8]) -> Result<usize, Failed>
        requires room { 0 < length into.old }
        requires end { at + length into.old < 2 ^ 64 }
        requires countable { self.old.faults + 1 < 2 ^ 64 }
        ensures within { IfOk result (λ count. count ≤ length into.old) }
        ensures counts { self.new ≡ counts_after self.old at result }
    {
        if let Ok(mut opened) = self.take_opened(name) {
            if let Ok(count) = read_opened(&mut opened, at, into) {
                self.opened = Some(opened);
                if count > 0 {
                    self.reached = self.reached.max(at + count as u64);
                }
                return Ok(count);
            }
        }
        self.faults += 1;
        Err(Failed)
    }
}
