ghost use Rattle.std.specs.Prelude.{◌≡◌, ◌+◌, ◌-◌, ◌^◌, ◌<◌, ◌≤◌, ◌++◌, List, ℕ, Some, length, min, take, drop};
ghost use Rattle.std.specs.Prelude.{find, position, option_copied, IfOk, IfSome, IsSome, OnErr, OnOk, is_err};
ghost use Rattle.std.specs.FinMap as map;
ghost use Rattle.ft_io.specs.Faults.{CountsFault};
ghost use Rattle.ft_io.specs.Shelf.{known_bytes, bytes_of, Reads, reached_after};
ghost use Rattle.ft_io.specs.StoredFile.{has_name, files_of};
ghost use Rattle.ft_io.specs.MemoryShelf.{empty_shelf, fails_now, count_read, shelf_after};

use crate::{Failed, Shelf};
use ft_base::{Bytes, Line, Memory};
use std::alloc::Global;
use std::marker::Model;

/// A file in memory.
#[derive(Drop)]
struct StoredFile {
    name: Line,
    bytes: Bytes,
}

/// Files in memory. One read of a chosen number can be made to fail, and reads can be made to give few bytes.
#[derive(Drop)]
pub struct MemoryShelf {
    alloc: Global,
    files: Vec<StoredFile>,
    calls: u64,
    failing: Option<u64>,
    piece: usize,
    faults: u64,
    reached: u64,
}

impl Model for MemoryShelf {
    ghost use Rattle.std.specs.Prelude.{◌≤◌};
    ghost use Rattle.ft_io.specs.MemoryShelf.{Stored, coded_stored};

    ghost Value = { Stored };

    ghost coded = { coded_stored };

    ghost use Rattle.ft_io.specs.StoredFile.{files_of};

    ghost view = { λ shelf. record {
      files = files_of shelf.files.items;
      calls = shelf.calls;
      failing = shelf.failing;
      piece = shelf.piece;
      faults = shelf.faults;
      reached = shelf.reached;
    } };

    ghost invariant = { λ shelf. 1 ≤ shelf.piece };
}

// Where the file of that name stands.
fn place_of(files: &[StoredFile], name: &str) -> Option<usize>
    ensures { result ≡ position (has_name name.now) files.now }
{
    files.iter().position(|file| name == file.name.as_str())
}

// The first file of that name.
fn find_file<'a>(files: &'a [StoredFile], name: &str) -> Option<&'a StoredFile>
    ensures { option_copied result ≡ find (has_name name.now) files.now }
{
    files.iter().find(|file| name == file.name.as_str())
}

#[tactic(auto, using(crate::proofs::StoredFiles::files_replaced, crate::proofs::StoredFiles::files_pushed))]
// Puts the file among the others, in the place of one of its name.
fn put(alloc: Global, files: &mut Vec<StoredFile>, name: &str, bytes: &[u8]) -> Result<(), Memory>
    ensures ok { OnOk result (files_of files.new.items ≡ map.insert (files_of files.old.items) name.now bytes.now) }
    ensures err { OnErr result (files.new.items ≡ files.old.items) }
{
    let file = StoredFile {
        name: Line::read(alloc, name)?,
        bytes: Bytes::from_slice(alloc, bytes)?,
    };
    match place_of(files, name) {
        Some(place) => files[place] = file,
        None => files.push(file)?,
    }
    Ok(())
}

// Copies as many bytes as there are from that place on, and as fit, but no more than `most`, to the front.
fn copy_prefix(bytes: &[u8], at: u64, most: usize, into: &mut [u8]) -> usize
    ensures count { result ≡ min (min (length into.old) most) (length bytes.now - at) }
    ensures prefix { take result into.new ≡ take result (drop at bytes.now) }
{
    let rest = match bytes.get(at as usize..) {
        Some(rest) => rest,
        None => return 0,
    };
    let count = into.len().min(most).min(rest.len());
    into[..count].copy_from_slice(&rest[..count]);
    count
}

impl MemoryShelf {
    /// A shelf without files.
    pub fn new(alloc: Global) -> MemoryShelf
        ensures { result ≡ empty_shelf }
    {
        MemoryShelf {
            alloc,
            files: Vec::new(alloc),
            calls: 0,
            failing: None,
            piece: usize::MAX,
            faults: 0,
            reached: 0,
        }
    }

    /// Adds a file of those bytes. One of the same name is replaced.
    pub fn add(&mut self, name: &str, bytes: &[u8]) -> Result<(), Memory>
        ensures ok { OnOk result (self.new ≡ record self.old { files = map.insert self.old.files name.now bytes.now }) }
        ensures err { OnErr result (self.new ≡ self.old) }
    {
        put(self.alloc, &mut self.files, name, bytes)
    }

    /// Lets the read of that number fail, counted from 1 over all reads of the shelf. It replaces a number set before.
    pub fn fail_call(&mut self, call: u64)
        ensures { self.new ≡ record self.old { failing = Some call } }
    {
        self.failing = Some(call);
    }

    /// From now on a read gives at most that many bytes.
    pub fn set_piece(&mut self, most: usize)
        requires { 1 ≤ most }
        ensures { self.new ≡ record self.old { piece = most } }
    {
        self.piece = most;
    }
}

impl Shelf for MemoryShelf {
    ghost files = { λ shelf. Some shelf.files };

    ghost faults = { λ shelf _. shelf.faults };

    ghost reached = { λ shelf _. shelf.reached };

    #[tactic(auto, using(crate::proofs::StoredFiles::bytes_of_files))]
    fn read_at(&mut self, name: &str, at: u64, into: &mut [u8]) -> Result<usize, Failed>
        requires room { 0 < length into.old }
        requires end { at + length into.old < 2 ^ 64 }
        requires countable { self.old.faults + 1 < 2 ^ 64 }
        ensures failed { is_err result ≡ fails_now self.old name.now }
        ensures count { IfOk result (λ count. IfSome (bytes_of self.old.files name.now) (λ bytes. count ≡ count_read self.old bytes at (length into.old))) }
        ensures after { self.new ≡ shelf_after self.old at result }
        ensures content { IfOk result (λ count. IfSome (bytes_of self.old.files name.now) (λ bytes. Reads bytes at count into.new)) }
    {
        self.calls = self.calls.saturating_add(1);
        let fails = self.failing == Some(self.calls);
        match find_file(&self.files, name) {
            Some(file) if !fails => {
                let count = copy_prefix(file.bytes.as_slice(), at, self.piece, into);
                if count > 0 {
                    self.reached = self.reached.max(at + count as u64);
                }
                Ok(count)
            }
            _ => {
                self.faults += 1;
                Err(Failed)
            }
        }
    }
}
