// What no contract says: that memory suffices, and what the operating system's forms do.
ghost use Rattle.std.specs.Prelude.{◌≡◌, ◌+◌, ◌<◌, ◌≤◌};

use crate::fakes::{FakeFiles, FakeOutput};
use crate::{Failed, FileShelf, MemoryShelf, MemorySink, Shelf, Sink, StdSink};
use std::fs;
use std::process::Abort;
use std::rt::Files;
use std::test::Fail;

/// A read of that name at that place, and the bytes that it gives; no bytes where it fails.
type Wanted = (&'static str, u16, Option<&'static [u8]>);

// Whether a read that answered so gave those bytes.
fn gave(answer: Result<usize, Failed>, into: &[u8; 8], bytes: Option<&[u8]>) -> bool {
    match (answer, bytes) {
        (Ok(count), Some(bytes)) => into.get(..count) == Some(bytes),
        (Err(Failed), None) => true,
        _ => false,
    }
}

// Reads once, into a buffer of eight bytes.
fn expect_file<R: Files + Drop>(rt: &impl Abort, shelf: &mut FileShelf<R>, wanted: Wanted)
    requires faults { shelf.old.faults < 1000 }
    ensures faults { shelf.new.faults ≤ shelf.old.faults + 1 }
{
    let (name, at, bytes) = wanted;
    let mut into = [0u8; 8];
    let answer = shelf.read_at(name, u64::from(at), &mut into);
    assert!(rt; gave(answer, &into, bytes), "{name} at {at}");
}

#[test]
fn a_file_of_the_system_is_read_piece_by_piece(rt: HostRuntime) {
    let whole = FakeFiles {
        piece: 100,
        fault: 100,
        seeks: true,
    };
    let pipe = FakeFiles {
        piece: 3,
        fault: 100,
        seeks: false,
    };
    let broken = FakeFiles {
        piece: 3,
        fault: 5,
        seeks: true,
    };
    let tables: [(FakeFiles, [Wanted; 4]); 5] = [
        (
            whole,
            [
                ("digits", 0, Some(b"01234567")),
                ("digits", 8, Some(b"89")),
                ("digits", 10, Some(b"")),
                ("digits", 11, Some(b"")),
            ],
        ),
        (
            whole,
            [
                ("digits", 0, Some(b"01234567")),
                ("letters", 8, Some(b"ij")),
                ("digits", 8, Some(b"89")),
                ("digits", 4, Some(b"456789")),
            ],
        ),
        (
            pipe,
            [
                ("digits", 0, Some(b"012")),
                ("digits", 3, Some(b"345")),
                ("digits", 6, Some(b"678")),
                ("digits", 9, Some(b"9")),
            ],
        ),
        (
            pipe,
            [
                ("digits", 0, Some(b"012")),
                ("letters", 0, Some(b"abc")),
                ("letters", 3, Some(b"def")),
                ("letters", 4, None),
            ],
        ),
        (
            broken,
            [
                ("digits", 0, Some(b"012")),
                ("digits", 3, Some(b"34")),
                ("digits", 5, None),
                ("absent", 0, None),
            ],
        ),
    ];
    for (files, [first, second, third, fourth]) in tables {
        let mut shelf = FileShelf::new(files, rt.alloc());
        expect_file(&rt, &mut shelf, first);
        expect_file(&rt, &mut shelf, second);
        expect_file(&rt, &mut shelf, third);
        expect_file(&rt, &mut shelf, fourth);
    }
}

// Reads once, into a buffer of eight bytes.
fn expect_memory(rt: &impl Abort, shelf: &mut MemoryShelf, wanted: Wanted)
    requires faults { shelf.old.faults < 1000 }
    ensures faults { shelf.new.faults ≤ shelf.old.faults + 1 }
{
    let (name, at, bytes) = wanted;
    let mut into = [0u8; 8];
    let answer = shelf.read_at(name, u64::from(at), &mut into);
    assert!(rt; gave(answer, &into, bytes), "{name} at {at}");
}

#[test]
fn the_forms_in_memory_find_room(rt: HostRuntime) -> Result<(), Fail> {
    let mut shelf = MemoryShelf::new(rt.alloc());
    shelf.add("log", b"first")?;
    shelf.add("log", b"0123456789")?;
    shelf.fail_call(2);
    expect_memory(&rt, &mut shelf, ("log", 4, Some(b"456789")));
    expect_memory(&rt, &mut shelf, ("log", 4, None));
    expect_memory(&rt, &mut shelf, ("lo", 0, None));

    let mut sink = MemorySink::new(rt.alloc(), 6)?;
    sink.fail_after(3);
    assert!(rt; sink.write(b"text") == Ok(3));
    assert!(rt; sink.write(b"text") == Err(Failed));
    assert!(rt; sink.written() == b"tex".as_slice());
    Ok(())
}

#[test]
fn a_file_of_the_real_system_is_read(rt: HostRuntime) -> Result<(), Fail> {
    fs::write(&rt, "log.txt", b"0123456789")?;
    let reads: [Wanted; 4] = [
        ("absent.txt", 0, None),
        (".", 0, None),
        ("log.txt", 8, Some(b"89")),
        ("log.txt", 4, Some(b"456789")),
    ];
    for wanted in reads {
        let mut shelf = FileShelf::new(rt, rt.alloc());
        expect_file(&rt, &mut shelf, wanted);
    }
    fs::remove_file(&rt, "log.txt")?;
    Ok(())
}

#[test]
fn standard_output_takes_what_the_system_takes(rt: HostRuntime) {
    let table = [
        (Some(1), Ok(1)),
        (Some(3), Ok(3)),
        (Some(9), Ok(4)),
        (Some(0), Err(Failed)),
        (None, Err(Failed)),
    ];
    for (takes, wanted) in table {
        let mut sink = StdSink::new(FakeOutput { takes });
        assert!(rt; sink.write(b"text") == wanted, "{takes:?}");
    }
    assert!(rt; StdSink::new(rt).write(b"text").is_ok());
}
