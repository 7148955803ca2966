// The lists that plans are compiled with, by their names.
use plan_compiler::Lists;
use std::alloc::Global;
use std::process::Abort;
use std::test::Fail;
use thesaurus_file::Thesaurus;
use word_lists::{KeySet, Stems};

fn stop_list(alloc: Global, file: &[u8]) -> Result<KeySet, Fail> {
    match KeySet::read(alloc, file) {
        Ok(list) => Ok(list),
        Err(_fault) => Err(Fail::from("a bad line")),
    }
}

fn thesaurus(alloc: Global, file: &[u8]) -> Result<Thesaurus, Fail> {
    match Thesaurus::read(alloc, file) {
        Ok(thesaurus) => Ok(thesaurus),
        Err(_fault) => Err(Fail::from("a bad line")),
    }
}

fn stems(alloc: Global, file: &[u8]) -> Result<Stems, Fail> {
    match Stems::read(alloc, file) {
        Ok(stems) => Ok(stems),
        Err(_fault) => Err(Fail::from("a bad line")),
    }
}

/// Puts two stop lists, a thesaurus and a dictionary of stems.
fn put_lists(alloc: Global, lists: &mut Lists) -> Result<(), Fail> {
    lists.set_stop("e", stop_list(alloc, b"the")?)?;
    lists.set_stop("f", stop_list(alloc, b"of")?)?;
    lists.set_thesaurus("t", thesaurus(alloc, b"r | a | b")?)?;
    lists.set_stems(stems(alloc, b"roses rose")?)?;
    Ok(())
}

/// Puts a stop list and a thesaurus in the places of others, and a new thesaurus.
fn put_further_lists(alloc: Global, lists: &mut Lists) -> Result<(), Fail> {
    lists.set_stop("e", stop_list(alloc, b"an")?)?;
    lists.set_thesaurus("e", thesaurus(alloc, b"r | b | c")?)?;
    lists.set_thesaurus("t", thesaurus(alloc, b"")?)?;
    Ok(())
}

/// A name, and whether a stop list and a thesaurus have it.
type NameRow = (&'static str, bool, bool);

const NAMES: [NameRow; 5] = [
    ("e", true, false),
    ("f", true, false),
    ("t", false, true),
    ("E", false, false),
    ("", false, false),
];

const FURTHER_NAMES: [NameRow; 5] = [
    ("e", true, true),
    ("f", true, false),
    ("t", false, true),
    ("E", false, false),
    ("", false, false),
];

/// Compares which names the lists have, and how many thesauri there are beside two stop lists.
fn expect_names(rt: &impl Abort, lists: &Lists, names: &[NameRow], thesauri: usize) {
    for (name, stop, thesaurus) in names {
        assert!(rt; lists.has_stop(name) == *stop, "{name}");
        assert!(rt; lists.has_thesaurus(name) == *thesaurus, "{name}");
    }
    assert!(rt; lists.stop_count() == 2);
    assert!(rt; lists.thesaurus_count() == thesauri);
}

/// What is put into a copy isn't put into the lists.
fn expect_copy(rt: &impl Abort, alloc: Global, lists: &Lists) -> Result<(), Fail> {
    let mut copy = lists.copy()?;
    let put = put_further_lists(alloc, &mut copy);
    expect_names(rt, &copy, &FURTHER_NAMES, 2);
    std::mem::drop(copy);
    expect_names(rt, lists, &NAMES, 1);
    put
}

fn expect_lists(rt: &impl Abort, alloc: Global, lists: &mut Lists) -> Result<(), Fail> {
    assert!(rt; !lists.has_stop("e"));
    put_lists(alloc, lists)?;
    expect_copy(rt, alloc, lists)?;
    put_further_lists(alloc, lists)?;
    expect_names(rt, lists, &FURTHER_NAMES, 2);
    Ok(())
}

#[test]
fn lists_have_names_by_their_kind(rt: HostRuntime) -> Result<(), Fail> {
    let mut lists = Lists::new(rt.alloc());
    let tried = expect_lists(&rt, rt.alloc(), &mut lists);
    std::mem::drop(lists);
    tried
}
