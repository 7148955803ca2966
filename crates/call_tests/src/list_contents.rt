// What stop lists and dictionaries hold.
use std::alloc::Global;
use std::test::Fail;
use word_lists::{KeySet, Stems};

/// Whether the stop list holds the key.
fn holds(alloc: Global, list: &str, key: &str) -> Result<bool, Fail> {
    match KeySet::read(alloc, list.as_bytes()) {
        Ok(list) => Ok(list.holds(key)),
        Err(_) => Err(Fail::from("not read")),
    }
}

const HELD: [(&str, &str, bool); 4] = [
    ("The\nCAF\u{C9}\n", "the", true),
    ("The\nCAF\u{C9}\n", "cafe", true),
    ("The\nCAF\u{C9}\n", "The", false),
    ("The\nCAF\u{C9}\n", "of", false),
];

#[test]
fn a_stop_list_holds_keys(rt: HostRuntime) -> Result<(), Fail> {
    for (list, key, held) in HELD {
        assert!(rt; holds(rt.alloc(), list, key)? == held, "{key}");
    }
    Ok(())
}

/// Whether the dictionary has this stem of the key.
fn has_stem(alloc: Global, dictionary: &str, key: &str, stem: &str) -> Result<bool, Fail> {
    match Stems::read(alloc, dictionary.as_bytes()) {
        Ok(stems) => Ok(stems.stem(key) == stem),
        Err(_) => Err(Fail::from("not read")),
    }
}

// A stem is looked up once.
const STEMS: [(&str, &str, &str); 4] = [
    ("Roses Rose\nrose ros\n", "roses", "rose"),
    ("Roses Rose\nrose ros\n", "rose", "ros"),
    ("Roses Rose\nrose ros\n", "ships", "ships"),
    ("", "roses", "roses"),
];

#[test]
fn keys_have_their_stems(rt: HostRuntime) -> Result<(), Fail> {
    for (dictionary, key, stem) in STEMS {
        assert!(rt; has_stem(rt.alloc(), dictionary, key, stem)?, "{key}");
    }
    assert!(rt; Stems::empty(rt.alloc()).stem("roses") == "roses");
    Ok(())
}

/// Whether the dictionary has these keys of the stem, in this order.
fn has_keys(alloc: Global, dictionary: &str, stem: &str, wanted: &[&str]) -> Result<bool, Fail> {
    match Stems::read(alloc, dictionary.as_bytes()) {
        Ok(stems) => Ok(stems.keys_of(alloc, stem)?.as_slice() == wanted),
        Err(_) => Err(Fail::from("not read")),
    }
}

// A stem that has another stem is none of its own keys.
const KEYS: [(&str, &str, &[&str]); 5] = [
    (
        "Roses Rose\nrosy rose\n",
        "rose",
        &["roses", "rosy", "rose"],
    ),
    ("Roses Rose\nrose ros\n", "rose", &["roses"]),
    ("Roses Rose\nrose ros\n", "ros", &["rose", "ros"]),
    ("Roses Rose\nrose ros\n", "ships", &["ships"]),
    ("Roses Rose\n", "roses", &[]),
];

#[test]
fn stems_have_their_keys(rt: HostRuntime) -> Result<(), Fail> {
    for (dictionary, stem, wanted) in KEYS {
        assert!(rt; has_keys(rt.alloc(), dictionary, stem, wanted)?, "{stem}");
    }
    Ok(())
}
