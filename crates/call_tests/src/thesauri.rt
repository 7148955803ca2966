// What thesauri reach from a phrase, by levels and relations.
use std::alloc::Global;
use std::process::Abort;
use std::test::Fail;
use thesaurus_file::{Levels, Phrase, Thesaurus};

/// The phrase of the keys between spaces.
fn phrase(alloc: Global, keys: &str) -> Result<Phrase, Fail> {
    let mut phrase = Phrase::new(alloc);
    for key in keys.split_whitespace() {
        phrase.push(alloc, key)?;
    }
    Ok(phrase)
}

/// The phrases, with commas between them.
fn joined(alloc: Global, phrases: &[Phrase]) -> Result<String, Fail> {
    let mut text = String::new(alloc);
    for phrase in phrases {
        if !text.is_empty() {
            text.push_str(", ")?;
        }
        for number in 0..phrase.len() {
            if number > 0 {
                text.push_str(" ")?;
            }
            text.push_str(phrase.get(number))?;
        }
    }
    Ok(text)
}

/// A thesaurus, a phrase, a relation, the first and the last level, and the phrases that are reached.
type Expansion = (
    &'static str,
    &'static str,
    Option<&'static str>,
    u32,
    Option<u32>,
    &'static str,
);

fn expect_expansion(rt: &impl Abort, alloc: Global, row: &Expansion) -> Result<(), Fail> {
    let (file, keys, relation, from, to, wanted) = row;
    let Ok(thesaurus) = Thesaurus::read(alloc, file.as_bytes()) else {
        return Err(Fail::from("not read"));
    };
    let start = phrase(alloc, keys)?;
    let levels = Levels {
        from: *from,
        to: *to,
    };
    let reached = thesaurus.expand(alloc, &start, *relation, &levels)?;
    let text = joined(alloc, reached.as_slice())?;
    assert!(rt; text.as_str() == *wanted, "{file}");
    Ok(())
}

const CHAIN: &str = "r | a | b\nr | b | c";

const CIRCLE: &str = "r | a | b\nr | b | c\nr | c | a\nr | b | a\nr | a | a";

const RELATIONS: &str =
    "syn | a | b\nnarrow term | b | c\n\tsyn | c | d\r\nsyn|b|e\nSyn | a | f\nnarrow term | a | d";

const KEYS: &str = "syn | New-York | the \u{C9}tat, Stra\u{DF}e!\nsyn | new york city | x";

const EXPANSIONS: [Expansion; 24] = [
    (CHAIN, "a", None, 1, Some(1), "a, b"),
    (CHAIN, "a", None, 0, Some(2), "a, b, c"),
    (CHAIN, "a", None, 1, None, "a, b, c"),
    (CHAIN, "a", None, 2, Some(2), "a, c"),
    (CHAIN, "a", None, 2, None, "a, c"),
    (CHAIN, "a", None, 0, Some(0), "a"),
    (CHAIN, "a", None, 3, None, "a"),
    (CHAIN, "a", None, 2, Some(1), "a"),
    (CIRCLE, "a", None, 1, None, "a, b, c"),
    (CIRCLE, "a", None, 3, None, "a"),
    (
        "r | a | d\nr | d | e\nr | a | b\nr | b | c\nr | c | e",
        "a",
        None,
        1,
        None,
        "a, b, d, c, e",
    ),
    (
        "r | a | z\nr | a | y x\nr | a | y\nr | a | z",
        "a",
        None,
        1,
        None,
        "a, y, y x, z",
    ),
    ("r | x | a\nr | ab | c", "a", None, 1, None, "a"),
    ("", "a", None, 1, None, "a"),
    // each line has the relation that is asked for, letter for letter
    (RELATIONS, "a", None, 1, None, "a, b, d, f, c, e"),
    (RELATIONS, "a", Some("syn"), 1, None, "a, b, e"),
    (RELATIONS, "a", Some("Syn"), 1, None, "a, f"),
    (RELATIONS, "a", Some("narrow term"), 1, None, "a, d"),
    (RELATIONS, "a", Some("narrow  term"), 1, None, "a"),
    (RELATIONS, "a", Some(""), 1, None, "a"),
    // phrases are compared by their keys
    (
        KEYS,
        "new york",
        None,
        1,
        None,
        "new york, the etat strasse",
    ),
    (KEYS, "New York", None, 1, None, "New York"),
    (KEYS, "new", None, 1, None, "new"),
    (KEYS, "", None, 1, None, ""),
];

#[test]
fn phrases_are_reached_by_levels_and_relations(rt: HostRuntime) -> Result<(), Fail> {
    for row in EXPANSIONS {
        expect_expansion(&rt, rt.alloc(), &row)?;
    }
    Ok(())
}
