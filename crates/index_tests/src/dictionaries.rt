// What no contract says: that memory suffices. The calls run on terms that fill several blocks, and their answers are
// those that follow from the order in which the terms were made.
use ft_base::{Memory, Span};
use std::alloc::Global;
use std::process::Abort;
use std::test::Fail;
use term_dict::TermDict;

/// How many terms there are: each key has three of them.
const COUNT: usize = 600;

// A term in memory of its own.
#[derive(Drop)]
struct OwnedTerm {
    key: String,
    word: String,
}

// The term of that number in the order of terms.
fn term_of(alloc: Global, number: usize) -> Result<OwnedTerm, Memory> {
    let key = format!(in alloc; "key {:03}", number / 3)?;
    let word = word_of(alloc, number, &key)?;
    Ok(OwnedTerm { key, word })
}

// Its word: every third one is the key.
fn word_of(alloc: Global, number: usize, key: &str) -> Result<String, Memory> {
    if number % 3 == 2 {
        return Ok(String::from_str(alloc, key)?);
    }
    Ok(format!(in alloc; "a word {number:03}")?)
}

// The number of the term that comes so many terms after the first: each number below the count once.
fn shuffled(turn: usize) -> usize {
    turn % COUNT * 7 % COUNT
}

// The dictionary with the terms of so many turns.
fn filled(alloc: Global, turns: usize) -> Result<TermDict, Memory> {
    let mut dict = TermDict::empty(alloc);
    for turn in 0..turns {
        let term = term_of(alloc, shuffled(turn))?;
        let (new, _) = dict.put(&term.key, &term.word)?;
        dict = new;
    }
    Ok(dict)
}

// The dictionary with the terms of the turns from one on up to another more, each under the id of its turn.
fn put_all(
    rt: &impl Abort,
    alloc: Global,
    dict: TermDict,
    from: usize,
    to: usize,
) -> Result<TermDict, Memory> {
    let mut all = dict;
    for turn in from..to {
        assert!(rt; turn < COUNT);
        let term = term_of(alloc, shuffled(turn))?;
        let (new, id) = all.put(&term.key, &term.word)?;
        assert!(rt; id == turn as u32, "{turn}");
        all = new;
    }
    Ok(all)
}

// The term stands at its number, under the id of its turn, and is found there.
fn expect_one(rt: &impl Abort, dict: &TermDict, term: &OwnedTerm, number: usize, turn: usize) {
    assert!(rt; number < dict.len() && number < COUNT && turn < COUNT);
    let read = dict.term(number);
    assert!(rt;
        read.key == term.key.as_str() && read.word == term.word.as_str(),
        "{number}"
    );
    assert!(rt; dict.id(number) == turn as u32, "{number}");
    assert!(rt;
        dict.find_word(&term.key, &term.word) == Some(number),
        "{number}"
    );
    let from = (number / 3 * 3) as u32;
    assert!(rt;
        dict.find(&term.key) == Some(Span { from, to: from + 3 }),
        "{number}"
    );
}

// All terms are in the dictionary.
fn expect_all(rt: &impl Abort, alloc: Global, dict: &TermDict) -> Result<(), Memory> {
    assert!(rt; dict.len() == COUNT && dict.keys() == COUNT / 3);
    for turn in 0..COUNT {
        let number = shuffled(turn);
        let term = term_of(alloc, number)?;
        expect_one(rt, dict, &term, number, turn);
    }
    Ok(())
}

// The id of each turn names its term, whether it is there or not.
fn expect_named(rt: &impl Abort, alloc: Global, dict: &TermDict) -> Result<(), Memory> {
    assert!(rt; dict.given_count() >= COUNT);
    for turn in 0..COUNT {
        let term = term_of(alloc, shuffled(turn))?;
        let read = dict.entry(turn as u32);
        assert!(rt;
            read.key == term.key.as_str() && read.word == term.word.as_str(),
            "{turn}"
        );
    }
    Ok(())
}

// The dictionary without the terms of all turns, from the last to the first.
fn emptied(rt: &impl Abort, alloc: Global, all: &TermDict) -> Result<TermDict, Memory> {
    let mut dict = all.copy()?;
    for turn in 0..COUNT {
        let term = term_of(alloc, shuffled(COUNT - 1 - turn))?;
        dict.take(&term.key, &term.word)?;
        dict.take(&term.key, &term.word)?;
        assert!(rt; dict.len() == COUNT - 1 - turn);
        assert!(rt; dict.find_word(&term.key, &term.word).is_none(), "{turn}");
    }
    Ok(dict)
}

#[test]
fn terms_come_in_at_their_places(rt: HostRuntime) -> Result<(), Fail> {
    let dict = filled(rt.alloc(), COUNT)?;
    expect_all(&rt, rt.alloc(), &dict)?;
    assert!(rt; dict.find("key").is_none() && dict.find("key 0001").is_none());
    assert!(rt; dict.find_word("key 001", "a word").is_none());
    Ok(())
}

#[test]
fn terms_that_are_put_have_the_next_ids(rt: HostRuntime) -> Result<(), Fail> {
    let half = filled(rt.alloc(), COUNT / 2)?;
    let all = put_all(&rt, rt.alloc(), half.copy()?, COUNT / 4, COUNT)?;
    expect_all(&rt, rt.alloc(), &all)?;
    assert!(rt; half.len() == COUNT / 2);
    Ok(())
}

#[test]
fn terms_go_out_and_copies_keep_theirs(rt: HostRuntime) -> Result<(), Fail> {
    let all = filled(rt.alloc(), COUNT)?;
    let none = emptied(&rt, rt.alloc(), &all)?;
    assert!(rt; none.keys() == 0 && none.given_count() == COUNT);
    let (one, _) = none.put("key", "word")?;
    assert!(rt; one.len() > 0 && one.id(0) == COUNT as u32);
    expect_named(&rt, rt.alloc(), &one)?;
    expect_all(&rt, rt.alloc(), &all)?;
    Ok(())
}

#[test]
fn a_term_comes_and_goes_beside_a_dictionary(rt: HostRuntime) -> Result<(), Fail> {
    let dict = filled(rt.alloc(), COUNT)?;
    let more = dict.with("key 001", "word")?;
    let less = more.without("key 001", "word")?;
    assert!(rt; dict.len() == COUNT && more.len() == COUNT + 1 && less.len() == COUNT);
    assert!(rt; dict.find_word("key 001", "word").is_none());
    assert!(rt; more.find_word("key 001", "word") == Some(6));
    assert!(rt; less.find_word("key 001", "word").is_none());
    Ok(())
}
