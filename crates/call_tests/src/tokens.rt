// Words, and tokens with the numbers of their sentences and paragraphs: that the definitions give what Unicode's test data and
// worked examples have.
use doc_profile::read_doc;
use ft_base::Line;
use plain_tree::{Attrs, Kids, PlainDoc, Tree};
use std::alloc::Global;
use std::process::Abort;
use std::test::Fail;
use text_words::{Piece, count_words, words_of};
use tokenizer::{Token, breaks_of, tokens_of, tokens_of_tree};
use word_lists::KeySet;

/// Compares the words of the text with those that have bars between them.
fn expect_words(rt: &impl Abort, alloc: Global, text: &str, wanted: &str) -> Result<(), Fail> {
    let pieces = words_of(alloc, text)?;
    assert!(rt; count_words(text)? == pieces.len(), "{text}");
    let mut joined = String::new(alloc);
    for Piece { from, to } in pieces {
        if !joined.is_empty() {
            joined.push('|')?;
        }
        joined.push_str(text.get(from..to).unwrap_or("?"))?;
    }
    assert!(rt; joined.as_str() == wanted, "{text}");
    Ok(())
}

// First the rules of UAX #29, section 4, as WordBreakTest.txt has them, each at a text where it decides.
const WORDS: [(&str, &str); 18] = [
    ("", ""),
    ("can't 3.14", "can't|3.14"),
    ("'tis e.g. the dogs' x", "tis|e.g|the|dogs|x"),
    ("1,234.5-6 a:b a,b", "1,234.5|6|a:b|a|b"),
    ("snake_case_1 _x_ ___", "snake_case_1|_x_"),
    ("10\u{202F}000 \u{202F}", "10\u{202F}000"),
    ("한국어 조선", "한국어|조선"),
    ("カタカナ ひら", "カタカナ|ひ|ら"),
    ("漢字 A4判", "漢|字|A4|判"),
    ("x👍🏽y 👩\u{200D}👩\u{200D}👧", "x|y"),
    ("🇩🇪🇫🇷a", "a"),
    (
        "\u{301}a e\u{301}t\u{E9} so\u{AD}ft",
        "a|e\u{301}t\u{E9}|so\u{AD}ft",
    ),
    ("צה\"ל", "צה\"ל"),
    ("a\u{200B}b\r\nc", "a|b|c"),
    // A number of any kind (Nd, Nl, No) makes a word; what is alphabetic without being a letter or a number does not.
    ("½ Ⅷ ② ٣", "½|Ⅷ|②|٣"),
    ("\u{24B6} \u{345} \u{93E}", ""),
    ("- -- (?) © € +", ""),
    ("ª ʰ ǅ", "ª|ʰ|ǅ"),
];

#[test]
fn words_are_found_by_word_boundaries(rt: HostRuntime) -> Result<(), Fail> {
    for (text, wanted) in WORDS {
        expect_words(&rt, rt.alloc(), text, wanted)?;
    }
    Ok(())
}

/// How many words `a`, the text a million times, and `z` have.
fn words_in_a_million(alloc: Global, text: &str) -> Result<usize, Fail> {
    let mut all = String::from_str(alloc, "a")?;
    for _ in 0..1_000_000 {
        all.push_str(text)?;
    }
    all.push_str("z")?;
    Ok(count_words(all.as_str())?)
}

// In linear time a million characters take some milliseconds, and in quadratic time some minutes.
const LONG: [(&str, usize); 4] = [("a", 1), ("\u{301}", 1), ("'", 2), ("字", 1_000_002)];

#[test]
fn long_texts_take_linear_time(rt: HostRuntime) -> Result<(), Fail> {
    for (text, count) in LONG {
        assert!(rt; words_in_a_million(rt.alloc(), text)? == count, "{text}");
    }
    Ok(())
}

/// A word with the numbers of its sentence and its paragraph.
type Numbered = (&'static str, u32, u32);

fn are(tokens: &[Token], wanted: &[Numbered]) -> bool {
    tokens.len() == wanted.len()
        && tokens.iter().zip(wanted).all(|(token, (word, sentence, paragraph))| {
            token.word.as_str() == *word
                && token.sentence == *sentence
                && token.paragraph == *paragraph
        })
}

fn document_of(alloc: Global, text: &str) -> Result<PlainDoc, Fail> {
    match read_doc(alloc, text.as_bytes()) {
        Ok(doc) => Ok(doc),
        Err(_) => Err(Fail::from("no document")),
    }
}

/// The tokens of an element or a text by itself, under no abbreviations.
fn tokens(alloc: Global, tree: &Tree) -> Result<Vec<Token>, Fail> {
    match tokens_of_tree(alloc, tree, &KeySet::empty(alloc)) {
        Ok(tokens) => Ok(tokens),
        Err(_) => Err(Fail::from("too many tokens")),
    }
}

/// A document, its tokens, and those at which its sentences and its paragraphs start.
type TokenRow = (
    &'static str,
    &'static [Numbered],
    &'static [u32],
    &'static [u32],
);

/// Compares the tokens of the document under the abbreviations, and those at which its sentences and its paragraphs start.
fn expect_tokens(
    rt: &impl Abort,
    alloc: Global,
    abbreviations: &KeySet,
    row: TokenRow,
) -> Result<(), Fail> {
    let (document, wanted, sentences, paragraphs) = row;
    let doc = document_of(alloc, document)?;
    let Ok(tokens) = tokens_of(alloc, &doc, abbreviations) else {
        return Err(Fail::from("too many tokens"));
    };
    assert!(rt; are(tokens.as_slice(), wanted), "{document}");
    let breaks = breaks_of(alloc, &doc, abbreviations)?;
    assert!(rt; breaks.sentences.as_slice() == sentences, "{document}");
    assert!(rt; breaks.paragraphs.as_slice() == paragraphs, "{document}");
    Ok(())
}

const TOKENS: [TokenRow; 2] = [
    (
        "<d><p>x y</p>z. w<p/>v</d>",
        &[
            ("x", 1, 1),
            ("y", 1, 1),
            ("z", 2, 2),
            ("w", 3, 2),
            ("v", 4, 3),
        ],
        &[1, 3, 4, 5],
        &[1, 3, 5],
    ),
    // no token crosses a tag
    (
        "<a>wo<b>r</b>d</a>",
        &[("wo", 1, 1), ("r", 1, 1), ("d", 1, 1)],
        &[1],
        &[1],
    ),
];

#[test]
fn tokens_have_their_sentences_and_paragraphs(rt: HostRuntime) -> Result<(), Fail> {
    let abbreviations = KeySet::empty(rt.alloc());
    for row in TOKENS {
        expect_tokens(&rt, rt.alloc(), &abbreviations, row)?;
    }
    Ok(())
}

// Behind an abbreviation one period ends no sentence, where it stands directly behind it and in its text.
const SPARED: [TokenRow; 12] = [
    (
        "<a>Dr. Hill</a>",
        &[("Dr", 1, 1), ("Hill", 1, 1)],
        &[1],
        &[1],
    ),
    (
        "<a>dr. d\u{D3}CT. y</a>",
        &[("dr", 1, 1), ("d\u{D3}CT", 1, 1), ("y", 1, 1)],
        &[1],
        &[1],
    ),
    (
        "<a>Use e.g. this. Go</a>",
        &[("Use", 1, 1), ("e.g", 1, 1), ("this", 1, 1), ("Go", 2, 1)],
        &[1, 4],
        &[1],
    ),
    (
        "<a>Dr. e.g. Dr. y</a>",
        &[("Dr", 1, 1), ("e.g", 1, 1), ("Dr", 1, 1), ("y", 1, 1)],
        &[1],
        &[1],
    ),
    ("<a>Dr.<b/>y</a>", &[("Dr", 1, 1), ("y", 1, 1)], &[1], &[1]),
    (
        "<a>Dr<b/>. y</a>",
        &[("Dr", 1, 1), ("y", 2, 1)],
        &[1, 2],
        &[1],
    ),
    (
        "<a>(Dr). y</a>",
        &[("Dr", 1, 1), ("y", 2, 1)],
        &[1, 2],
        &[1],
    ),
    ("<a>Dr . y</a>", &[("Dr", 1, 1), ("y", 2, 1)], &[1, 2], &[1]),
    ("<a>Dr.. y</a>", &[("Dr", 1, 1), ("y", 2, 1)], &[1, 2], &[1]),
    ("<a>Dr.? y</a>", &[("Dr", 1, 1), ("y", 2, 1)], &[1, 2], &[1]),
    ("<a>Dr! y</a>", &[("Dr", 1, 1), ("y", 2, 1)], &[1, 2], &[1]),
    (
        "<a>Dr.\n\ny<p/>Dr.</a>",
        &[("Dr", 1, 1), ("y", 2, 2), ("Dr", 3, 3)],
        &[1, 2, 3],
        &[1, 2, 3],
    ),
];

#[test]
fn a_period_behind_an_abbreviation_ends_no_sentence(rt: HostRuntime) -> Result<(), Fail> {
    let Ok(abbreviations) = KeySet::read(rt.alloc(), b"DR.\ne.g.\ndoct.\n") else {
        return Err(Fail::from("not read"));
    };
    for row in SPARED {
        expect_tokens(&rt, rt.alloc(), &abbreviations, row)?;
    }
    Ok(())
}

/// Compares the tokens of the root's child of that number, counted from 0.
fn expect_tokens_of_child(
    rt: &impl Abort,
    alloc: Global,
    document: &str,
    number: usize,
    wanted: &[Numbered],
) -> Result<(), Fail> {
    let doc = document_of(alloc, document)?;
    match doc.root() {
        Tree::Elem { kids, .. } => {
            assert!(rt; number < kids.len(), "{document}");
            let tokens = tokens(alloc, kids.get(number))?;
            assert!(rt; are(tokens.as_slice(), wanted), "{document}");
        }
        Tree::Text { .. } => return Err(Fail::from("no element")),
    }
    Ok(())
}

const CHILDREN: [(&str, usize, &[Numbered]); 2] = [
    ("<d>u. <p>z. w</p>v</d>", 1, &[("z", 1, 1), ("w", 2, 1)]),
    ("<d>u. <p>z. w</p>v</d>", 2, &[("v", 1, 1)]),
];

#[test]
fn a_node_counts_its_own_tokens(rt: HostRuntime) -> Result<(), Fail> {
    for (document, number, wanted) in CHILDREN {
        expect_tokens_of_child(&rt, rt.alloc(), document, number, wanted)?;
    }
    Ok(())
}

/// Whether the last token is a `y` with these numbers.
fn ends_with(tokens: &[Token], sentence: u32, paragraph: u32) -> bool {
    match tokens.last() {
        Some(last) => {
            last.word.as_str() == "y" && last.sentence == sentence && last.paragraph == paragraph
        }
        None => false,
    }
}

/// Compares the numbers of the document's last token, which is a `y`.
fn expect_last(
    rt: &impl Abort,
    alloc: Global,
    document: &str,
    sentence: u32,
    paragraph: u32,
) -> Result<(), Fail> {
    let doc = document_of(alloc, document)?;
    let tokens = tokens(alloc, doc.root())?;
    assert!(rt;
        ends_with(tokens.as_slice(), sentence, paragraph),
        "{document}"
    );
    Ok(())
}

// A gap is one run of characters, whatever tags stand in it; it holds no token here.
const GAPS: [(&str, u32, u32); 17] = [
    ("<a>x <b/> y</a>", 1, 1),
    ("<a>x. <b/>y</a>", 2, 1),
    ("<a>x<b>!</b>y</a>", 2, 1),
    ("<a>x<b/>?)y</a>", 2, 1),
    ("<a>x; <b>:</b>\u{2026} y</a>", 1, 1),
    ("<a>x 3.14 e.g <b/>y</a>", 1, 1),
    ("<a>x\n<b/>\ny</a>", 2, 2),
    ("<a>x\n \t<b> </b>\ny</a>", 2, 2),
    ("<a>x - \n\n<b/>- y</a>", 2, 2),
    ("<a>x\n<b/> y</a>", 1, 1),
    ("<a>x\n&#13;<b/>\ny</a>", 1, 1),
    ("<a>x\n\u{A0}<b/>\ny</a>", 1, 1),
    ("<a>x\n\u{200B}<b/>\ny</a>", 1, 1),
    ("<a>x\n.<b/>\ny</a>", 2, 1),
    ("<a>x <p/> y</a>", 2, 2),
    ("<a>x <h3>. </h3> y</a>", 2, 2),
    ("<a>x <P/> y</a>", 1, 1),
];

#[test]
fn gaps_end_sentences_and_paragraphs(rt: HostRuntime) -> Result<(), Fail> {
    for (document, sentence, paragraph) in GAPS {
        expect_last(&rt, rt.alloc(), document, sentence, paragraph)?;
    }
    Ok(())
}

/// The texts `x` and `y` with an empty element of that name between them.
fn around(alloc: Global, name: &str) -> Result<Tree, Fail> {
    let mut kids = Kids::new(alloc);
    kids.push(Tree::Text {
        text: Line::read(alloc, "x")?,
    })?;
    kids.push(Tree::Elem {
        name: Line::read(alloc, name)?,
        attrs: Attrs::new(alloc),
        kids: Kids::new(alloc),
    })?;
    kids.push(Tree::Text {
        text: Line::read(alloc, "y")?,
    })?;
    Ok(Tree::Elem {
        name: Line::read(alloc, "a")?,
        attrs: Attrs::new(alloc),
        kids,
    })
}

const BLOCK_ELEMENTS: [&str; 41] = [
    "abstract",
    "address",
    "article",
    "aside",
    "blockquote",
    "body",
    "book",
    "caption",
    "chapter",
    "dd",
    "div",
    "dl",
    "dt",
    "figure",
    "footer",
    "h1",
    "h2",
    "h3",
    "h4",
    "h5",
    "h6",
    "head",
    "header",
    "li",
    "main",
    "nav",
    "note",
    "ol",
    "p",
    "para",
    "part",
    "pre",
    "preface",
    "row",
    "section",
    "table",
    "td",
    "th",
    "title",
    "tr",
    "ul",
];

const OTHER_ELEMENTS: [&str; 9] = ["", "P", "b", "span", "h7", "em", "paras", "sectio", "tbody"];

/// Compares how many paragraphs the texts on both sides of an element of that name are.
fn expect_paragraphs(
    rt: &impl Abort,
    alloc: Global,
    name: &str,
    paragraphs: u32,
) -> Result<(), Fail> {
    let tree = around(alloc, name)?;
    let tokens = tokens(alloc, &tree)?;
    assert!(rt;
        ends_with(tokens.as_slice(), paragraphs, paragraphs),
        "{name}"
    );
    Ok(())
}

#[test]
fn tags_of_block_elements_part_paragraphs(rt: HostRuntime) -> Result<(), Fail> {
    for name in BLOCK_ELEMENTS {
        expect_paragraphs(&rt, rt.alloc(), name, 2)?;
    }
    for name in OTHER_ELEMENTS {
        expect_paragraphs(&rt, rt.alloc(), name, 1)?;
    }
    Ok(())
}
