ghost use Rattle.std.specs.Prelude.{◌≡◌, ◌≤◌, ◌<◌, List, ◌∷◌, ◌++◌, length, Err, IfOk, OnOk};
ghost use Rattle.plain_tree.specs.View.{node};
ghost use Rattle.tokenizer.specs.Parts.{Part, word, parts_of_text};
ghost use Rattle.tokenizer.specs.steps.Numbering.{tokens_left};
ghost use Rattle.tokenizer.specs.Tokens.{tokens, words_in};

use crate::behind::characters_behind;
use crate::numbering::Numbering;
use crate::segments::Segments;
use crate::walk::{Event, Walk};
use ft_base::{Line, MAX_TOKENS, Memory, Token};
use plain_tree::{PlainDoc, Tree};
use std::alloc::{AllocFailed, Global};
use word_lists::KeySet;

/// Why a document's tokens are not given.
#[derive(Clone, Copy, PartialEq, Eq)]
pub enum TokenFault {
    /// The document has more than `MAX_TOKENS` tokens.
    Tokens,
    Memory,
}

impl From<Memory> for TokenFault {
    ghost use Rattle.std.specs.Prelude.{◌≡◌};
    ghost use Rattle.tokenizer.specs.declared.tokens.TokenFault.TheVariants as Fault;

    ghost from_gives = { λ _ fault. fault ≡ Fault.Memory };

    fn from(_memory: Memory) -> TokenFault {
        TokenFault::Memory
    }
}

impl From<AllocFailed<Token>> for TokenFault {
    ghost use Rattle.std.specs.Prelude.{◌≡◌};
    ghost use Rattle.tokenizer.specs.declared.tokens.TokenFault.TheVariants as Fault;

    ghost from_gives = { λ _ fault. fault ≡ Fault.Memory };

    fn from(_failed: AllocFailed<Token>) -> TokenFault {
        TokenFault::Memory
    }
}

/// The tokens of the document, in order. A period directly behind an abbreviation ends no sentence. `Tokens` comes where the document
/// has more than `MAX_TOKENS` words.
pub fn tokens_of(
    alloc: Global,
    doc: &PlainDoc,
    abbreviations: &KeySet,
) -> Result<Vec<Token>, TokenFault>
    ensures tokens { IfOk result (λ out. out.items ≡ tokens abbreviations.now doc.now) }
    ensures few { OnOk result (length (words_in doc.now) ≤ MAX_TOKENS) }
    ensures full { result ≡ Err TokenFault.Tokens → MAX_TOKENS < length (words_in doc.now) }
{
    tokens_of_tree(alloc, doc.root(), abbreviations)
}

/// The tokens of an element or a text by itself, in order: sentences and paragraphs count from its own first token. `Tokens` comes where
/// it has more than `MAX_TOKENS` words.
pub fn tokens_of_tree(
    alloc: Global,
    tree: &Tree,
    abbreviations: &KeySet,
) -> Result<Vec<Token>, TokenFault>
    ensures tokens { IfOk result (λ out. out.items ≡ tokens abbreviations.now (node tree.now)) }
    ensures few { OnOk result (length (words_in (node tree.now)) ≤ MAX_TOKENS) }
    ensures full { result ≡ Err TokenFault.Tokens → MAX_TOKENS < length (words_in (node tree.now)) }
{
    let mut out = Vec::new(alloc);
    let mut last = Numbering::new();
    let mut walk = Walk::new(alloc, tree);
    while let Some(event) = walk.next()? {
        match event {
            Event::Tag(name) => last.pass_tag(name),
            Event::Text(text) => push_tokens(alloc, &mut out, &mut last, text, abbreviations)?,
        }
    }
    Ok(out)
}

/// Puts the tokens of a text to the end.
fn push_tokens(
    alloc: Global,
    out: &mut Vec<Token>,
    last: &mut Numbering,
    text: &str,
    abbreviations: &KeySet,
) -> Result<(), TokenFault>
    requires few { length out.old.items ≤ MAX_TOKENS }
    requires sentence { last.old.sentence ≤ length out.old.items }
    requires paragraph { last.old.paragraph ≤ length out.old.items }
    ensures ok { OnOk result ((rest : List Part) →
        out.old.items ++ tokens_left last.old (parts_of_text abbreviations.now text.now ++ rest)
        ≡ out.new.items ++ tokens_left last.new rest) }
    ensures full { result ≡ Err TokenFault.Tokens → (rest : List Part) → MAX_TOKENS
        < length (out.old.items ++ tokens_left last.old (parts_of_text abbreviations.now text.now ++ rest)) }
    ensures few { OnOk result (length out.new.items ≤ MAX_TOKENS) }
    ensures sentence { OnOk result (last.new.sentence ≤ length out.new.items) }
    ensures paragraph { OnOk result (last.new.paragraph ≤ length out.new.items) }
{
    let mut segments = Segments::new(text)?;
    while let Some(segment) = segments.next() {
        if segment.is_word {
            push_token(alloc, out, last, segment.text)?;
        } else {
            last.pass_characters(characters_behind(
                alloc,
                text,
                segment.before,
                segment.text,
                abbreviations,
            )?);
        }
    }
    Ok(())
}

/// Puts the token of a word to the end.
fn push_token(
    alloc: Global,
    out: &mut Vec<Token>,
    last: &mut Numbering,
    text: &str,
) -> Result<(), TokenFault>
    requires few { length out.old.items ≤ MAX_TOKENS }
    requires sentence { last.old.sentence ≤ length out.old.items }
    requires paragraph { last.old.paragraph ≤ length out.old.items }
    ensures ok { OnOk result ((rest : List Part) → out.old.items ++ tokens_left last.old (word text.now ∷ rest)
        ≡ out.new.items ++ tokens_left last.new rest) }
    ensures full { result ≡ Err TokenFault.Tokens → MAX_TOKENS ≤ length out.old.items }
    ensures few { OnOk result (length out.new.items ≤ MAX_TOKENS) }
    ensures sentence { OnOk result (last.new.sentence ≤ length out.new.items) }
    ensures paragraph { OnOk result (last.new.paragraph ≤ length out.new.items) }
{
    if out.len() >= MAX_TOKENS {
        return Err(TokenFault::Tokens);
    }
    let word = Line::read(alloc, text)?;
    last.pass_word();
    out.push(Token {
        word,
        sentence: last.sentence,
        paragraph: last.paragraph,
    })?;
    Ok(())
}
