ghost use Rattle.std.specs.Prelude.{◌≡◌, ◌+◌, ◌≤◌, ◌<◌, ◌^◌, ◌∷◌, [], List, length, None, Err, IfOk, OnOk};
ghost use Rattle.tokenizer.specs.Parts.{Part, gap_tag, parts_of_text};
ghost use Rattle.tokenizer.specs.Tokens.{tokens_from, sentence_starts, paragraph_starts};
ghost use Rattle.text_words.specs.Words.{words};
ghost use Rattle.tokenizer.specs.steps.StartsLeft.{words_seen, sentences_in, paragraphs_in};

use crate::leaf::LeafWords;
use crate::names::Names;
use crate::shared_name::SharedName;
use crate::shared_text::SharedText;
use crate::{Leaves, NodeRef};
use ft_base::{Breaks, LeafId, Line, Memory};
use std::alloc::Global;
use tokenizer::{Starts, TextRead, TokenFault};
use word_lists::KeySet;

/// What was read of a document's texts, as far as it was passed: the leaves, and where sentences and paragraphs start under a set of
/// abbreviations.
#[derive(Drop)]
pub(crate) struct TextsRead<'a> {
    alloc: Global,
    abbreviations: &'a KeySet,
    leaves: Leaves,
    /// The last leaf.
    last: Option<LeafId>,
    starts: Starts,
    names: Names,
    /// How many words the document may have.
    most: u32,
    ghost few: { words_seen starts ≤ most },
    ghost countable: { most < 2 ^ 31 },
}

impl<'a> TextsRead<'a> {
    ghost use Rattle.ordered_tree.specs.steps.Gathering.{Gathers};

    /// Before the document.
    pub(crate) fn new(alloc: Global, abbreviations: &'a KeySet, most: u32) -> TextsRead<'a>
        requires { most < 2 ^ 31 }
        ensures leaves { result.leaves ≡ [] }
        ensures last { result.last ≡ None }
        ensures sentences { (rest : List Part) →
            sentences_in result.starts rest ≡ sentence_starts (tokens_from 1 1 rest) }
        ensures paragraphs { (rest : List Part) →
            paragraphs_in result.starts rest ≡ paragraph_starts (tokens_from 1 1 rest) }
        ensures words { words_seen result.starts ≡ 0 }
        ensures most { result.most ≡ most }
        ensures abbreviations { result.abbreviations.now ≡ abbreviations.now }
    {
        TextsRead {
            alloc,
            abbreviations,
            leaves: Leaves::new(alloc),
            last: None,
            starts: Starts::new(alloc),
            names: Names::new(alloc),
            most,
        }
    }

    /// Goes past a tag of an element of this name.
    pub(crate) fn pass_tag(&mut self, name: &str)
        ensures gathers { Gathers self.old [] (gap_tag name.now ∷ []) self.new }
        ensures words { words_seen self.new.starts ≡ words_seen self.old.starts }
    {
        self.starts.pass_tag(name);
    }

    /// Goes past the first tag of an element of this name, and gives the name back as the elements of the document share it.
    pub(crate) fn pass_first_tag(&mut self, name: Line) -> Result<SharedName, Memory>
        ensures gathers { Gathers self.old [] (gap_tag name ∷ []) self.new }
        ensures words { words_seen self.new.starts ≡ words_seen self.old.starts }
        ensures name { IfOk result (λ shared. shared ≡ name) }
    {
        self.starts.pass_tag(name.as_str());
        self.names.share(self.alloc, name)
    }

    /// Goes past the text of a node, and gives it back with what is known of its words.
    pub(crate) fn pass_text(&mut self, node: NodeRef, text: Line) -> Result<SharedText, TokenFault>
        ensures gathers { OnOk result (Gathers self.old ((node, text) ∷ []) (parts_of_text self.old.abbreviations.now text) self.new) }
        ensures text { IfOk result (λ shared. shared ≡ text) }
        ensures counted { OnOk result (words_seen self.new.starts ≡ words_seen self.old.starts + length (words text)) }
        ensures full { result ≡ Err TokenFault.Tokens → self.old.most < words_seen self.old.starts + length (words text) }
    {
        let read = self
            .starts
            .pass_text(self.alloc, text.as_str(), self.abbreviations, self.most)?;
        let TextRead { words, starts } = read;
        let shared = SharedText::with_starts(self.alloc, text, starts)?;
        let leaf = LeafId(node.0);
        self.leaves.push(LeafWords {
            leaf,
            after: self.last,
            words,
        })?;
        self.last = Some(leaf);
        Ok(shared)
    }

    /// The leaves and the places, where the document ends here.
    pub(crate) fn into_parts(self) -> (Leaves, Breaks)
        ensures leaves { result.0 ≡ self.entry.leaves }
        ensures sentences { result.1.sentences ≡ sentences_in self.entry.starts [] }
        ensures paragraphs { result.1.paragraphs ≡ paragraphs_in self.entry.starts [] }
    {
        (self.leaves, self.starts.into_breaks())
    }
}
