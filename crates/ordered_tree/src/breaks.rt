//! Where the sentences and the paragraphs of a document start, by what is known of its texts.

ghost use Rattle.std.specs.Prelude.{◌≡◌, ◌<◌, ◌+◌, ◌^◌, length, slice_index_or, Some, IfOk, OnOk};
ghost use Rattle.plain_tree.specs.Document.{text};
ghost use Rattle.text_words.specs.Words.{words};
ghost use Rattle.tokenizer.specs.Parts.{parts};
ghost use Rattle.tokenizer.specs.Tokens.{tokens, sentence_starts, paragraph_starts};
ghost use Rattle.tokenizer.specs.steps.StartsLeft.{words_seen};
ghost use Rattle.ordered_tree.specs.Counts.{word_count, word_counts};
ghost use Rattle.ordered_tree.specs.Numbered.{plain, plain_children};
ghost use Rattle.ordered_tree.specs.Slots.{IsRow, node_at, row};
ghost use Rattle.ordered_tree.specs.steps.Gathering.{parts_of};
ghost use Rattle.ordered_tree.specs.steps.Parts.{slot_of};
ghost use Rattle.ordered_tree.specs.steps.Passing.{Passes};

use crate::shared_text::SharedText;
use crate::slot::Held;
use crate::slots::{SlotAt, Slots};
use crate::{DocTree, NodeRef};
use ft_base::{Breaks, Memory};
use std::alloc::Global;
use tokenizer::{Starts, TokenFault};
use word_lists::KeySet;

impl DocTree {
    /// The places, counted from 1, of the tokens at which sentences and paragraphs start under a set of abbreviations. No text is read but the words
    /// before periods, and none of these where there are no abbreviations.
    pub fn breaks(&self, abbreviations: &KeySet) -> Result<Breaks, Memory>
        ensures sentences { IfOk result (λ breaks. breaks.sentences ≡ sentence_starts (tokens abbreviations.now (plain self.now.root))) }
        ensures paragraphs { IfOk result (λ breaks. breaks.paragraphs ≡ paragraph_starts (tokens abbreviations.now (plain self.now.root))) }
    {
        let mut starts = Starts::new(self.alloc);
        pass_node(
            self.alloc,
            &self.slots,
            abbreviations,
            NodeRef(0),
            self.slots.get(0),
            &mut starts,
        )?;
        Ok(starts.into_breaks())
    }
}

/// Goes past a node, whose slot was read, and all below it.
#[cycle(breaks)]
fn pass_node(
    alloc: Global,
    slots: &Slots,
    abbreviations: &KeySet,
    here: NodeRef,
    slot: SlotAt<'_>,
    starts: &mut Starts,
) -> Result<(), Memory>
    requires row { IsRow slots.now (Some here) }
    requires slot { slot_of slot ≡ slice_index_or slots.now here.0 (slot_of slot) }
    requires few { words_seen starts.old + word_count (plain (node_at slots.now here)) < 2 ^ 31 }
    ensures passed { OnOk result (Passes starts.old (parts abbreviations.now (plain (node_at slots.now here))) starts.new) }
    ensures counted { OnOk result (words_seen starts.new ≡ words_seen starts.old + word_count (plain (node_at slots.now here))) }
{
    match slot.held {
        Held::Text { text } => pass_text(alloc, text, abbreviations, starts),
        Held::Element { name, .. } => {
            starts.pass_tag(name.as_str());
            pass_nodes(alloc, slots, abbreviations, slot.first_child, starts)?;
            starts.pass_tag(name.as_str());
            Ok(())
        }
        Held::Free => unreachable!(),
    }
}

/// Goes past the nodes from a link on, and all below them.
#[cycle(breaks)]
fn pass_nodes(
    alloc: Global,
    slots: &Slots,
    abbreviations: &KeySet,
    first: Option<NodeRef>,
    starts: &mut Starts,
) -> Result<(), Memory>
    requires row { IsRow slots.now first }
    requires few { words_seen starts.old + word_counts (plain_children (row slots.now first)) < 2 ^ 31 }
    ensures passed { OnOk result (Passes starts.old (parts_of abbreviations.now (plain_children (row slots.now first))) starts.new) }
    ensures counted { OnOk result (words_seen starts.new ≡ words_seen starts.old + word_counts (plain_children (row slots.now first))) }
{
    let mut link = first;
    while let Some(here) = link {
        let slot = slots.get(here.0 as usize);
        pass_node(alloc, slots, abbreviations, here, slot, starts)?;
        link = slot.around.next;
    }
    Ok(())
}

/// Goes past a text.
fn pass_text(
    alloc: Global,
    content: &SharedText,
    abbreviations: &KeySet,
    starts: &mut Starts,
) -> Result<(), Memory>
    requires { words_seen starts.old + length (words content.now) < 2 ^ 31 }
    ensures passed { OnOk result (Passes starts.old (parts abbreviations.now (text content.now)) starts.new) }
    ensures counted { OnOk result (words_seen starts.new ≡ words_seen starts.old + length (words content.now)) }
{
    match starts.pass_known(
        alloc,
        content.as_str(),
        content.starts(),
        abbreviations,
        2_147_483_647,
    ) {
        Ok(()) => Ok(()),
        Err(TokenFault::Tokens) => unreachable!(),
        Err(TokenFault::Memory) => Err(Memory),
    }
}
