//! The words and patterns of a query string.

ghost use Rattle.std.specs.Prelude.{◌≡◌, ◌++◌, IfOk, OnOk, map, true};
ghost use Rattle.text_words.specs.Words.{words};
ghost use Rattle.all_matches.specs.Variants.{word};
ghost use Rattle.match_options.specs.Items as spec;

use crate::pattern::is_pattern;
use crate::splitting::parts;
use ft_base::{Items, Line, Memory};
use std::alloc::Global;
use text_words::words_of;

/// What one token of a text has to be.
#[derive(Drop)]
pub enum QueryItem {
    /// A word of the query.
    Word(Line),
    /// A pattern with wildcards, as it is written.
    Pattern(Line),
}

/// The words and patterns of a query string, in order. Without wildcards it has words alone.
pub fn items_of(alloc: Global, wildcards: bool, string: &str) -> Result<Items<QueryItem>, Memory>
    ensures { IfOk result (λ items. map spec.item items ≡ spec.items_of wildcards string.now) }
{
    let mut items = Items::new(alloc);
    if wildcards {
        push_parts(alloc, &mut items, string)?;
    } else {
        push_words(alloc, &mut items, string)?;
    }
    Ok(items)
}

fn push_parts(alloc: Global, items: &mut Items<QueryItem>, string: &str) -> Result<(), Memory>
    ensures { OnOk result (map spec.item items.new ≡ map spec.item items.old ++ spec.items_of true string.now) }
{
    let parts = parts(alloc, string)?;
    for part in parts.as_slice() {
        push_part(alloc, items, part.as_str())?;
    }
    Ok(())
}

fn push_part(alloc: Global, items: &mut Items<QueryItem>, part: &str) -> Result<(), Memory>
    ensures { OnOk result (map spec.item items.new ≡ map spec.item items.old ++ spec.part_items part.now) }
{
    if is_pattern(part) {
        let pattern = Line::read(alloc, part)?;
        items.push(QueryItem::Pattern(pattern))
    } else {
        push_words(alloc, items, part)
    }
}

fn push_words(alloc: Global, items: &mut Items<QueryItem>, text: &str) -> Result<(), Memory>
    ensures { OnOk result (map spec.item items.new ≡ map spec.item items.old ++ spec.word_items text.now) }
{
    let pieces = words_of(alloc, text)?;
    for piece in &pieces {
        let word = Line::read(alloc, &text[piece.from..piece.to])?;
        items.push(QueryItem::Word(word))?;
    }
    Ok(())
}
