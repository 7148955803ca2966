ghost use Rattle.std.specs.Prelude.{◌≡◌, ◌∷◌, ◌++◌, [], if◌then◌else◌, fold, Ok, IfErr, IfOk, OnOk};
ghost use Rattle.std.specs.BTreeSet.{insert_key};
ghost use Rattle.std.specs.Option.{option_copied};
ghost use Rattle.word_lists.specs.Adding.{Added, IsFault};
ghost use Rattle.thesaurus_file.specs.Expansion.{expanded};
ghost use Rattle.thesaurus_file.specs.Lines.{thesaurus_of, with_line};
ghost use Rattle.thesaurus_file.specs.Links.{is_wanted, links_from, with_link};
ghost use Rattle.thesaurus_file.specs.Phrases.{phrase_cmp};
ghost use Rattle.thesaurus_file.specs.steps.Walks.{level_after, unseen_ends};

use crate::levels::Levels;
use crate::link::Link;
use crate::parse::parse_line;
use crate::phrase::Phrase;
use ft_base::{Items, ListFault, Memory};
use std::alloc::Global;
use std::collections::{BTreeMap, BTreeSet};
use std::marker::Model;
use text_lines::ContentLines;

/// A thesaurus, which contracts see as the phrases that its lines begin with, in their order, each with where these lines lead.
#[derive(Drop)]
pub struct Thesaurus {
    links: BTreeMap<Phrase, Items<Link>>,
}

impl Model for Thesaurus {
    ghost use Rattle.thesaurus_file.specs.Links.{Links};

    ghost Value = { Links };

    ghost view = { λ thesaurus. thesaurus.links.entries };
}

impl Thesaurus {
    /// A thesaurus without lines.
    pub fn empty(alloc: Global) -> Thesaurus
        ensures { result ≡ [] }
    {
        Thesaurus {
            links: BTreeMap::new(alloc),
        }
    }

    /// Reads a thesaurus: in each line that isn't empty and no comment a relation, a phrase and a phrase to which it leads, with
    /// `|` between them. `BadLine` is the first line that hasn't just two bars, has a blank relation or a phrase without a word, or
    /// has bytes that aren't UTF-8.
    pub fn read(alloc: Global, bytes: &[u8]) -> Result<Thesaurus, ListFault>
        ensures ok { IfOk result (λ thesaurus. thesaurus_of bytes.now ≡ Ok thesaurus) }
        ensures err { IfErr result (λ fault. IsFault fault (thesaurus_of bytes.now)) }
    {
        let mut thesaurus = Thesaurus::empty(alloc);
        let mut lines = ContentLines::of(bytes);
        while let Some(line) = lines.next() {
            match thesaurus.add_line(alloc, line.text) {
                Ok(true) => {}
                Ok(false) => return Err(ListFault::BadLine { line: line.number }),
                Err(Memory) => return Err(ListFault::Memory),
            }
        }
        Ok(thesaurus)
    }

    /// The phrase, and those that lines lead to from it, by level and then in their order. The level of a phrase is the least
    /// number of lines that lead to it, each with the relation where one is given; those in the range are reached.
    pub fn expand(
        &self,
        alloc: Global,
        phrase: &Phrase,
        relationship: Option<&str>,
        levels: &Levels,
    ) -> Result<Vec<Phrase>, Memory>
        ensures { IfOk result (λ phrases. phrases.items ≡ expanded self.now (option_copied relationship.entry) levels.now phrase.now) }
    {
        let mut reached = Vec::new(alloc);
        reached.push(phrase.copy(alloc)?)?;
        let mut level = only(alloc, phrase)?;
        let mut seen = only(alloc, phrase)?;
        for passed in 0..levels.last_within(self.links.len()) {
            if level.is_empty() {
                return Ok(reached);
            }
            level = self.next_level(alloc, &level, relationship, &seen)?;
            push_level(alloc, &mut reached, &level, levels.hold(passed + 1))?;
            insert_level(alloc, &mut seen, &level)?;
        }
        Ok(reached)
    }

    /// Adds what the line says, unless it is bad.
    fn add_line(&mut self, alloc: Global, line: &[u8]) -> Result<bool, Memory>
        ensures { IfOk result (λ added. Added added (with_line self.old line.now) self.new) }
    {
        let Some((from, link)) = parse_line(alloc, line)? else {
            return Ok(false);
        };
        self.add_link(alloc, from, link)?;
        Ok(true)
    }

    /// Adds a link of the phrase.
    fn add_link(&mut self, alloc: Global, from: Phrase, link: Link) -> Result<(), Memory>
        ensures { OnOk result (self.new ≡ with_link self.old (from, link)) }
    {
        if let Some(links) = self.links.get_mut(&from) {
            return links.push(link);
        }
        let mut links = Items::new(alloc);
        links.push(link)?;
        self.links.insert(from, links)?;
        Ok(())
    }

    /// Where the lines that begin with the phrase lead.
    fn links_from(&self, phrase: &Phrase) -> &[Link]
        ensures { result.now ≡ links_from self.now phrase.now }
    {
        match self.links.get(phrase) {
            Some(links) => links.as_slice(),
            None => &[],
        }
    }

    /// The phrases to which one line leads from those of a level, but for those that are seen.
    fn next_level(
        &self,
        alloc: Global,
        level: &BTreeSet<Phrase>,
        relationship: Option<&str>,
        seen: &BTreeSet<Phrase>,
    ) -> Result<BTreeSet<Phrase>, Memory>
        ensures { IfOk result (λ next. next.keys ≡ level_after self.now (option_copied relationship.entry) seen.now.keys level.now.keys) }
    {
        let mut next = BTreeSet::new(alloc);
        for phrase in level {
            insert_ends(
                alloc,
                &mut next,
                self.links_from(phrase),
                relationship,
                seen,
            )?;
        }
        Ok(next)
    }
}

/// The set of the phrase alone.
fn only(alloc: Global, phrase: &Phrase) -> Result<BTreeSet<Phrase>, Memory>
    ensures { IfOk result (λ set. set.keys ≡ phrase.now ∷ []) }
{
    let mut set = BTreeSet::new(alloc);
    set.insert(phrase.copy(alloc)?)?;
    Ok(set)
}

/// Puts the phrases of a level at the end, where it is asked for.
fn push_level(
    alloc: Global,
    reached: &mut Vec<Phrase>,
    level: &BTreeSet<Phrase>,
    asked: bool,
) -> Result<(), Memory>
    ensures { OnOk result (reached.new.items ≡ reached.old.items ++ (if asked then level.now.keys else [])) }
{
    if !asked {
        return Ok(());
    }
    for phrase in level {
        reached.push(phrase.copy(alloc)?)?;
    }
    Ok(())
}

/// Puts the phrases of a level into the set.
fn insert_level(
    alloc: Global,
    seen: &mut BTreeSet<Phrase>,
    level: &BTreeSet<Phrase>,
) -> Result<(), Memory>
    ensures { OnOk result (seen.new.keys ≡ fold (insert_key phrase_cmp) seen.old.keys level.now.keys) }
{
    for phrase in level {
        seen.insert(phrase.copy(alloc)?)?;
    }
    Ok(())
}

/// Puts the phrases to which wanted links lead into the set, but for those that are seen.
fn insert_ends(
    alloc: Global,
    next: &mut BTreeSet<Phrase>,
    links: &[Link],
    relationship: Option<&str>,
    seen: &BTreeSet<Phrase>,
) -> Result<(), Memory>
    ensures { OnOk result (next.new.keys
        ≡ fold (insert_key phrase_cmp) next.old.keys (unseen_ends (option_copied relationship.entry) seen.now.keys links.now)) }
{
    for link in links {
        insert_end(alloc, next, link, relationship, seen)?;
    }
    Ok(())
}

/// Puts the phrase to which the link leads into the set, if the link is wanted and the phrase isn't seen.
fn insert_end(
    alloc: Global,
    next: &mut BTreeSet<Phrase>,
    link: &Link,
    relationship: Option<&str>,
    seen: &BTreeSet<Phrase>,
) -> Result<(), Memory>
    ensures { OnOk result (next.new.keys
        ≡ fold (insert_key phrase_cmp) next.old.keys (unseen_ends (option_copied relationship.entry) seen.now.keys (link.now ∷ []))) }
{
    if !is_wanted(link, relationship) {
        return Ok(());
    }
    if seen.contains(&link.to) {
        return Ok(());
    }
    next.insert(link.to.copy(alloc)?)?;
    Ok(())
}

/// Whether the link has the relation that is asked for, where one is.
fn is_wanted(link: &Link, relationship: Option<&str>) -> bool
    ensures { result ≡ is_wanted (option_copied relationship.entry) link.now }
{
    match relationship {
        Some(relation) => relation.as_bytes() == link.relation.as_slice(),
        None => true,
    }
}
