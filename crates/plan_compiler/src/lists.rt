//! The lists that selections name.

ghost use Rattle.std.specs.Prelude.{◌≡◌, length, map, option_map, IfOk, OnErr, OnOk};
ghost use Rattle.std.specs.Option.{is_some};
ghost use Rattle.word_lists.specs.Stems.{AreKeysOf, stem_in};
ghost use Rattle.plan_compiler.specs.SharedLists.{dictionary, named};
ghost use Rattle.plan_compiler.specs.NamedLists.{list_named, no_lists, with_list, with_stems, with_stop_list, with_thesaurus};

use ft_base::{Items, Memory};
use indexmap::IndexMap;
use std::alloc::Global;
use std::marker::Model;
use std::rc::Rc;
use thesaurus_file::Thesaurus;
use word_lists::{KeySet, Stems};

/// The lists that selections name: stop lists and thesauri by their names, in the order in which the names first came, and one
/// dictionary of stems.
#[derive(Drop)]
pub struct Lists {
    alloc: Global,
    stops: IndexMap<String, Rc<KeySet>>,
    thesauri: IndexMap<String, Rc<Thesaurus>>,
    stems: Option<Rc<Stems>>,
}

impl Model for Lists {
    ghost use Rattle.std.specs.Prelude.{map};
    ghost use Rattle.plan_compiler.specs.SharedLists.{dictionary, named};
    ghost use Rattle.plan_compiler.specs.NamedLists.{NamedLists};

    ghost Value = { NamedLists };

    ghost view = { λ lists. record {
      stops = map named lists.stops.entries;
      thesauri = map named lists.thesauri.entries;
      stems = dictionary lists.stems;
    } };
}

impl Lists {
    /// No list, and no stem.
    pub fn new(alloc: Global) -> Lists
        ensures { result ≡ no_lists }
    {
        Lists {
            alloc,
            stops: IndexMap::new(alloc),
            thesauri: IndexMap::new(alloc),
            stems: None,
        }
    }

    /// A copy, which shares the lists themselves.
    pub fn copy(&self) -> Result<Lists, Memory>
        ensures { IfOk result (λ copy. copy ≡ self.now) }
    {
        let stems = copy_stems(&self.stems)?;
        let stops = copy_lists(&self.stops)?;
        match copy_lists(&self.thesauri) {
            Ok(thesauri) => Ok(Lists {
                alloc: self.alloc,
                stops,
                thesauri,
                stems,
            }),
            Err(memory) => {
                drop(stops);
                drop(stems);
                Err(memory)
            }
        }
    }

    /// Puts a stop list under a name, in the place of the one that has it, or after the others. Where memory runs out, the lists
    /// stay as they were.
    pub fn set_stop(&mut self, name: &str, list: KeySet) -> Result<(), Memory>
        ensures ok { OnOk result (self.new ≡ with_stop_list name.now list self.old) }
        ensures err { OnErr result (self.new ≡ self.old) }
    {
        put_list(self.alloc, &mut self.stops, name, list)
    }

    /// Puts a thesaurus under a name, in the place of the one that has it, or after the others. Where memory runs out, the lists
    /// stay as they were.
    pub fn set_thesaurus(&mut self, name: &str, list: Thesaurus) -> Result<(), Memory>
        ensures ok { OnOk result (self.new ≡ with_thesaurus name.now list self.old) }
        ensures err { OnErr result (self.new ≡ self.old) }
    {
        put_list(self.alloc, &mut self.thesauri, name, list)
    }

    /// Takes the dictionary for all stems. Where memory runs out, the lists stay as they were.
    pub fn set_stems(&mut self, stems: Stems) -> Result<(), Memory>
        ensures ok { OnOk result (self.new ≡ with_stems stems self.old) }
        ensures err { OnErr result (self.new ≡ self.old) }
    {
        let stems = Rc::new(self.alloc, stems)?;
        self.stems = Some(stems);
        Ok(())
    }

    /// Whether there is a stop list of that name.
    pub fn has_stop(&self, name: &str) -> bool
        ensures { result ≡ is_some (list_named name.now self.now.stops) }
    {
        self.stops.contains_key(name)
    }

    /// Whether there is a thesaurus of that name.
    pub fn has_thesaurus(&self, name: &str) -> bool
        ensures { result ≡ is_some (list_named name.now self.now.thesauri) }
    {
        self.thesauri.contains_key(name)
    }

    /// How many stop lists there are.
    pub fn stop_count(&self) -> usize
        ensures { result ≡ length self.now.stops }
    {
        self.stops.len()
    }

    /// How many thesauri there are.
    pub fn thesaurus_count(&self) -> usize
        ensures { result ≡ length self.now.thesauri }
    {
        self.thesauri.len()
    }

    /// The stop list of that name.
    pub(crate) fn stop<'a>(&'a self, name: &str) -> Option<&'a KeySet>
        ensures { option_map (λ list. list.now) result ≡ list_named name.now self.now.stops }
    {
        match self.stops.get(name) {
            Some(list) => Some(&**list),
            None => None,
        }
    }

    /// The thesaurus of that name.
    pub(crate) fn thesaurus<'a>(&'a self, name: &str) -> Option<&'a Thesaurus>
        ensures { option_map (λ list. list.now) result ≡ list_named name.now self.now.thesauri }
    {
        match self.thesauri.get(name) {
            Some(list) => Some(&**list),
            None => None,
        }
    }

    /// The stem of a key: that of the dictionary, or the key itself.
    pub(crate) fn stem<'a>(&'a self, key: &'a str) -> &'a str
        ensures { result.now ≡ stem_in self.now.stems key.now }
    {
        match &self.stems {
            Some(stems) => stems.stem(key),
            None => key,
        }
    }

    /// All keys with this stem, by the dictionary.
    pub fn keys_of<'a>(&'a self, stem: &'a str) -> Result<Items<&'a str>, Memory>
        ensures { IfOk result (λ keys. AreKeysOf self.now.stems stem.now keys) }
    {
        match &self.stems {
            Some(stems) => stems.keys_of(self.alloc, stem),
            None => Items::from_slice(self.alloc, &[stem]),
        }
    }
}

fn copy_lists<T: Drop>(lists: &IndexMap<String, Rc<T>>) -> Result<IndexMap<String, Rc<T>>, Memory>
    ensures { IfOk result (λ copies. map named copies.entries ≡ map named lists.now.entries) }
{
    Ok(lists.clone()?)
}

fn copy_stems(stems: &Option<Rc<Stems>>) -> Result<Option<Rc<Stems>>, Memory>
    ensures { IfOk result (λ copy. dictionary copy ≡ dictionary stems.now) }
{
    match stems {
        Some(stems) => Ok(Some(stems.clone()?)),
        None => Ok(None),
    }
}

fn put_list<T: Drop>(
    alloc: Global,
    lists: &mut IndexMap<String, Rc<T>>,
    name: &str,
    list: T,
) -> Result<(), Memory>
    ensures ok { OnOk result (map named lists.new.entries ≡ with_list name.now list (map named lists.old.entries)) }
    ensures err { OnErr result (lists.new.entries ≡ lists.old.entries) }
{
    let name = String::from_str(alloc, name)?;
    let list = Rc::new(alloc, list)?;
    lists.insert(name, list)?;
    Ok(())
}
