ghost use Rattle.std.specs.Prelude.{◌≡◌, Ok, [], IfErr, IfOk};
ghost use Rattle.word_lists.specs.Adding.{Added, IsFault};
ghost use Rattle.word_lists.specs.Stems.{AreKeysOf, stem_in, stems_of, with_stem_line};

use crate::words::{only_two_words, text_key};
use ft_base::{Items, ListFault, Memory};
use indexmap::IndexMap;
use std::alloc::Global;
use std::marker::Model;
use text_lines::ContentLines;

/// A dictionary of stems: the keys of words with those of their stems, which contracts see as the list of these pairs.
#[derive(Drop)]
pub struct Stems {
    stems: IndexMap<String, String>,
}

impl Model for Stems {
    ghost use Rattle.std.specs.Prelude.{map};
    ghost use Rattle.std.specs.Coded.{coded×, coded_list, coded_ℕ};
    ghost use Rattle.std.specs.Prelude.{List};
    ghost use Rattle.word_lists.specs.Stems.{Stem};
    ghost use Rattle.word_lists.specs.View.{bytes_of_both};

    ghost Value = { List Stem };

    ghost coded = { coded_list (coded× (coded_list coded_ℕ) (coded_list coded_ℕ)) };

    ghost view = { λ list. map bytes_of_both list.stems.entries };
}

impl Stems {
    /// A dictionary without words.
    pub fn empty(alloc: Global) -> Stems
        ensures { result ≡ [] }
    {
        Stems {
            stems: IndexMap::new(alloc),
        }
    }

    /// Reads a dictionary: a word and its stem in each line that isn't empty and no comment. `BadLine` is the first line that
    /// hasn't just two words, has bytes that aren't UTF-8, or has a word whose key is there already.
    pub fn read(alloc: Global, bytes: &[u8]) -> Result<Stems, ListFault>
        ensures ok { IfOk result (λ list. stems_of bytes.now ≡ Ok list) }
        ensures err { IfErr result (λ fault. IsFault fault (stems_of bytes.now)) }
    {
        let mut list = Stems::empty(alloc);
        let mut lines = ContentLines::of(bytes);
        while let Some(line) = lines.next() {
            match list.add_line(alloc, line.text) {
                Ok(true) => {}
                Ok(false) => return Err(ListFault::BadLine { line: line.number }),
                Err(Memory) => return Err(ListFault::Memory),
            }
        }
        Ok(list)
    }

    /// The stem of a key: that of the dictionary, or the key itself.
    pub fn stem<'a>(&'a self, key: &'a str) -> &'a str
        ensures { result.now ≡ stem_in self.now key.now }
    {
        match self.stems.get(key) {
            Some(stem) => stem.as_str(),
            None => key,
        }
    }

    /// All keys with this stem: those that are listed with it, in the order of the list, and the stem itself where its own stem is
    /// itself. One that is listed as its own stem comes twice.
    pub fn keys_of<'a>(&'a self, alloc: Global, stem: &'a str) -> Result<Items<&'a str>, Memory>
        ensures { IfOk result (λ keys. AreKeysOf self.now stem.now keys) }
    {
        let mut keys = Items::new(alloc);
        for (word, listed) in self.stems.iter() {
            if listed.as_str() == stem && self.stem(word) == stem {
                keys.push(word.as_str())?;
            }
        }
        if self.stem(stem) == stem {
            keys.push(stem)?;
        }
        Ok(keys)
    }

    /// Adds what the line says, unless it is bad.
    fn add_line(&mut self, alloc: Global, line: &[u8]) -> Result<bool, Memory>
        ensures { IfOk result (λ added. Added added (with_stem_line self.old line.now) self.new) }
    {
        let Some((word, stem)) = only_two_words(alloc, line)? else {
            return Ok(false);
        };
        let word = text_key(alloc, word)?;
        if self.stems.contains_key(word.as_str()) {
            return Ok(false);
        }
        let stem = text_key(alloc, stem)?;
        self.stems.insert(word, stem)?;
        Ok(true)
    }
}
