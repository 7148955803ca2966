ghost use Rattle.std.specs.Prelude.{◌≡◌, [], Ok, IfErr, IfOk, OnErr, bytes_eq};
ghost use Rattle.std.specs.List.{list_any};
ghost use Rattle.ft_base.specs.Lists.{is_empty};
ghost use Rattle.word_lists.specs.Adding.{Added, IsFault};
ghost use Rattle.word_lists.specs.KeySets.{key_set_of, with_key_line};

use crate::words::{only_word, text_key};
use ft_base::{ListFault, Memory};
use indexmap::IndexSet;
use std::alloc::Global;
use std::marker::Model;
use text_lines::ContentLines;

/// A set of keys of words, which contracts see as the list of them, each once.
#[derive(Drop)]
pub struct KeySet {
    keys: IndexSet<String>,
}

impl Model for KeySet {
    ghost use Rattle.std.specs.Prelude.{List, ℕ, map, string_bytes};
    ghost use Rattle.std.specs.Coded.{coded_list, coded_ℕ};

    ghost Value = { List (List ℕ) };

    ghost coded = { coded_list (coded_list coded_ℕ) };

    ghost view = { λ list. map string_bytes list.keys.keys };
}

impl KeySet {
    /// The set without keys.
    pub fn empty(alloc: Global) -> KeySet
        ensures { result ≡ [] }
    {
        KeySet {
            keys: IndexSet::new(alloc),
        }
    }

    /// Reads the keys of words, one word in each line that isn't empty and no comment: those of a stop list, or of a list of
    /// abbreviations. `BadLine` is the first line that has no word, several, or bytes that aren't UTF-8.
    pub fn read(alloc: Global, bytes: &[u8]) -> Result<KeySet, ListFault>
        ensures ok { IfOk result (λ list. key_set_of bytes.now ≡ Ok list) }
        ensures err { IfErr result (λ fault. IsFault fault (key_set_of bytes.now)) }
    {
        let mut list = KeySet::empty(alloc);
        let mut lines = ContentLines::of(bytes);
        while let Some(line) = lines.next() {
            match list.add_line(alloc, line.text) {
                Ok(true) => {}
                Ok(false) => return Err(ListFault::BadLine { line: line.number }),
                Err(Memory) => return Err(ListFault::Memory),
            }
        }
        Ok(list)
    }

    /// Whether no key is in the set.
    pub fn is_empty(&self) -> bool
        ensures { result ≡ is_empty self.now }
    {
        self.keys.is_empty()
    }

    /// Whether the key of a word is in the set.
    pub fn holds(&self, key: &str) -> bool
        ensures { result ≡ list_any (bytes_eq key.now) self.now }
    {
        self.keys.contains(key)
    }

    /// Adds what the line says, unless it is bad.
    fn add_line(&mut self, alloc: Global, line: &[u8]) -> Result<bool, Memory>
        ensures { IfOk result (λ added. Added added (with_key_line self.old line.now) self.new) }
    {
        let Some(word) = only_word(alloc, line)? else {
            return Ok(false);
        };
        let key = text_key(alloc, word)?;
        self.keys.insert(key)?;
        Ok(true)
    }
}
