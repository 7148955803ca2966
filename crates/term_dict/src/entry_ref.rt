ghost use Rattle.std.specs.Prelude.{◌≡◌};
ghost use Rattle.index_meaning.specs.Entries.{entry, entry_cmp, text_cmp};

use std::cmp::Ordering;
use std::marker::Model;

/// An entry whose texts stand elsewhere: one that is read, or one that is looked for.
#[derive(Drop)]
pub struct EntryRef<'a> {
    key: &'a str,
    word: &'a str,
}

impl<'a> Model for EntryRef<'a> {
    ghost use Rattle.index_meaning.specs.Entries.{Entry, entry};

    ghost Value = { Entry };

    ghost view = { λ inside. entry inside.key.now inside.word.now };
}

impl<'a> EntryRef<'a> {
    /// The entry of that key and word.
    pub fn new(key: &'a str, word: &'a str) -> EntryRef<'a>
        ensures { result ≡ entry key.now word.now }
    {
        EntryRef { key, word }
    }

    /// The key.
    pub fn key(&self) -> &'a str
        ensures { result.now ≡ self.now.key }
    {
        self.key
    }

    /// The word.
    pub fn word(&self) -> &'a str
        ensures { result.now ≡ self.now.word }
    {
        self.word
    }

    /// How the entry that is looked for stands to this one.
    pub fn order_of(&self, sought: &EntryRef) -> Ordering
        ensures { result ≡ entry_cmp sought.now self.now }
    {
        match sought.key.cmp(self.key) {
            Ordering::Less => Ordering::Less,
            Ordering::Equal => sought.word.cmp(self.word),
            Ordering::Greater => Ordering::Greater,
        }
    }

    /// How this entry's key stands to that of the one that is looked for.
    pub fn key_order(&self, sought: &EntryRef) -> Ordering
        ensures { result ≡ text_cmp self.now.key sought.now.key }
    {
        self.key.cmp(sought.key)
    }
}
