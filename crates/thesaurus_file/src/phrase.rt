ghost use Rattle.std.specs.Prelude.{◌≡◌, [], ◌∷◌, ◌++◌, ◌<◌, ◌==◌, length, slice_index_or, IfOk, OnErr, OnOk, Some, refl};
ghost use Rattle.std.specs.Cmp as Cmp;
ghost use Rattle.std.specs.Cmp.Lexicographic.{lists_total, nat_list_cmp_total};
ghost use Rattle.thesaurus_file.specs.Phrases.{phrase_cmp, phrase_eq};

use ft_base::Memory;
use std::alloc::Global;
use std::cmp::Ordering;
use std::marker::Model;

/// A phrase: the keys of its words, in order, which contracts see as the list of their bytes.
#[derive(Drop)]
pub struct Phrase {
    keys: Vec<String>,
}

impl Model for Phrase {
    ghost use Rattle.std.specs.Prelude.{List, ℕ, map, string_bytes};
    ghost use Rattle.std.specs.Coded.{coded_list, coded_ℕ};

    ghost Value = { List (List ℕ) };

    ghost coded = { coded_list (coded_list coded_ℕ) };

    ghost view = { λ phrase. map string_bytes phrase.keys.items };
}

impl Phrase {
    /// The phrase without words.
    pub fn new(alloc: Global) -> Phrase
        ensures { result ≡ [] }
    {
        Phrase {
            keys: Vec::new(alloc),
        }
    }

    /// Puts the key of a word at the end. Where memory runs out, the phrase stays as it was.
    pub fn push(&mut self, alloc: Global, key: &str) -> Result<(), Memory>
        ensures ok { OnOk result (self.new ≡ self.old ++ key.now ∷ []) }
        ensures err { OnErr result (self.new ≡ self.old) }
    {
        let key = String::from_str(alloc, key)?;
        self.keys.push(key)?;
        Ok(())
    }

    /// How many words there are.
    pub fn len(&self) -> usize
        ensures { result ≡ length self.now }
    {
        self.keys.len()
    }

    /// Whether there is no word.
    pub fn is_empty(&self) -> bool
        ensures { result ≡ (length self.now == 0) }
    {
        self.keys.is_empty()
    }

    /// The key of the word of that number, counted from 0.
    pub fn get(&self, number: usize) -> &str
        requires { number < length self.now }
        ensures { result.now ≡ slice_index_or self.now number result.now }
    {
        self.keys[number].as_str()
    }

    /// A phrase with the same keys.
    pub fn copy(&self, alloc: Global) -> Result<Phrase, Memory>
        ensures { IfOk result (λ copy. copy ≡ self.now) }
    {
        let mut copy = Phrase::new(alloc);
        for key in &self.keys {
            copy.push(alloc, key.as_str())?;
        }
        Ok(copy)
    }
}

impl PartialEq for Phrase {
    ghost eq = { phrase_eq };

    ghost laws = { Cmp.partial_equiv_from_equiv (Cmp.eq_by_cmp_equiv (lists_total nat_list_cmp_total)) };

    fn eq(&self, other: &Self) -> bool {
        self.cmp(other) == Ordering::Equal
    }
}

impl Eq for Phrase {
    ghost laws = { Cmp.eq_by_cmp_equiv (lists_total nat_list_cmp_total) };
}

impl PartialOrd for Phrase {
    ghost partial_cmp = { λ a b. Some (phrase_cmp a b) };

    ghost laws = { Cmp.partial_order_from_total (lists_total nat_list_cmp_total) };

    fn partial_cmp(&self, other: &Self) -> Option<Ordering> {
        Some(self.cmp(other))
    }
}

impl Ord for Phrase {
    ghost cmp = { phrase_cmp };

    ghost total = { lists_total nat_list_cmp_total };

    ghost matches_partial_cmp = { λ a b. refl };

    ghost matches_eq = { λ a b. refl };

    fn cmp(&self, other: &Self) -> Ordering {
        self.keys.cmp(&other.keys)
    }
}
