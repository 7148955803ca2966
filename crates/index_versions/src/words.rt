//! Words, and the ids under which a dictionary has them.
ghost use Rattle.std.specs.Prelude.{◌≡◌, ◌≤◌, ◌<◌, ◌||◌, ◌∷◌, [], ℕ, nat_le, nat_lt, map, length, true, IfOk, IfSome, OnOk};
ghost use Rattle.index_meaning.specs.Dictionaries.{ids};
ghost use Rattle.index_document.specs.Terms as by_id;
ghost use Rattle.index_document.specs.Terms.{has};
ghost use Rattle.index_counts.specs.Counts.{count_of};
ghost use Rattle.index_versions.specs.steps.Held.{leaf_under, word_of};
ghost use Rattle.index_versions.specs.steps.Naming.{all_words, entries_of, IsKnown, IsNamed};

use crate::WordLeaves;
use crate::hints::{WordHints, hash_of};
use ft_base::Memory;
use index_counts::DocumentCounts;
use index_document::TermLeaf;
use std::alloc::Global;
use std::mem;
use term_dict::TermDict;
use text_forms::key;
use text_list::TextList;

/// Puts the words of the leaves into the dictionary, where they aren't there, and hands out the leaves with their ids.
pub(crate) fn name_leaves(
    alloc: Global,
    dictionary: &mut TermDict,
    counts: &DocumentCounts,
    hints: &mut WordHints,
    leaves: &WordLeaves,
) -> Result<Vec<TermLeaf>, Memory>
    requires { (id : ℕ) → 0 < count_of counts.now id → has id (ids dictionary.old.terms) ≡ true }
    ensures named { IfOk result (λ made. IsNamed dictionary.old (entries_of (all_words leaves.now)) dictionary.new (by_id.words_of made.items)) }
    ensures leaves { IfOk result (λ made. map (leaf_under dictionary.new.given) made.items ≡ leaves.now) }
{
    let first = dictionary.given_count();
    let mut made = Vec::with_capacity(alloc, leaves.len())?;
    for leaf in leaves.as_slice() {
        let ids = ids_of(alloc, dictionary, counts, first, hints, leaf.words())?;
        made.push(TermLeaf::new(leaf.leaf(), ids)?)?;
    }
    Ok(made)
}

/// Puts the words into the dictionary, where they aren't there, and hands out the id of each.
pub(crate) fn name_words(
    alloc: Global,
    dictionary: &mut TermDict,
    counts: &DocumentCounts,
    words: &TextList,
) -> Result<Vec<u32>, Memory>
    requires { (id : ℕ) → 0 < count_of counts.now id → has id (ids dictionary.old.terms) ≡ true }
    ensures { IfOk result (λ named. IsNamed dictionary.old (entries_of words.now) dictionary.new named.items) }
{
    let first = dictionary.given_count();
    let mut hints = WordHints::new(alloc);
    let named = ids_of(alloc, dictionary, counts, first, &mut hints, words);
    drop(hints);
    named
}

/// The same with hints, where ids from `first` on were given for words that are to come.
fn ids_of(
    alloc: Global,
    dictionary: &mut TermDict,
    counts: &DocumentCounts,
    first: usize,
    hints: &mut WordHints,
    words: &TextList,
) -> Result<Vec<u32>, Memory>
    requires { IsKnown counts.now first dictionary.old }
    ensures named { IfOk result (λ named. IsNamed dictionary.old (entries_of words.now) dictionary.new named.items) }
    ensures known { OnOk result (IsKnown counts.now first dictionary.new) }
{
    let mut named = Vec::with_capacity(alloc, words.len())?;
    for number in 0..words.len() {
        let word = words.get(number);
        named.push(id_of(alloc, dictionary, counts, first, hints, word)?)?;
    }
    Ok(named)
}

/// The id of the word, which comes into the dictionary where it isn't there.
fn id_of(
    alloc: Global,
    dictionary: &mut TermDict,
    counts: &DocumentCounts,
    first: usize,
    hints: &mut WordHints,
    word: &str,
) -> Result<u32, Memory>
    requires { IsKnown counts.now first dictionary.old }
    ensures named { IfOk result (λ id. IsNamed dictionary.old (entries_of (word.now ∷ [])) dictionary.new (id ∷ [])) }
    ensures known { OnOk result (IsKnown counts.now first dictionary.new) }
{
    let hash = hash_of(word);
    match checked(dictionary, counts, first, hints.find(hash), word) {
        Some(id) => Ok(id),
        None => {
            let id = put_word(alloc, dictionary, word)?;
            hints.note(hash, id)?;
            Ok(id)
        }
    }
}

/// The hint, where the dictionary has the word under that id.
fn checked(
    dictionary: &TermDict,
    counts: &DocumentCounts,
    first: usize,
    hint: Option<u32>,
    word: &str,
) -> Option<u32>
    requires { IsKnown counts.now first dictionary.now }
    ensures { IfSome result (λ id. IsNamed dictionary.now (entries_of (word.now ∷ [])) dictionary.now (id ∷ [])) }
{
    let id = hint?;
    if id as usize >= dictionary.given_count() {
        return None;
    }
    if dictionary.entry(id).word != word {
        return None;
    }
    if is_known(counts, first, id) {
        return Some(id);
    }
    None
}

/// Whether the id, which was given, is known to be in the dictionary: it was given last, or a document has it.
fn is_known(counts: &DocumentCounts, first: usize, id: u32) -> bool
    ensures { result ≡ (nat_le first id || nat_lt 0 (count_of counts.now id)) }
{
    if id as usize >= first {
        return true;
    }
    counts.count(id) > 0
}

/// Puts the word into the dictionary, where it isn't there, and hands out its id: the only one that is given now.
fn put_word(alloc: Global, dictionary: &mut TermDict, word: &str) -> Result<u32, Memory>
    ensures named { IfOk result (λ id. IsNamed dictionary.old (entries_of (word.now ∷ [])) dictionary.new (id ∷ [])) }
    ensures given { IfOk result (λ id. (other : ℕ) → length dictionary.old.given ≤ other → other < length dictionary.new.given → other ≡ id) }
{
    let key = key(alloc, word)?;
    let _terms = dictionary.len();
    let before = mem::replace(dictionary, TermDict::empty(alloc));
    let (after, id) = before.put(key.as_str(), word)?;
    let _all_terms = after.len();
    *dictionary = after;
    Ok(id)
}
