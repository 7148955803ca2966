ghost use Rattle.std.specs.Prelude.{◌≡◌, ◌<◌, ◌≤◌, ◌∷◌, ◌++◌, [], length, take, slice_index_or, IfOk, OnErr, OnOk};
ghost use Rattle.text_list.specs.Ends.{start_at};

use ft_base::Memory;
use std::alloc::Global;
use std::marker::Model;

/// A growing list of texts, which contracts see as the plain list of their bytes.
#[derive(Drop)]
pub struct TextList {
    /// The texts, one after the other.
    text: String,
    /// Where each of them ends.
    ends: Vec<usize>,
}

impl Model for TextList {
    ghost use Rattle.std.specs.Prelude.{List, ℕ, string_bytes};
    ghost use Rattle.text_list.specs.Ends.{AreEnds, texts};

    ghost Value = { List (List ℕ) };

    ghost view = { λ list. texts 0 list.ends.items (string_bytes list.text) };

    ghost invariant = { λ list. AreEnds 0 list.ends.items (string_bytes list.text) };
}

impl TextList {
    /// The empty list.
    pub fn new(alloc: Global) -> TextList
        ensures { result ≡ [] }
    {
        TextList {
            text: String::new(alloc),
            ends: Vec::new(alloc),
        }
    }

    /// The same texts in memory of their own.
    pub fn copy(&self) -> Result<TextList, Memory>
        ensures { IfOk result (λ copy. copy ≡ self.now) }
    {
        let text = String::from_str(*self.ends.allocator(), self.text.as_str())?;
        let ends = Vec::from_slice(*self.ends.allocator(), self.ends.as_slice())?;
        Ok(TextList { text, ends })
    }

    /// The empty list, with room for texts of so many bytes.
    pub fn with_capacity(alloc: Global, bytes: usize) -> Result<TextList, Memory>
        ensures { IfOk result (λ list. list ≡ []) }
    {
        let text = String::with_capacity(alloc, bytes)?;
        Ok(TextList {
            text,
            ends: Vec::new(alloc),
        })
    }

    /// Puts the text at the end. Where memory runs out, the list stays as it was.
    pub fn push(&mut self, text: &str) -> Result<(), Memory>
        ensures ok { OnOk result (self.new ≡ self.old ++ text.now ∷ []) }
        ensures err { OnErr result (self.new ≡ self.old) }
    {
        self.ends.reserve(1)?;
        self.text.push_str(text)?;
        self.ends.push(self.text.len())?;
        Ok(())
    }

    /// Leaves the first so many texts, and all where there are no more.
    pub fn truncate(&mut self, count: usize)
        ensures { self.new ≡ take count self.old }
    {
        if count >= self.ends.len() {
            return;
        }
        let end = start_at(&self.ends, count);
        self.ends.truncate(count);
        self.text.truncate(end);
    }

    /// How many texts there are.
    pub fn len(&self) -> usize
        ensures { result ≡ length self.now }
    {
        self.ends.len()
    }

    /// The text of that number, counted from 0.
    pub fn get(&self, number: usize) -> &str
        requires { number < length self.now }
        ensures { result.now ≡ slice_index_or self.now number result.now }
    {
        let start = start_at(&self.ends, number);
        &self.text[start..self.ends[number]]
    }
}

/// Where the text of that number starts.
fn start_at(ends: &Vec<usize>, number: usize) -> usize
    requires { number < length ends.now.items }
    ensures { result ≡ start_at 0 ends.now.items number }
{
    if number == 0 {
        return 0;
    }
    ends[number - 1]
}
