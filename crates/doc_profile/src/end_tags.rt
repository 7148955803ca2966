ghost use Rattle.std.specs.Prelude.{◌≡◌, ◌≤◌, ◌<◌, ◌++◌, ◌∷◌, [], drop, encode_utf8, length, map, is_some, nat_eq, string_bytes, IfOk, OnOk};
ghost use Rattle.std.specs.List.{starts_with};
ghost use Rattle.plain_tree.specs.View as nodes;
ghost use Rattle.doc_grammar.specs.Grammar.{text_node};
ghost use Rattle.doc_grammar.specs.steps.Machine as m;
ghost use Rattle.doc_profile.specs.steps.View.{Goes, closed, name_of, nodes_of, place_of, state_of};

use crate::phase::Phase;
use crate::reader::{Level, Reader};
use ft_base::{Items, Line, Memory, is_space};
use plain_tree::{Attr, Tree};
use std::alloc::Global;
use std::mem;

/// Whether the character's bytes stand at a place of the bytes.
fn stands_at(bytes: &[u8], from: usize, c: char) -> bool
    requires { from ≤ length bytes.now }
    ensures { result ≡ starts_with nat_eq (drop from bytes.now) (encode_utf8 c) }
{
    let mut buffer = [0u8; 4];
    let encoded = c.encode_utf8(&mut buffer).as_bytes();
    let rest = &bytes[from..];
    rest.starts_with(encoded)
}

/// Puts a text that isn't empty after the nodes.
fn with_text(mut kids: Vec<Tree>, text: String) -> Result<Vec<Tree>, Memory>
    ensures { IfOk result (λ all. nodes_of all ≡ nodes_of kids ++ text_node (string_bytes text)) }
{
    if text.is_empty() {
        return Ok(kids);
    }
    kids.push(Tree::Text {
        text: Line::from_string(text),
    })?;
    Ok(kids)
}

/// Puts a text that isn't empty, and then a node, after the nodes.
pub fn with_node(kids: Vec<Tree>, text: String, last: Tree) -> Result<Vec<Tree>, Memory>
    ensures { IfOk result (λ all. nodes_of all ≡ (nodes_of kids ++ text_node (string_bytes text)) ++ nodes.node last ∷ []) }
{
    let mut kids = with_text(kids, text)?;
    kids.push(last)?;
    Ok(kids)
}

impl Reader {
    /// At the `/` of an end tag.
    #[tactic(auto, using(std::proofs::lemmas::Bool::Decides::nat_tests))]
    pub fn enter_end_tag(&mut self) -> Result<bool, Memory>
        ensures { Goes result (m.end_tag (place_of self.old) (place_of self.old).outer) (state_of self.new) }
    {
        let count = self.levels.len();
        if count == 0 {
            return Ok(false);
        }
        self.name.clear();
        self.name.push_str(self.levels[count - 1].name.as_str())?;
        self.phase = Phase::EndName { read: 0 };
        Ok(true)
    }

    #[tactic(auto, using(std::proofs::lemmas::Bool::Decides::nat_tests))]
    pub fn from_end_name(&mut self, read: usize, c: char) -> Result<bool, Memory>
        ensures { Goes result (m.from_end_name (place_of self.old) (drop read (name_of self.old)) c) (state_of self.new) }
    {
        if read >= self.name.len() {
            return self.from_end_spaced(c);
        }
        if stands_at(self.name.as_bytes(), read, c) {
            self.phase = Phase::EndName {
                read: read + c.len_utf8(),
            };
            Ok(true)
        } else {
            Ok(false)
        }
    }

    #[tactic(auto, using(std::proofs::lemmas::Bool::Decides::nat_tests), unfolding(doc_grammar::specs::steps::Machine::from_end_spaced))]
    pub fn from_end_spaced(&mut self, c: char) -> Result<bool, Memory>
        ensures { Goes result (m.from_end_spaced (place_of self.old) c) (state_of self.new) }
    {
        if c == '>' {
            self.leave()
        } else {
            self.phase = Phase::EndSpaced;
            Ok(is_space(c))
        }
    }

    /// Leaves the open element.
    #[tactic(auto, using(std::proofs::lemmas::Bool::Decides::nat_tests), unfolding(doc_grammar::specs::steps::Machine::left))]
    fn leave(&mut self) -> Result<bool, Memory>
        ensures { Goes result (m.left (place_of self.old)) (state_of self.new) }
    {
        match self.levels.pop() {
            None => Ok(false),
            Some(level) => {
                self.close(level)?;
                Ok(true)
            }
        }
    }

    #[tactic(auto, using(std::proofs::lemmas::Bool::Decides::nat_tests, plain_tree::proofs::Views::views))]
    fn close(&mut self, level: Level) -> Result<(), Memory>
        ensures { OnOk result (state_of self.new ≡ closed (place_of self.old) level) }
    {
        let kids = mem::replace(&mut self.kids, Vec::new(self.alloc));
        let text = mem::replace(&mut self.text, String::new(self.alloc));
        let kids = with_text(kids, text)?;
        let element = Tree::Elem {
            name: Line::from_string(level.name),
            attrs: Items::from_vec(level.attrs),
            kids: Items::from_vec(kids),
        };
        self.kids = with_node(level.kids, level.text, element)?;
        self.phase = Phase::Ready;
        Ok(())
    }

    /// Whether the text may end here.
    pub fn is_finished(&self) -> bool
        ensures { result ≡ is_some (m.finished (state_of self.now)) }
    {
        match self.phase {
            Phase::Ready => { self.levels.is_empty() && (self.fragment || self.kids.len() == 1) }
            _ => false,
        }
    }

    /// What is read, once it is at its end.
    pub fn finish(self) -> Result<Vec<Tree>, Memory>
        ensures { IfOk result (λ all. nodes_of all ≡ (place_of self).kids ++ text_node (place_of self).text) }
    {
        with_text(self.kids, self.text)
    }
}
